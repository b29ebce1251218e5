// Outlines as flat lists x0 y0 x1 y1 ..: their points, and which of them lies farthest along a direction.
#![tactic(auto)]

ghost use Rattle.std.specs.Prelude.{◌≡◌, ◌+◌, ◌*◌, ◌/◌, ◌<◌, get_or, length, drop};
ghost use Rattle.std.specs.Float.{binary32, nan};
ghost use Rattle.model.specs.Support as Support;
ghost use Rattle.model.specs.Second as Second;

use domain::{check_outline, refusal};
use model::{Refusal, SupportPair, Vector};

// Number k of the list; NaN where there is none.
fn part(points: &[f32], k: usize) -> f32
    ensures { result ≡ get_or points.now k nan }
{
    if k < points.len() {
        points[k]
    } else {
        0.0 / 0.0
    }
}

fn wide(i: u32) -> usize
    ensures { result ≡ i }
{
    i as usize
}

// Point i, with NaN for each part that the list lacks.
pub fn point(points: &[f32], i: u32) -> Vector
    ensures { result ≡ Support.point points.now i }
{
    let k = 2 * wide(i);
    let x = part(points, k);
    let y = part(points, k + 1);
    Vector { x, y }
}

// The corners so far: the one with the greatest projection, the highest whose projection equals it, and that projection.
#[derive(Clone, Copy)]
struct Best {
    first: usize,
    second: usize,
    value: f32,
}

// The corners so far with corner i: what the corners behind it make of them is what the corners from it on make of those so far.
fn taken(points: &[f32], direction: Vector, origin: Vector, best: Best, i: usize) -> Best
    requires { i < length points.now / 2 }
    ensures first { Support.support_from binary32 direction origin (drop (2 * (i + 1)) points.now) (i + 1) result.first result.value
        ≡ Support.support_from binary32 direction origin (drop (2 * i) points.now) i best.first best.value }
    ensures second { Second.second_from binary32 direction origin (drop (2 * (i + 1)) points.now) (i + 1) result.second result.value
        ≡ Second.second_from binary32 direction origin (drop (2 * i) points.now) i best.second best.value }
{
    let value = direction.x * (points[2 * i] - origin.x)
        + direction.y * (points[2 * i + 1] - origin.y);
    // strictly greater: a tie keeps the lower index as the first, and a NaN never wins
    if value > best.value {
        Best {
            first: i,
            second: i,
            value,
        }
    } else if value == best.value {
        Best {
            first: best.first,
            second: i,
            value: best.value,
        }
    } else {
        best
    }
}

// The index of the point with the greatest projection along the direction, measured from point 0 for accuracy far from the origin; and the highest
// index whose projection equals it.
pub fn support_pair(points: &[f32], direction: Vector) -> SupportPair
    ensures { result ≡ Second.support_pair binary32 points.now direction }
{
    let count = points.len() / 2;
    // nothing to measure against point 0
    if count < 2 {
        return SupportPair {
            first: 0,
            second: 0,
        };
    }
    let origin = Vector {
        x: points[0],
        y: points[1],
    };
    let mut best = Best {
        first: 0,
        second: 0,
        value: 0.0,
    };
    for i in 1..count {
        best = taken(points, direction, origin, best, i);
    }
    SupportPair {
        first: (best.first % 0x1_0000_0000) as u32,
        second: (best.second % 0x1_0000_0000) as u32,
    }
}

// The first of them alone.
pub fn support_index(points: &[f32], direction: Vector) -> u32
    ensures { result ≡ Support.support binary32 points.now direction }
{
    let pair = support_pair(points, direction);
    pair.first
}

// Both of a checked outline, or the number of its refusal.
pub fn support(points: &[f32], direction: Vector) -> Result<SupportPair, Refusal>
    ensures { result ≡ Second.support_answer binary32 points.now direction }
{
    let outline = check_outline(points);
    let Ok(()) = outline else {
        let number = refusal(outline);
        return Err(Refusal { number });
    };
    Ok(support_pair(points, direction))
}
