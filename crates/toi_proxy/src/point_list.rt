// The support of a lent list of point records: that of the flat list of their parts.
ghost use Rattle.std.specs.Prelude.{◌≡◌};
ghost use Rattle.std.specs.Float.{binary32};
ghost use Rattle.model.specs.Second.{support_answer};
ghost use Rattle.toi_proxy.specs.Points.{flat, taken, answer_of};

use domain::bad_vector;
use model::{BAD_OUTLINE_A, BAD_PART, Refusal, SupportPair, Vector};

// What is known of the points so far: the first one's parts, whether any has a bad part, and the best with its value, the first and the second. The walk goes on
// behind a bad part, so that several points are looked at as one: no Result.
#[derive(Clone, Copy)]
struct Farthest {
    x: f32,
    y: f32,
    bad: bool,
    best: usize,
    second: usize,
    value: f32,
}

// Takes point i: the first is the origin of all values, and a later one is better where its value is above the best, and the second where
// it is equal.
fn take(s: Farthest, i: usize, p: Vector, direction: Vector) -> Farthest
    ensures { result ≡ taken binary32 direction s i p }
{
    let bad = s.bad | bad_vector(p);
    if i == 0 {
        return Farthest {
            x: p.x,
            y: p.y,
            bad,
            best: 0,
            second: 0,
            value: 0.0,
        };
    }
    let value = direction.x * (p.x - s.x) + direction.y * (p.y - s.y);
    if value > s.value {
        Farthest {
            bad,
            best: i,
            second: i,
            value,
            ..s
        }
    } else if value == s.value {
        Farthest {
            bad,
            second: i,
            ..s
        }
    } else {
        Farthest { bad, ..s }
    }
}

// The answer, once all points are taken.
fn answer(s: Farthest, count: usize) -> Result<SupportPair, Refusal>
    ensures { result ≡ answer_of s count }
{
    if (count == 0) | (count > 64) {
        return Err(BAD_OUTLINE_A);
    }
    if s.bad {
        return Err(BAD_PART);
    }
    Ok(SupportPair {
        first: (s.best % 0x1_0000_0000) as u32,
        second: (s.second % 0x1_0000_0000) as u32,
    })
}

// Which points of a list of records lie farthest along a direction, the first and the second; or the number of its refusal: the answer of the flat list.
pub fn support_points(points: &[Vector], direction: Vector) -> Result<SupportPair, Refusal>
    ensures { result ≡ support_answer binary32 (flat points.now) direction }
{
    let mut s = Farthest {
        x: 0.0,
        y: 0.0,
        bad: false,
        best: 0,
        second: 0,
        value: 0.0,
    };
    for (i, p) in points.iter().enumerate() {
        s = take(s, i, *p, direction);
    }
    answer(s, points.len())
}
