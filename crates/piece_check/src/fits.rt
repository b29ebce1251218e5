// Whether a job on the grid has the sizes that the check counts on.
ghost use Rattle.std.specs.Prelude.{true, ◌≡◌, ◌≤◌, length};
ghost use Rattle.integers.specs.Signed.{of_nat, ◌⊠◌, ◌≼◌};
ghost use Rattle.plane.specs.Plane.{dot};
ghost use Rattle.board.specs.Corners.{place, Corners};
ghost use Rattle.board.specs.Board.{Inside, BodyFits, Fits};

use crate::corners::are_corners;
use crate::pairs::{inner, mul};
use board::{GridBody, GridJob, Outline, Outlines, Pair, Vector, both_within};

fn corner_inside(x: u64, y: u64, reach: u64) -> bool
    requires { (x ≤ 1073741824) × (y ≤ 1073741824) × (reach ≤ 805306368) }
    ensures { result ≡ true → dot (place x y) (place x y) ≼ of_nat reach ⊠ of_nat reach }
{
    let v = Vector {
        x: Pair { p: x, m: 536870912 },
        y: Pair { p: y, m: 536870912 },
    };
    let d = inner(v, v, 1610612736, 1610612736);
    let s = mul(
        Pair { p: reach, m: 0 },
        Pair { p: reach, m: 0 },
        805306368,
        805306368,
    );
    d.p + s.m <= s.p + d.m
}

// The corners lie within `reach` of the centre.
fn all_inside(reach: u64, outline: Outline<'_>) -> bool
    requires { (reach ≤ 805306368) × Corners outline.xs.now outline.ys.now }
    ensures { result ≡ true → Inside reach outline.entry.xs.now outline.entry.ys.now (length outline.entry.xs.now) }
{
    for (i, x) in outline.xs.iter().enumerate() {
        if !corner_inside(*x, outline.ys[i], reach) {
            return false;
        }
    }
    true
}

fn body_fits(o: GridBody, outline: Outline<'_>) -> bool
    ensures { result ≡ true → BodyFits o outline.entry.xs.now outline.entry.ys.now }
{
    both_within(o.q1, 1073741824)
        && both_within(o.q2, 1073741824)
        && o.reach <= 805306368
        && are_corners(outline)
        && all_inside(o.reach, outline)
}

pub fn job_fits(job: GridJob, on: Outlines<'_>) -> bool
    ensures { result ≡ true → Fits job on.entry.a.xs.now on.entry.a.ys.now on.entry.b.xs.now on.entry.b.ys.now }
{
    both_within(job.d1, 536870912)
        && both_within(job.d2, 536870912)
        && job.up <= 1073741824
        && body_fits(job.a, on.a)
        && body_fits(job.b, on.b)
}
