// The verdict on a job that a caller hands in as lists of numbers: its numbers on the grid, the span to look at, and the loop over pieces.
#![tactic(auto)]

ghost use Rattle.std.specs.Prelude.{◌≡◌, ◌≤◌, ◌<◌, IsSome, MatchOption};
ghost use Rattle.planned.specs.Planned.{worth_of};
ghost use Rattle.integers.specs.Signed.{0Int, of_nat, ◌≼◌};
ghost use Rattle.grid.specs.Grid.{unit};
ghost use Rattle.model.specs.Support.{point};
ghost use Rattle.grid_job.specs.Placing.{Fitting};
ghost use Rattle.std.specs.Float.{binary32};
ghost use Rattle.std.specs.Float.Ieee.{to_bits};
ghost use Rattle.clearance_job.specs.Promise.{Ended, Ranged, Started, Asked, Spoken, Heard, Given};

use board::{GridJob, Outline, Outlines};
use clearance_verdict::{Answer, Stretch, settle_job};
use grid_job::{fraction_down, fraction_up, grid_job};
use outline::point;

// The same number, without the sign of a zero.
fn plain(x: f32) -> f32
    ensures { (worth_of result ≡ worth_of x) × (0Int ≼ worth_of x → worth_of x ≼ of_nat unit → to_bits binary32 result ≤ 1065353216) }
{
    if ground::to_bits(x) == 2147483648 {
        return 0.0;
    }
    x
}

// A place after the first one, and not before the end.
fn end_after(first: u64, end: f32) -> u64
    requires { first < 16777216 }
    ensures { Ended first end result }
{
    fraction_up(end).max(first + 1)
}

// What there is to look at, where there is anything. The fractions from 0 to 1 have patterns up to that of 1; a look at the last moment alone starts a place
// before it.
fn part_of(from: f32, end: f32) -> Option<Stretch>
    ensures { MatchOption result (Started from end → ⊥) (λ part. Asked from end part) }
{
    if ground::to_bits(from) > 1065353216 || ground::to_bits(end) > 1065353216 {
        return None;
    }
    let first = fraction_down(from).min(16777215);
    let low = fraction_down(end);
    let high = end_after(first, end);
    if high > 16777216 || first >= high || low > high || high > low + 1 {
        return None;
    }
    Some(Stretch {
        from: first,
        low,
        high,
    })
}

// On a board that the job stands on.
fn settle_board(job: GridJob, numbers: &[f32], from: f32, on: Outlines<'_>) -> Option<Answer>
    ensures { Heard (Spoken numbers.now from job on.entry.a.xs.now on.entry.a.ys.now on.entry.b.xs.now on.entry.b.ys.now) result
        × (Ranged from (point numbers.now 1).x → IsSome result) }
{
    let limits = point(numbers, 1);
    let part = part_of(plain(from), plain(limits.x))?;
    Some(settle_job(job, part, on))
}

// The verdict from a fraction on, where the job could be settled at all. The lists are room for the corners on the grid, as long as the outlines; nothing is
// asked of any of it. A job in the domain is always settled, one way or another.
pub fn settle_lists<'a>(
    points_a: &[f32],
    points_b: &[f32],
    numbers: &[f32],
    from: f32,
    axs: &'a mut [u64],
    ays: &'a mut [u64],
    bxs: &'a mut [u64],
    bys: &'a mut [u64],
) -> Option<Answer>
    ensures { Given points_a.now points_b.now numbers.now from result
        × (Fitting points_a.now points_b.now numbers.now axs.old ays.old
        bxs.old bys.old → Ranged from (point numbers.now 1).x → IsSome result) }
{
    let job = grid_job(points_a, points_b, numbers, axs, ays, bxs, bys)?;
    let on = Outlines {
        a: Outline { xs: axs, ys: ays },
        b: Outline { xs: bxs, ys: bys },
    };
    settle_board(job, numbers, from, on)
}
