// A look at a planned move that a caller hands in as lists of numbers: what is out of the domain is refused as the sweep refuses it, all else gets its verdict.
#![tactic(auto)]

ghost use Rattle.std.specs.Prelude.{◌≡◌, ◌≤◌, length, IsSome};
ghost use Rattle.std.specs.Float.{binary32};
ghost use Rattle.model.specs.Domain as Domain;
ghost use Rattle.clearance_job.specs.Promise.{Given};
ghost use Rattle.clearance_call.specs.Call.{from_refusal, refusal_by, refusal_of, cleared_by, Told};

use clearance_job::settle_lists;
use clearance_verdict::Answer;
use domain::{check_fraction, check_pair, check_slop, check_sweeps, refusal};
use model::{BAD_FRACTION, Refusal, Sweep, Vector};
use outline::point;
use sweep_numbers::move_at;

// Places are in 2^24-ths of the way. The three answers of a verdict stand beside the refusal, and not within one case, so that a caller takes all four apart
// in one `match`.
#[derive(Clone, Copy)]
pub enum Cleared {
    Refused(u32),
    Clear {
        pieces: u64,
    },
    Touch {
        clear_up_to: u64,
        within_by: u64,
        pieces: u64,
    },
    Open {
        clear_up_to: u64,
        pieces: u64,
    },
}

// A start from 0 to the max fraction: 7.
fn check_from(from: f32, end: f32) -> Result<(), Refusal>
    ensures { result ≡ Domain.checked (from_refusal from end) }
{
    if (from >= 0.0) & (from <= end) {
        Ok(())
    } else {
        Err(BAD_FRACTION)
    }
}

// The checks in their order: the first number, 0 where all pass.
fn refusal_by(
    points_a: &[f32],
    points_b: &[f32],
    radii: Vector,
    limits: Vector,
    move_a: Sweep,
    move_b: Sweep,
    from: f32,
) -> u32
    ensures { result ≡ refusal_by points_a.now points_b.now radii limits move_a move_b from }
{
    let pair = check_pair(points_a, points_b, radii.x, radii.y);
    let Ok(()) = pair else {
        return refusal(pair);
    };
    let sweeps = check_sweeps(move_a, move_b);
    let Ok(()) = sweeps else {
        return refusal(sweeps);
    };
    let fraction = check_fraction(limits.x);
    let Ok(()) = fraction else {
        return refusal(fraction);
    };
    let start = check_from(from, limits.x);
    let Ok(()) = start else {
        return refusal(start);
    };
    refusal(check_slop(limits.y))
}

// The number of a job's refusal, 0 where it is in the domain. A number that is missing is NaN.
pub fn refusal_of(points_a: &[f32], points_b: &[f32], numbers: &[f32], from: f32) -> u32
    ensures { result ≡ refusal_of points_a.now points_b.now numbers.now from }
{
    let radii = point(numbers, 0);
    let limits = point(numbers, 1);
    let move_a = move_at(numbers, 2);
    let move_b = move_at(numbers, 7);
    refusal_by(points_a, points_b, radii, limits, move_a, move_b, from)
}

// The verdict, in room of its own.
fn look(points_a: &[f32], points_b: &[f32], numbers: &[f32], from: f32) -> Option<Answer>
    ensures { Given points_a.now points_b.now numbers.now from result
        × (refusal_of points_a.now points_b.now numbers.now from ≡ 0
        → length numbers.now ≡ 24 → IsSome result) }
{
    let na = (points_a.len() / 2).min(64);
    let nb = (points_b.len() / 2).min(64);
    let mut axs = [0u64; 64];
    let mut ays = [0u64; 64];
    let mut bxs = [0u64; 64];
    let mut bys = [0u64; 64];
    settle_lists(
        points_a,
        points_b,
        numbers,
        from,
        &mut axs[..na],
        &mut ays[..na],
        &mut bxs[..nb],
        &mut bys[..nb],
    )
}

fn handed_on(answer: Answer) -> Cleared
    ensures { result ≡ cleared_by answer }
{
    match answer {
        Answer::Clear { pieces } => Cleared::Clear { pieces },
        Answer::Touch {
            clear_up_to,
            within_by,
            pieces,
        } => Cleared::Touch {
            clear_up_to,
            within_by,
            pieces,
        },
        Answer::Open {
            clear_up_to,
            pieces,
        } => Cleared::Open {
            clear_up_to,
            pieces,
        },
    }
}

// From the fraction `from` to the max fraction: two outlines of up to 64 points and 24 numbers, as a sweep has them.
pub fn clearance(points_a: &[f32], points_b: &[f32], numbers: &[f32], from: f32) -> Cleared
    ensures { Told points_a.now points_b.now numbers.now from result }
{
    let number = refusal_of(points_a, points_b, numbers, from);
    if number > 0 {
        return Cleared::Refused(number);
    }
    match look(points_a, points_b, numbers, from) {
        Some(answer) => handed_on(answer),
        None => Cleared::Open {
            clear_up_to: 0,
            pieces: 0,
        },
    }
}
