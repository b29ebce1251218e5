// A sweep by numbers: the moves and the sweep that they ask for, and what its answer comes to. For blocks, routes and lists from C alike.
#![tactic(auto)]

ghost use Rattle.std.specs.Prelude.{◌≡◌, Ok};
ghost use Rattle.std.specs.Float.{binary32};
ghost use Rattle.model.specs.Work as Work;

use model::{
    Contact, Corners, Counts, Refusal, Rotation, Status, Sweep, SweepAnswer, Swept, Vector, Verdict,
};
use outline::point;

// The rotation whose cosine and sine are a pair.
pub fn turn(v: Vector) -> Rotation
    ensures { result ≡ Work.turn v }
{
    Rotation { c: v.x, s: v.y }
}

// The move of the five pairs from pair i on.
pub fn move_at(numbers: &[f32], i: u8) -> Sweep
    ensures { result ≡ Work.move_at numbers.now i }
{
    let first = i as u32;
    let local_center = point(numbers, first);
    let c1 = point(numbers, first + 1);
    let c2 = point(numbers, first + 2);
    let q1 = turn(point(numbers, first + 3));
    let q2 = turn(point(numbers, first + 4));
    Sweep {
        local_center,
        c1,
        c2,
        q1,
        q2,
    }
}

// The move that ten numbers stand for.
pub fn move_of(numbers: &[f32]) -> Sweep
    ensures { result ≡ Work.move_at numbers.now 0 }
{
    move_at(numbers, 0)
}

// The sweep that 24 numbers ask for: both radii, the max fraction, the slop, and two moves of ten. A number that is missing is NaN.
pub fn sweep_of(points_a: &[f32], points_b: &[f32], numbers: &[f32]) -> Swept
    ensures { result ≡ Work.sweep_for binary32 points_a.now points_b.now numbers.now }
{
    let radii = point(numbers, 0);
    let limits = point(numbers, 1);
    let move_a = move_at(numbers, 2);
    let move_b = move_at(numbers, 7);
    sweep_toi::sweep_time_of_impact(
        points_a, radii.x, move_a, points_b, radii.y, move_b, limits.x, limits.y,
    )
}

fn found(
    status: Status,
    contact: Contact,
    counts: Counts,
    corners: Corners,
) -> Result<Verdict, Refusal>
    ensures { result ≡ Ok (Work.verdict status contact counts corners) }
{
    Ok(Verdict {
        status,
        contact,
        counts,
        corners,
    })
}

// What a sweep's answer comes to, with the corners beside it. An overlap has fraction 0 and zeros.
pub fn told_by(corners: Corners, answer: SweepAnswer) -> Result<Verdict, Refusal>
    ensures { result ≡ Work.told_by binary32 corners answer }
{
    let zero = Vector { x: 0.0, y: 0.0 };
    let none = Contact {
        fraction: 0.0,
        point: zero,
        normal: zero,
    };
    match answer {
        SweepAnswer::Overlapped(counts) => found(Status::Overlapped, none, counts, corners),
        SweepAnswer::Hit(contact, counts) => found(Status::Hit, contact, counts, corners),
        SweepAnswer::Separated(contact, counts) => {
            found(Status::Separated, contact, counts, corners)
        }
        SweepAnswer::Failed(contact, counts) => found(Status::Failed, contact, counts, corners),
        SweepAnswer::Refused(number) => Err(Refusal { number }),
    }
}

// The same with the corners of the sweep's last search.
pub fn told(swept: Swept) -> Result<Verdict, Refusal>
    ensures { result ≡ Work.told binary32 swept }
{
    let answer = swept.answer;
    let corners = swept.corners;
    told_by(corners, answer)
}
