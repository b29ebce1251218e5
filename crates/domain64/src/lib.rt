// Written by tests/written/wide.py from domain, in f64.
// The checks of what a caller hands in, by the numbers of refusal 1 to 8 in their order, and 12. The caller takes each answer apart by `let .. else`,
// and hands on the number.
#![tactic(auto)]

mod bad;

ghost use Rattle.std.specs.Prelude.{◌≡◌};
ghost use Rattle.std.specs.Float.{binary64};
ghost use Rattle.model64.specs.Domain as Domain;

pub use bad::bad_vector;
use bad::{bad_centres, bad_outline, bad_parts, bad_radius, bad_rotation};
use model::{
    BAD_CENTRE, BAD_FRACTION, BAD_OUTLINE_A, BAD_OUTLINE_B, BAD_PART, BAD_RADIUS, BAD_ROTATION,
    BAD_SLOP, OTHER_PAIR, Refusal, SimplexCache,
};
use model64::{Pose, Sweep};

// One outline: 1, 3.
pub fn check_outline(points: &[f64]) -> Result<(), Refusal>
    ensures { result ≡ Domain.checked (Domain.outline_refusal binary64 points.now) }
{
    if bad_outline(points) {
        return Err(BAD_OUTLINE_A);
    }
    if bad_parts(points) {
        return Err(BAD_PART);
    }
    Ok(())
}

// Two outlines and their radii: 1 to 4.
pub fn check_pair(
    points_a: &[f64],
    points_b: &[f64],
    radius_a: f64,
    radius_b: f64,
) -> Result<(), Refusal>
    ensures { result ≡ Domain.checked (Domain.pair_refusal binary64 points_a.now points_b.now radius_a radius_b) }
{
    if bad_outline(points_a) {
        return Err(BAD_OUTLINE_A);
    }
    if bad_outline(points_b) {
        return Err(BAD_OUTLINE_B);
    }
    let parts = bad_parts(points_a) | bad_parts(points_b);
    let radii = bad_radius(radius_a) | bad_radius(radius_b);
    if parts {
        return Err(BAD_PART);
    }
    if radii {
        return Err(BAD_RADIUS);
    }
    Ok(())
}

// A pose: 5, 6.
pub fn check_pose(p: Pose) -> Result<Pose, Refusal>
    ensures { result ≡ Domain.checked_pose (Domain.checked (Domain.pose_refusal binary64 p)) p }
{
    if bad_rotation(p.rotation) {
        return Err(BAD_ROTATION);
    }
    if bad_vector(p.translation) {
        return Err(BAD_CENTRE);
    }
    Ok(p)
}

// Two moves: 5, 6. All rotations come before all centres.
pub fn check_sweeps(a: Sweep, b: Sweep) -> Result<(), Refusal>
    ensures { result ≡ Domain.checked (Domain.sweeps_refusal binary64 a b) }
{
    let rotations = bad_rotation(a.q1)
        | bad_rotation(a.q2)
        | bad_rotation(b.q1)
        | bad_rotation(b.q2);
    let centres = bad_centres(a) | bad_centres(b);
    if rotations {
        return Err(BAD_ROTATION);
    }
    if centres {
        return Err(BAD_CENTRE);
    }
    Ok(())
}

// A max fraction from 0 to 1: 7.
pub fn check_fraction(t: f64) -> Result<(), Refusal>
    ensures { result ≡ Domain.checked (Domain.fraction_refusal binary64 t) }
{
    if (t >= 0.0) & (t <= 1.0) {
        Ok(())
    } else {
        Err(BAD_FRACTION)
    }
}

// A slop above 0 and at most 1,048,576: 8.
pub fn check_slop(x: f64) -> Result<(), Refusal>
    ensures { result ≡ Domain.checked (Domain.slop_refusal binary64 x) }
{
    if (x > 0.0) & (x <= 1048576.0) {
        Ok(())
    } else {
        Err(BAD_SLOP)
    }
}

// A cache that is not empty has the number of its pair: 12. Whether its entries name points is not asked here.
pub fn check_cache(pair: u32, cache: SimplexCache) -> Result<(), Refusal>
    ensures { result ≡ Domain.checked (Domain.cache_refusal pair cache) }
{
    if (cache.count > 0) & (cache.pair != pair) {
        Err(OTHER_PAIR)
    } else {
        Ok(())
    }
}

// The number of a refusal, 0 where the check passed.
pub fn refusal(checked: Result<(), Refusal>) -> u32
    ensures { result ≡ Domain.refusal checked }
{
    match checked {
        Ok(()) => 0,
        Err(refused) => refused.number,
    }
}

// The number of a pose's refusal, 0 where it passed.
pub fn pose_refusal(checked: Result<Pose, Refusal>) -> u32
    ensures { result ≡ Domain.refusal_of_pose checked }
{
    match checked {
        Ok(_) => 0,
        Err(refused) => refused.number,
    }
}
