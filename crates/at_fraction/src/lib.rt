// One moment of planned moves: the pose of a body there, and how far apart two outlines are.
#![tactic(auto)]

ghost use Rattle.std.specs.Prelude.{◌≡◌};
ghost use Rattle.std.specs.Float.{binary32};
ghost use Rattle.at_fraction.specs.Moment as Moment;

use distance::proxy_distance::measure;
use domain::{check_fraction, check_pair, check_sweeps, refusal};
use ground::inv_mul;
use model::{Pose, Refusal, SimplexCache, Sweep};
use separation::{shifted, transform_at};

// The number that a sweep has for its pair.
const SWEEP_PAIR: u32 = 0;

// The pose of a move at fraction t: 5 and 6 for the move, 7 for the fraction.
pub fn pose_at(planned: Sweep, t: f32) -> Result<Pose, Refusal>
    ensures { result ≡ Moment.pose_at binary32 planned t }
{
    check_sweeps(planned, planned)?;
    check_fraction(t)?;
    Ok(transform_at(planned, t))
}

// The distance at time t as a sweep works it: seen from the first centre of A, poses not checked again, no radii, and no corners known.
pub fn gap(points_a: &[f32], sweep_a: Sweep, points_b: &[f32], sweep_b: Sweep, t: f32) -> f32
    ensures { result ≡ Moment.gap binary32 points_a.now sweep_a points_b.now sweep_b t }
{
    let origin = sweep_a.c1;
    let xf_a = transform_at(shifted(sweep_a, origin), t);
    let xf_b = transform_at(shifted(sweep_b, origin), t);
    let cache = SimplexCache {
        pair: SWEEP_PAIR,
        count: 0,
        index_a: [0; 3],
        index_b: [0; 3],
    };
    let measured = measure(
        inv_mul(xf_a, xf_b),
        points_a,
        0.0,
        points_b,
        0.0,
        false,
        SWEEP_PAIR,
        cache,
    );
    measured.output.distance
}

// How far apart, without radii, two outlines are at fraction t of their moves: 1 to 3 for the outlines, 5 and 6 for the moves, 7 for the fraction.
pub fn gap_at(
    points_a: &[f32],
    sweep_a: Sweep,
    points_b: &[f32],
    sweep_b: Sweep,
    t: f32,
) -> Result<f32, Refusal>
    ensures { result ≡ Moment.gap_at binary32 points_a.now sweep_a points_b.now sweep_b t }
{
    let pair = check_pair(points_a, points_b, 0.0, 0.0);
    let Ok(()) = pair else {
        let number = refusal(pair);
        return Err(Refusal { number });
    };
    check_sweeps(sweep_a, sweep_b)?;
    check_fraction(t)?;
    Ok(gap(points_a, sweep_a, points_b, sweep_b, t))
}
