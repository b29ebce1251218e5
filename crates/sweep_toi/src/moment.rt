// A time of a sweep with the poses of both outlines at it, worked out once, and the distance call there.
ghost use Rattle.std.specs.Prelude.{◌≡◌, true};
ghost use Rattle.std.specs.Float.{binary32};
ghost use Rattle.model.specs.SweepToi as SweepToi;
ghost use Rattle.sweep_toi.specs.Rounds.{moment_at, closest_in};

use distance::proxy_distance::measure;
use ground::{add, inv_mul, rotate_vec, scale, sub, to_bits, transform_point};
use model::{Closest, Measurement, Pose, SimplexCache, SweepTask};
use separation::transform_at;

// The one number of a sweep's pair.
const PAIR: u32 = 0;

#[derive(Clone, Copy)]
pub struct Moment {
    pub t: f32,
    pub xf_a: Pose,
    pub xf_b: Pose,
}

pub fn at_time(task: SweepTask, t: f32) -> Moment
    ensures { result ≡ moment_at binary32 task t }
{
    let xf_a = transform_at(task.sweep_a, t);
    let xf_b = transform_at(task.sweep_b, t);
    Moment { t, xf_a, xf_b }
}

pub fn same_time(x: f32, y: f32) -> bool
    ensures { result ≡ true → x ≡ y }
{
    to_bits(x) == to_bits(y)
}

// What a distance call tells, put into the world by the pose of A: the normal, and the point midway between the two rounded outlines.
fn in_world(task: SweepTask, xf_a: Pose, measured: Measurement) -> Closest
    ensures { result ≡ SweepToi.closest_by binary32 task xf_a measured }
{
    let normal = rotate_vec(xf_a.rotation, measured.output.normal);
    let point_a = add(
        transform_point(xf_a, measured.output.point_a),
        scale(normal, task.radius_a),
    );
    let point_b = sub(
        transform_point(xf_a, measured.output.point_b),
        scale(normal, task.radius_b),
    );
    let point = add(scale(add(point_a, point_b), 0.5), task.origin);
    let cache = measured.cache;
    Closest {
        distance: measured.output.distance,
        point,
        normal,
        cache,
    }
}

// The distance call at a moment.
pub fn closest_at(
    task: SweepTask,
    points_a: &[f32],
    points_b: &[f32],
    at: Moment,
    cache: SimplexCache,
) -> Closest
    ensures { result ≡ closest_in binary32 task points_a.now points_b.now at cache }
{
    let pos12 = inv_mul(at.xf_a, at.xf_b);
    let measured = measure(
        pos12,
        points_a,
        task.radius_a,
        points_b,
        task.radius_b,
        false,
        PAIR,
        cache,
    );
    in_world(task, at.xf_a, measured)
}
