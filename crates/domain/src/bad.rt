// What is out of the domain, part by part. A NaN always is.
ghost use Rattle.std.specs.Prelude.{◌≡◌};
ghost use Rattle.std.specs.Float.{binary32};
ghost use Rattle.model.specs.Domain as Domain;

use ground::abs;
use model::{Rotation, Sweep, Vector};

// Whether a list is empty, of odd length, or of more than 64 points.
pub fn bad_outline(points: &[f32]) -> bool
    ensures { result ≡ Domain.bad_outline points.now }
{
    (points.len() == 0) | (points.len() % 2 == 1) | (points.len() > 128)
}

// Whether a part is not finite, or above 1,048,576 in size.
fn bad_part(x: f32) -> bool
    ensures { result ≡ Domain.bad_part binary32 x }
{
    !((x >= -1048576.0) & (x <= 1048576.0))
}

// Whether a list has such a part. All are looked at, so that several are looked at as one.
pub fn bad_parts(points: &[f32]) -> bool
    ensures { result ≡ Domain.bad_parts binary32 points.now }
{
    let mut bad = false;
    for x in points {
        bad = bad | bad_part(*x);
    }
    bad
}

// Whether a vector has such a part.
pub fn bad_vector(v: Vector) -> bool
    ensures { result ≡ Domain.bad_vector binary32 v }
{
    bad_part(v.x) | bad_part(v.y)
}

// Whether a move has such a centre.
pub fn bad_centres(w: Sweep) -> bool
    ensures { result ≡ Domain.bad_centres binary32 w }
{
    bad_vector(w.local_center) | bad_vector(w.c1) | bad_vector(w.c2)
}

// Whether a radius is below 0, not finite, or above 1,048,576.
pub fn bad_radius(radius: f32) -> bool
    ensures { result ≡ Domain.bad_radius binary32 radius }
{
    !((radius >= 0.0) & (radius <= 1048576.0))
}

// Whether a rotation has a part above 1 in size, or a length too far from 1.
pub fn bad_rotation(q: Rotation) -> bool
    ensures { result ≡ Domain.bad_rotation binary32 q }
{
    let squared = q.c * q.c + q.s * q.s;
    !((abs(q.c) <= 1.0) & (abs(q.s) <= 1.0) & (squared >= 0.984375) & (squared <= 1.015625))
}
