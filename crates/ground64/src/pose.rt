// Written by tests/written/wide.py from ground, in f64.
// Poses: on a point, and one in the frame of another.
ghost use Rattle.std.specs.Prelude.{◌≡◌};
ghost use Rattle.std.specs.Float.{binary64};
ghost use Rattle.model64.specs.Ground as Ground;

use crate::rotation::{inv_rotate_vec, rotate_vec};
use crate::vector::{add, sub};
use model64::{Pose, Rotation, Vector};

pub fn transform_point(p: Pose, v: Vector) -> Vector
    ensures { result ≡ Ground.on_point binary64 p v }
{
    add(rotate_vec(p.rotation, v), p.translation)
}

// The inverse of a, times b.
pub fn inv_mul(a: Pose, b: Pose) -> Pose
    ensures { result ≡ Ground.inverse_times binary64 a b }
{
    let rotation = Rotation {
        c: a.rotation.c * b.rotation.c + a.rotation.s * b.rotation.s,
        s: a.rotation.c * b.rotation.s - a.rotation.s * b.rotation.c,
    };
    let translation = inv_rotate_vec(a.rotation, sub(b.translation, a.translation));
    Pose {
        rotation,
        translation,
    }
}
