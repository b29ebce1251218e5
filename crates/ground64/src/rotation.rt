// Written by tests/written/wide.py from ground, in f64.
// Rotations by cosine and sine.
ghost use Rattle.std.specs.Prelude.{◌≡◌};
ghost use Rattle.std.specs.Float.{binary64};
ghost use Rattle.model64.specs.Ground as Ground;
ghost use Rattle.model.specs.Root as Root;

use model64::{Rotation, Vector};
use root64::root;

pub fn rotate_vec(q: Rotation, v: Vector) -> Vector
    ensures { result ≡ Ground.rotate binary64 q v }
{
    Vector {
        x: q.c * v.x - q.s * v.y,
        y: q.s * v.x + q.c * v.y,
    }
}

pub fn inv_rotate_vec(q: Rotation, v: Vector) -> Vector
    ensures { result ≡ Ground.inverse_rotate binary64 q v }
{
    Vector {
        x: q.c * v.x + q.s * v.y,
        y: q.c * v.y - q.s * v.x,
    }
}

fn reciprocal_or_zero(m: f64) -> f64
    ensures { result ≡ Ground.reciprocal_or_zero binary64 m }
{
    if m > 0.0 { 1.0 / m } else { 0.0 }
}

// 1 over the root of m. Most turns have the length 1 throughout, and its root is itself.
fn reciprocal_of_root(m: f64) -> f64
    ensures { result ≡ Ground.reciprocal_or_zero binary64 (Root.root binary64 m) }
{
    if m == 1.0 {
        return 1.0;
    }
    reciprocal_or_zero(root(m))
}

// The parts mixed at t, over their length.
pub fn nlerp(q1: Rotation, q2: Rotation, t: f64) -> Rotation
    ensures { result ≡ Ground.nlerp binary64 q1 q2 t }
{
    let u = 1.0 - t;
    let c = u * q1.c + t * q2.c;
    let s = u * q1.s + t * q2.s;
    let k = reciprocal_of_root(s * s + c * c);
    Rotation { c: c * k, s: s * k }
}
