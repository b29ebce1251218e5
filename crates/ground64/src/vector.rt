// Written by tests/written/wide.py from ground, in f64.
// Vectors of the plane, by value.
ghost use Rattle.std.specs.Prelude.{◌≡◌};
ghost use Rattle.std.specs.Float.{binary64};
ghost use Rattle.model64.specs.Ground as Ground;

use model64::Vector;
use root64::root;

pub fn add(a: Vector, b: Vector) -> Vector
    ensures { result ≡ Ground.plus binary64 a b }
{
    Vector {
        x: a.x + b.x,
        y: a.y + b.y,
    }
}

pub fn sub(a: Vector, b: Vector) -> Vector
    ensures { result ≡ Ground.minus binary64 a b }
{
    Vector {
        x: a.x - b.x,
        y: a.y - b.y,
    }
}

pub fn scale(a: Vector, k: f64) -> Vector
    ensures { result ≡ Ground.times binary64 a k }
{
    Vector {
        x: a.x * k,
        y: a.y * k,
    }
}

// Both parts with their signs flipped, zeros too.
pub fn neg(a: Vector) -> Vector
    ensures { result ≡ Ground.negate a }
{
    Vector { x: -a.x, y: -a.y }
}

pub fn dot(a: Vector, b: Vector) -> f64
    ensures { result ≡ Ground.dot binary64 a b }
{
    a.x * b.x + a.y * b.y
}

pub fn perp_dot(a: Vector, b: Vector) -> f64
    ensures { result ≡ Ground.perp_dot binary64 a b }
{
    a.x * b.y - a.y * b.x
}

pub fn length(a: Vector) -> f64
    ensures { result ≡ Ground.length binary64 a }
{
    root(dot(a, a))
}

pub fn distance(p: Vector, q: Vector) -> f64
    ensures { result ≡ Ground.distance binary64 p q }
{
    length(sub(p, q))
}

// The vector over its length, or (0, 0) where 1 / length is not finite or not above 0.
pub fn normalize_or_zero(a: Vector) -> Vector
    ensures { result ≡ Ground.normalise_or_zero binary64 a }
{
    let r = 1.0 / length(a);
    if (r > 0.0) & (r <= 1.7976931348623157e308) {
        scale(a, r)
    } else {
        Vector { x: 0.0, y: 0.0 }
    }
}

pub fn lerp(a: Vector, b: Vector, t: f64) -> Vector
    ensures { result ≡ Ground.lerp binary64 a b t }
{
    add(scale(a, 1.0 - t), scale(b, t))
}
