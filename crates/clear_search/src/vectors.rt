// Whole numbers as floats and back, and vectors of floats.
ghost use Rattle.std.specs.Prelude.{◌≡◌, length};

use board::{Pair, Vector};

// A vector of the plane.
#[derive(Clone, Copy)]
pub struct Place {
    pub x: f64,
    pub y: f64,
}

pub fn dot(a: Place, b: Place) -> f64 {
    a.x * b.x + a.y * b.y
}

pub fn perp(a: Place, b: Place) -> f64 {
    a.x * b.y - a.y * b.x
}

pub fn scaled(k: f64, a: Place) -> Place {
    Place {
        x: k * a.x,
        y: k * a.y,
    }
}

pub fn sum(a: Place, b: Place) -> Place {
    Place {
        x: a.x + b.x,
        y: a.y + b.y,
    }
}

pub fn difference(a: Place, b: Place) -> Place {
    Place {
        x: a.x - b.x,
        y: a.y - b.y,
    }
}

// v turned by q.
pub fn turned(q: Place, v: Place) -> Place {
    Place {
        x: q.x * v.x - q.y * v.y,
        y: q.y * v.x + q.x * v.y,
    }
}

// n as a body turned by q sees it.
pub fn turned_back(q: Place, n: Place) -> Place {
    Place {
        x: q.x * n.x + q.y * n.y,
        y: q.x * n.y - q.y * n.x,
    }
}

// The whole part; 0 for what is not above -1 or has no place in 64 bits.
pub fn whole(x: f64) -> u64 {
    if -1.0 < x && x < 18446744073709551616.0 {
        std::num::truncating_f64_to_u64(x)
    } else {
        0
    }
}

fn number(a: Pair) -> f64 {
    std::num::nearest_u64_to_f64(a.p) - std::num::nearest_u64_to_f64(a.m)
}

pub fn place_of(a: Vector) -> Place {
    Place {
        x: number(a.x),
        y: number(a.y),
    }
}

pub fn whole_vector(a: Place) -> Vector {
    Vector {
        x: Pair {
            p: whole(a.x),
            m: whole(-a.x),
        },
        y: Pair {
            p: whole(a.y),
            m: whole(-a.y),
        },
    }
}

// One by the root of x, to some 13 digits; 0 where x is not a number above 0 that has such a root. The pattern's half, taken off a constant, is a
// first guess, which four corrections by Newton's rule make good.
pub fn inverse_root(x: f64) -> f64 {
    if x < 0.000000001 {
        return 0.0;
    }
    let half = ground64::to_bits(x) / 2;
    if half > 0x3ff0_0000_0000_0000 {
        return 0.0;
    }
    let guess = ground64::from_bits(0x5fe6_eb50_c7b5_37a9 - half);
    corrected(x, corrected(x, corrected(x, corrected(x, guess))))
}

fn corrected(x: f64, y: f64) -> f64 {
    y * (1.5 - 0.5 * x * y * y)
}

// The parts of up to 64 corners, each of which stands in its list 2^29 above itself; 0 where there is none.
pub fn floats(list: &[u64]) -> [f64; 64]
    ensures { length result ≡ 64 }
{
    let mut out = [0.0f64; 64];
    for (part, raised) in out.iter_mut().zip(list) {
        *part = std::num::nearest_u64_to_f64(*raised) - 536870912.0;
    }
    out
}
