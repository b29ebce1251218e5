// The square root of every f32, by whole numbers: the significand scaled to 47 or 48 binary digits under an even exponent, its root cut to a
// whole number from a stored guess, and one more where the remainder is past the half way mark.
#![tactic(auto)]

ghost use Rattle.std.specs.Prelude.{◌≡◌, ◌+◌, ◌*◌, ◌/◌, ◌^◌, ◌≤◌, ◌<◌};
ghost use Rattle.std.specs.Float.{binary32};
ghost use Rattle.std.specs.Float.Ieee.{of_bits};
ghost use Rattle.model.specs.Root as Root;
ghost use Rattle.model.proofs.Root.Floor.{near_root};
ghost use Rattle.model.specs.Nearest.{Rooted};

// The whole part of a / d.
fn quotient(a: u64, d: u64) -> u64
    requires { (a < 2 ^ 63 + 2 ^ 62) × (0 < d) × (d < 2 ^ 62) }
    ensures { result ≡ a / d }
{
    a / d
}

// The whole number nearest to the root of n, which is never half way between two. The stored guess, corrected once by Halley's rule, is the root
// cut to a whole number or one less.
fn near(n: u64) -> u64
    requires { (2 ^ 46 ≤ n) × (n < 2 ^ 48) }
    ensures { result ≡ near_root n }
{
    let g = root_guess::guess(n / 274877906944) as u64;
    let square = g * g;
    let s = g + quotient(2 * g * (n - square), 3 * square + n);
    if s < n - s * s { s + 1 } else { s }
}

// The pattern of the root of m * 2^p, in units of the smallest value squared: m has 24 digits.
fn scaled(m: u64, p: u64) -> u64
    requires { (8388608 ≤ m) × (m < 16777216) × (126 ≤ p) × (p ≤ 402) }
    ensures { (result < 2139095040) × (of_bits binary32 result ≡ Root.root_units binary32 (m * 2 ^ p)) }
{
    (p - 23) / 2 * 8388608 + near((m * 16777216) >> (p % 2))
}

// A value in units of the smallest value squared: m * 2^p, m of 24 digits.
#[derive(Clone, Copy)]
struct Units {
    m: u64,
    p: u64,
}

// The value above zero whose pattern is b.
fn units_of(b: u64) -> Units
    requires { (0 < b) × (b < 2139095040) }
    ensures { (8388608 ≤ result.m) × (result.m < 16777216) × (126 ≤ result.p) × (result.p ≤ 402)
        × (Root.root_units binary32 (result.m * 2 ^ result.p) ≡ Root.root binary32 (of_bits binary32 b)) }
{
    let e = b / 8388608;
    if e == 0 {
        let z = (u64::leading_zeros(b) as u64) - 40;
        Units {
            m: b << z,
            p: 149 - z,
        }
    } else {
        Units {
            m: 8388608 + b % 8388608,
            p: 148 + e,
        }
    }
}

// The pattern of its root.
fn pattern(b: u64) -> u64
    requires { (0 < b) × (b < 2139095040) }
    ensures { (result < 2139095040) × (of_bits binary32 result ≡ Root.root binary32 (of_bits binary32 b)) }
{
    let v = units_of(b);
    scaled(v.m, v.p)
}

// The root: of 0, -0, infinity and NaN itself, and NaN of any number below 0.
pub fn root(x: f32) -> f32
    ensures { Rooted binary32 x result }
{
    if x != x {
        return x;
    }
    let b: u32 = f32::to_bits(x);
    if b == 0 {
        return x;
    }
    if b < 0x7f80_0000 {
        return f32::from_bits(pattern(b as u64) as u32);
    }
    if b <= 0x8000_0000 {
        return x;
    }
    0.0 / 0.0
}
