// Written by tests/written/wide.py from ground, in f64.
// The greater of two numbers, and the absolute value: not f64's own, since the definitions say which bits come of NaNs and of two zeros.
ghost use Rattle.std.specs.Prelude.{◌≡◌};
ghost use Rattle.model64.specs.Ground as Ground;

// y where x is below it or not a number, else x.
pub fn max(x: f64, y: f64) -> f64
    ensures { result ≡ Ground.max x y }
{
    if x < y {
        return y;
    }
    if x != x { y } else { x }
}

// x with its sign bit cleared.
pub fn abs(x: f64) -> f64
    ensures { result ≡ Ground.abs x }
{
    if x != x {
        return x;
    }
    f64::from_bits(f64::to_bits(x) % 0x8000_0000_0000_0000)
}
