// A block's float, which is f32's, as a number of f64: one test tells whether it is a NaN, and all NaNs are one.
ghost use Rattle.std.specs.Prelude.{◌≡◌};
ghost use Rattle.std.specs.Float.{binary32};
ghost use Rattle.std.specs.Float.Ieee.{of_bits};

pub fn taken_over(bits: u32) -> f64
    ensures { result ≡ of_bits binary32 bits }
{
    let magnitude = bits % 0x8000_0000;
    if magnitude > 0x7f80_0000 {
        0.0 / 0.0
    } else {
        f32::from_bits(bits) as f64
    }
}
