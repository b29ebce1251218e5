// A place on the way, counted in 2^24-ths, as the f32 that it is: k / 2^24, by its pattern. No such quotient is rounded.
#![tactic(auto)]

ghost use Rattle.std.specs.Prelude.{◌≡◌, ◌<◌};
ghost use Rattle.places.specs.Place.{pattern_from, place_bits};

// A significand below 2^24 doubled until it has 24 digits, 23 times at most.
fn pattern(k: u32) -> u32
    requires { k < 16777216 }
    ensures { result ≡ pattern_from 23 k }
{
    let mut m = k;
    for doubled in 0..23 {
        let left = 23 - doubled;
        if m >= 8388608 {
            return (102 + left) * 8388608 + m;
        }
        m = 2 * m;
    }
    102 * 8388608 + m
}

// The pattern of k / 2^24; a place behind the end counts as the end.
pub fn place_bits(k: u64) -> u32
    ensures { result ≡ place_bits k }
{
    if k == 0 {
        return 0;
    }
    if k < 16777216 {
        return pattern(k as u32);
    }
    1065353216
}
