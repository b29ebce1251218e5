// Written by tests/written/wide.py from replay, in f64.
// Floats among an answer's words, by their patterns.
ghost use Rattle.std.specs.Prelude.{◌<◌};

use model64::Vector;
use replay_rows::{Words, put_long};

pub fn put_float(words: &mut Words, i: usize, x: f64) {
    put_long(words, i, ground64::to_bits(x));
}

pub fn put_vector(words: &mut Words, i: usize, v: Vector)
    requires { i < 40 }
{
    put_float(words, i, v.x);
    put_float(words, i + 1, v.y);
}
