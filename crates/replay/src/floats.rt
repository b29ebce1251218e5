// Floats among an answer's words, by their patterns.
ghost use Rattle.std.specs.Prelude.{◌<◌};

use model::Vector;
use replay_rows::{Words, put_long};

pub fn put_float(words: &mut Words, i: usize, x: f32) {
    put_long(words, i, ground::to_bits(x) as u64);
}

pub fn put_vector(words: &mut Words, i: usize, v: Vector)
    requires { i < 40 }
{
    put_float(words, i, v.x);
    put_float(words, i + 1, v.y);
}
