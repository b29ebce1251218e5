// Written by tests/written/wide.py from replay, in f64.
// Table 1: the ground operations by their numbers. A row has 16 words: the operation, eight inputs, and up to four answers from word 9 on.
ghost use Rattle.std.specs.Prelude.{◌≤◌};

use crate::floats::{put_float, put_vector};
use model64::{Pose, Rotation, Vector};
use replay_rows::Words;

// Input i, and the vectors, rotations and poses that start there.
fn input(row: &[u8], i: usize) -> f64
    requires { i ≤ 8 }
{
    ground64::from_bits(replay_rows::long(row, 8 + 8 * i))
}

fn vector(row: &[u8], i: usize) -> Vector
    requires { i ≤ 6 }
{
    Vector {
        x: input(row, i),
        y: input(row, i + 1),
    }
}

fn rotation(row: &[u8], i: usize) -> Rotation
    requires { i ≤ 6 }
{
    Rotation {
        c: input(row, i),
        s: input(row, i + 1),
    }
}

fn pose(row: &[u8], i: usize) -> Pose
    requires { i ≤ 4 }
{
    let rotation = rotation(row, i);
    let translation = vector(row, i + 2);
    Pose {
        rotation,
        translation,
    }
}

fn put_rotation(words: &mut Words, q: Rotation) {
    put_vector(words, 0, Vector { x: q.c, y: q.s });
}

fn put_pose(words: &mut Words, p: Pose) {
    put_rotation(words, p.rotation);
    put_vector(words, 2, p.translation);
}

// An operation of one float.
fn number(op: u32, row: &[u8]) -> f64 {
    let u = vector(row, 0);
    let v = vector(row, 2);
    match op {
        1 => ground64::dot(u, v),
        2 => ground64::perp_dot(u, v),
        3 => ground64::length(u),
        4 => ground64::distance(u, v),
        13 => ground64::max(u.x, u.y),
        14 => ground64::abs(u.x),
        15 => root64::root(u.x),
        _ => u.x,
    }
}

pub fn answer(row: &[u8], words: &mut Words) {
    let u = vector(row, 0);
    let v = vector(row, 2);
    let op = wire::word(row, 0);
    match op {
        5 => put_vector(words, 0, ground64::normalize_or_zero(u)),
        6 => put_vector(words, 0, ground64::lerp(u, v, input(row, 4))),
        7 => put_vector(words, 0, ground64::rotate_vec(rotation(row, 0), v)),
        8 => put_vector(words, 0, ground64::inv_rotate_vec(rotation(row, 0), v)),
        9 => put_rotation(
            words,
            ground64::nlerp(rotation(row, 0), rotation(row, 2), input(row, 4)),
        ),
        10 => put_vector(
            words,
            0,
            ground64::transform_point(pose(row, 0), vector(row, 4)),
        ),
        11 => put_pose(words, ground64::inv_mul(pose(row, 0), pose(row, 4))),
        12 => put_vector(words, 0, ground64::neg(u)),
        16 => put_vector(words, 0, ground64::add(u, v)),
        17 => put_vector(words, 0, ground64::sub(u, v)),
        18 => put_vector(words, 0, ground64::scale(u, input(row, 2))),
        _ => put_float(words, 0, number(op, row)),
    }
}
