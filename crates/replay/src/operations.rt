// Table 1: the ground operations by their numbers. A row has 16 words: the operation, eight inputs, and up to four answers from word 9 on.
ghost use Rattle.std.specs.Prelude.{◌≤◌};

use crate::floats::{put_float, put_vector};
use model::{Pose, Rotation, Vector};
use replay_rows::Words;

// Input i, and the vectors, rotations and poses that start there.
fn input(row: &[u8], i: usize) -> f32
    requires { i ≤ 8 }
{
    ground::from_bits(wire::word(row, 4 + 4 * i))
}

fn vector(row: &[u8], i: usize) -> Vector
    requires { i ≤ 6 }
{
    Vector {
        x: input(row, i),
        y: input(row, i + 1),
    }
}

fn rotation(row: &[u8], i: usize) -> Rotation
    requires { i ≤ 6 }
{
    Rotation {
        c: input(row, i),
        s: input(row, i + 1),
    }
}

fn pose(row: &[u8], i: usize) -> Pose
    requires { i ≤ 4 }
{
    let rotation = rotation(row, i);
    let translation = vector(row, i + 2);
    Pose {
        rotation,
        translation,
    }
}

fn put_rotation(words: &mut Words, q: Rotation) {
    put_vector(words, 0, Vector { x: q.c, y: q.s });
}

fn put_pose(words: &mut Words, p: Pose) {
    put_rotation(words, p.rotation);
    put_vector(words, 2, p.translation);
}

// An operation of one float.
fn number(op: u32, row: &[u8]) -> f32 {
    let u = vector(row, 0);
    let v = vector(row, 2);
    match op {
        1 => ground::dot(u, v),
        2 => ground::perp_dot(u, v),
        3 => ground::length(u),
        4 => ground::distance(u, v),
        13 => ground::max(u.x, u.y),
        14 => ground::abs(u.x),
        15 => root::root(u.x),
        _ => u.x,
    }
}

pub fn answer(row: &[u8], words: &mut Words) {
    let u = vector(row, 0);
    let v = vector(row, 2);
    let op = wire::word(row, 0);
    match op {
        5 => put_vector(words, 0, ground::normalize_or_zero(u)),
        6 => put_vector(words, 0, ground::lerp(u, v, input(row, 4))),
        7 => put_vector(words, 0, ground::rotate_vec(rotation(row, 0), v)),
        8 => put_vector(words, 0, ground::inv_rotate_vec(rotation(row, 0), v)),
        9 => put_rotation(
            words,
            ground::nlerp(rotation(row, 0), rotation(row, 2), input(row, 4)),
        ),
        10 => put_vector(
            words,
            0,
            ground::transform_point(pose(row, 0), vector(row, 4)),
        ),
        11 => put_pose(words, ground::inv_mul(pose(row, 0), pose(row, 4))),
        12 => put_vector(words, 0, ground::neg(u)),
        16 => put_vector(words, 0, ground::add(u, v)),
        17 => put_vector(words, 0, ground::sub(u, v)),
        18 => put_vector(words, 0, ground::scale(u, input(row, 2))),
        _ => put_float(words, 0, number(op, row)),
    }
}
