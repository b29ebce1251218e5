// Headings and turns: what a piece's check is given.
ghost use Rattle.std.specs.Prelude.{◌≡◌, ◌+◌, ◌*◌, ◌≤◌, ◌<◌};
ghost use Rattle.board.specs.Pairs.{size_of, Sized, Divided};
ghost use Rattle.integers.specs.Signed.{of_nat, ◌⊞◌, ◌⊠◌};
ghost use Rattle.board.specs.Pairs.{int_of};
ghost use Rattle.standing.specs.Cut.{Cut, Mid, MidVector, Stretched, Bounds, IsArc};

use crate::pairs::{add, mul};
use board::{Arc, Pair, Vector, norm};

fn down24(a: Pair) -> Pair
    ensures { Divided 16777216 a result }
{
    norm(Pair {
        p: a.p / 16777216,
        m: a.m / 16777216,
    })
}

fn down26(a: Pair) -> Pair
    ensures { Divided 67108864 a result }
{
    norm(Pair {
        p: a.p / 67108864,
        m: a.m / 67108864,
    })
}

fn mid(a: Pair, b: Pair, k: u64) -> Pair
    requires { (size_of a ≤ 1073741824) × (size_of b ≤ 1073741824) × (k ≤ 16777216) }
    ensures { Mid k a b result }
{
    let j = 16777216 - k;
    down24(add(
        mul(Pair { p: j, m: 0 }, a, j, 1073741824),
        mul(Pair { p: k, m: 0 }, b, k, 1073741824),
    ))
}

#[inline(always)]
pub fn heading(a: Vector, b: Vector, k: u64) -> Vector
    requires { Sized 1073741824 a × Sized 1073741824 b × (k ≤ 16777216) }
    ensures { MidVector k a b result }
{
    Vector {
        x: mid(a.x, b.x, k),
        y: mid(a.y, b.y, k),
    }
}

fn blend(k: u64, a: Pair, l: u64, b: Pair) -> Pair
    requires { (k ≤ 4294967296) × (l ≤ 4294967296) × (size_of a ≤ 1073741824) × (size_of b ≤ 1073741824) }
    ensures { Cut 67108864 (of_nat k ⊠ int_of a ⊞ of_nat l ⊠ int_of b) result }
{
    down26(add(
        mul(Pair { p: k, m: 0 }, a, 4294967296, 1073741824),
        mul(Pair { p: l, m: 0 }, b, 4294967296, 1073741824),
    ))
}

fn stretch(k: u64, a: Vector, l: u64, b: Vector) -> Vector
    requires { Bounds k l a b }
    ensures { Stretched k a l b result }
{
    Vector {
        x: blend(k, a.x, l, b.x),
        y: blend(k, a.y, l, b.y),
    }
}

pub fn arc_of(k: u64, a: Vector, l: u64, b: Vector) -> Arc
    requires { Bounds k l a b }
    ensures { IsArc k l a b result }
{
    Arc {
        p0: stretch(k, a, 0, a),
        t: stretch(k, b, l, a),
        p2: stretch(l, b, 0, b),
    }
}
