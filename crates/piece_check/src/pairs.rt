// Signed whole numbers as pairs of u64. Where a product is taken, the caller says how large the factors are at most: sa and sb are used by the
// contract alone.
ghost use Rattle.std.specs.Prelude.{◌≡◌, ◌+◌, ◌*◌, ◌≤◌, ◌<◌};
ghost use Rattle.integers.specs.Signed.{◌⊞◌, neg, ◌⊠◌};
ghost use Rattle.plane.specs.Plane.{dot, sum, turned_back};
ghost use Rattle.board.specs.Pairs.{limit, int_of, size_of, point_of, Sized, Factors, VectorFactors, Is, IsPoint, Divided, DividedPoint};

use board::{Pair, Vector, norm};

pub fn mul(a: Pair, b: Pair, sa: u64, sb: u64) -> Pair
    requires { Factors 1 a b sa sb }
    ensures { Is (int_of a ⊠ int_of b) (sa * sb) result }
{
    Pair {
        p: a.p * b.p + a.m * b.m,
        m: a.p * b.m + a.m * b.p,
    }
}

pub fn add(a: Pair, b: Pair) -> Pair
    requires { size_of a + size_of b < limit }
    ensures { Is (int_of a ⊞ int_of b) (size_of a + size_of b) result }
{
    Pair {
        p: a.p + b.p,
        m: a.m + b.m,
    }
}

pub fn minus(a: Pair) -> Pair
    ensures { Is (neg (int_of a)) (size_of a) result }
{
    Pair { p: a.m, m: a.p }
}

// a / 2^30
pub fn down30(a: Pair) -> Pair
    ensures { Divided 1073741824 a result }
{
    norm(Pair {
        p: a.p / 1073741824,
        m: a.m / 1073741824,
    })
}

pub fn down30_both(a: Vector) -> Vector
    ensures { DividedPoint 1073741824 a result }
{
    Vector {
        x: down30(a.x),
        y: down30(a.y),
    }
}

pub fn add_both(a: Vector, b: Vector, sa: u64, sb: u64) -> Vector
    requires { Sized sa a × Sized sb b × (sa + sb < limit) }
    ensures { IsPoint (sum (point_of a) (point_of b)) (sa + sb) result }
{
    Vector {
        x: add(a.x, b.x),
        y: add(a.y, b.y),
    }
}

pub fn inner(a: Vector, b: Vector, sa: u64, sb: u64) -> Pair
    requires { VectorFactors 2 a b sa sb }
    ensures { Is (dot (point_of a) (point_of b)) (2 * (sa * sb)) result }
{
    add(mul(a.x, b.x, sa, sb), mul(a.y, b.y, sa, sb))
}

// n as a body turned by q sees it
pub fn back(q: Vector, n: Vector, sq: u64, sn: u64) -> Vector
    requires { VectorFactors 2 q n sq sn }
    ensures { IsPoint (turned_back (point_of q).x (point_of q).y (point_of n)) (2 * (sq * sn)) result }
{
    let x = add(mul(q.x, n.x, sq, sn), mul(q.y, n.y, sq, sn));
    let y = add(mul(q.x, n.y, sq, sn), minus(mul(q.y, n.x, sq, sn)));
    Vector { x: x, y: y }
}
