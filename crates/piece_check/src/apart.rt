// The four forms of a piece of a move.
ghost use Rattle.std.specs.Prelude.{true, ◌≡◌, ◌+◌, ◌*◌, ◌≤◌, ◌<◌};
ghost use Rattle.integers.specs.Signed.{◌⊞◌};
ghost use Rattle.plane.specs.Plane.{dot};
ghost use Rattle.board.specs.Pairs.{point_of, Sized, Is};
ghost use Rattle.standing.specs.Form.{seen, Leaned, Turns, Bounds, FormApart, FourBounds, AllAway};

use crate::corners::beyond;
use crate::pairs::{add, add_both, back, down30_both, inner};
use board::{Arc, Outlines, Pair, Vector};

// the axis that a body's corners are measured along, for one form
pub fn lean(m: Vector, n: Vector, c0: Vector, c1: Vector) -> Vector
    requires { Turns m n c0 c1 }
    ensures { Leaned (seen (point_of m) (point_of n) (point_of c0) (point_of c1)) result }
{
    let x = back(c0, m, 1207959552, 268435456);
    let y = back(c1, n, 2415919104, 268435456);
    down30_both(add_both(x, y, 648518346341351424, 1297036692682702848))
}

// what the centre adds to it
pub fn across(m: Vector, n: Vector, d0: Vector, d1: Vector) -> Pair
    requires { Sized 268435456 m × Sized 268435456 n × Sized 536870912 d0 × Sized 1073741824 d1 }
    ensures { Is (dot (point_of m) (point_of d0) ⊞ dot (point_of n) (point_of d1)) 864691128455135232 result }
{
    add(
        inner(m, d0, 268435456, 536870912),
        inner(n, d1, 268435456, 1073741824),
    )
}

// One form. Its vectors come one by one, as `Bounds` and `FormApart` name them: each form has all eight anew.
pub fn form_apart(
    m: Vector,
    n: Vector,
    a0: Vector,
    a1: Vector,
    b0: Vector,
    b1: Vector,
    d0: Vector,
    d1: Vector,
    k: u64,
    on: Outlines<'_>,
) -> bool
    requires { Bounds m n a0 a1 b0 b1 d0 d1 k on.a.xs.now on.a.ys.now on.b.xs.now on.b.ys.now }
    ensures { result ≡ true → FormApart (point_of m) (point_of n) (point_of a0) (point_of a1) (point_of b0) (point_of b1) (point_of d0) (point_of d1) k on.entry.a.xs.now on.entry.a.ys.now on.entry.b.xs.now on.entry.b.ys.now }
{
    let wa = lean(m, n, a0, a1);
    let wb = lean(m, n, b0, b1);
    let c = across(m, n, d0, d1);
    beyond(wa, wb, c, k, on)
}

// every corner of b beyond every corner of a, at every moment of the piece
#[inline(always)]
pub fn four_apart(
    n0: Vector,
    n1: Vector,
    a: Arc,
    b: Arc,
    d0: Vector,
    d2: Vector,
    k: u64,
    on: Outlines<'_>,
) -> bool
    requires { FourBounds n0 n1 a b d0 d2 k on.a.xs.now on.a.ys.now on.b.xs.now on.b.ys.now }
    ensures { result ≡ true → AllAway n0 n1 a b d0 d2 k on.entry.a.xs.now on.entry.a.ys.now on.entry.b.xs.now on.entry.b.ys.now }
{
    let none = Vector {
        x: Pair { p: 0, m: 0 },
        y: Pair { p: 0, m: 0 },
    };
    let x0 = d0.x;
    let y0 = d0.y;
    let x2 = d2.x;
    let y2 = d2.y;
    let d1 = Vector {
        x: Pair {
            p: x0.p + x2.p,
            m: x0.m + x2.m,
        },
        y: Pair {
            p: y0.p + y2.p,
            m: y0.m + y2.m,
        },
    };
    let triple = 3 * k;
    form_apart(n0, none, a.p0, none, b.p0, none, d0, none, k, on)
        && form_apart(n1, n0, a.p0, a.t, b.p0, b.t, d0, d1, triple, on)
        && form_apart(n0, n1, a.p2, a.t, b.p2, b.t, d2, d1, triple, on)
        && form_apart(n1, none, a.p2, none, b.p2, none, d2, none, k, on)
}
