// How far the squared length of a turn is off over a piece, in 2^30-ths, where anything is known.
ghost use Rattle.std.specs.Prelude.{true, ◌≡◌, ◌+◌, ◌*◌, ◌≤◌, ◌<◌, IfSome};
ghost use Rattle.integers.specs.Signed.{◌⊞◌};
ghost use Rattle.plane.specs.Plane.{dot};
ghost use Rattle.board.specs.Pairs.{int_of, point_of, Sized};
ghost use Rattle.standing.specs.Form.{ArcSmall};
ghost use Rattle.standing.specs.Window.{Off, Gap, Steady};

use crate::pairs::{add, inner};
use board::{Arc, Pair, Vector, both_within};

pub fn arc_within(a: Arc) -> bool
    ensures { result ≡ true → ArcSmall a }
{
    both_within(a.p0, 1207959552) && both_within(a.t, 2415919104) && both_within(a.p2, 1207959552)
}

fn gap(c: Pair, mid: u64) -> Option<u64>
    ensures { IfSome result (λ g. Gap mid (int_of c) g) }
{
    Some(c.p.checked_sub(c.m)?.abs_diff(mid))
}

// of a control vector with itself
#[inline(always)]
fn off_end(p: Vector) -> Option<u64>
    requires { Sized 1207959552 p }
    ensures { IfSome result (λ y. Off 1152921504606846976 1073741824 (dot (point_of p) (point_of p)) y) }
{
    let d = inner(p, p, 1207959552, 1207959552);
    Some(gap(d, 1152921504606846976)? / 1073741824 + 1)
}

#[inline(always)]
fn off_side(p: Vector, t: Vector) -> Option<u64>
    requires { Sized 1207959552 p × Sized 2415919104 t }
    ensures { IfSome result (λ y. Off 2305843009213693952 2147483648 (dot (point_of p) (point_of t)) y) }
{
    let d = inner(p, t, 1207959552, 2415919104);
    Some(gap(d, 2305843009213693952)? / 2147483648 + 1)
}

fn off_middle(a: Arc) -> Option<u64>
    requires { ArcSmall a }
    ensures { IfSome result (λ y. Off 6917529027641081856 6442450944 (dot (point_of a.t) (point_of a.t) ⊞ (dot (point_of a.p0) (point_of a.p2) ⊞ dot (point_of a.p0) (point_of a.p2))) y) }
{
    let d = inner(a.t, a.t, 2415919104, 2415919104);
    let e = inner(a.p0, a.p2, 1207959552, 1207959552);
    Some(gap(add(d, add(e, e)), 6917529027641081856)? / 6442450944 + 1)
}

#[inline(always)]
pub fn turn_gap(a: Arc) -> Option<u64>
    requires { ArcSmall a }
    ensures { IfSome result (λ y. y < 1073741824 → Steady a y) }
{
    let y0 = off_end(a.p0)?;
    let y1 = off_side(a.p0, a.t)?;
    let y2 = off_middle(a)?;
    let y3 = off_side(a.p2, a.t)?;
    let y4 = off_end(a.p2)?;
    Some(y0.max(y1).max(y2).max(y3).max(y4))
}
