// What the check of a piece looks at before it compares corners: the proposal's axes, each body's turn over the piece, and how far that turn may be off.
ghost use Rattle.std.specs.Prelude.{true, ◌≡◌, ◌+◌, ◌*◌, ◌≤◌, ◌<◌, IfSome};
ghost use Rattle.standing.specs.Form.{ArcSmall};
ghost use Rattle.standing.specs.Seen.{LengthsFit, AxisFits, BodyReady, ArcAt, Blurred, Reach, Turning, Seen};

use crate::arcs::{arc_of, heading};
use crate::pairs::{inner, mul};
use crate::turns::{arc_within, turn_gap};
use board::{Arc, GridBody, Pair, Proposal, Vector, both_within};

pub fn lengths_fit(p: Proposal) -> bool
    ensures { result ≡ true → LengthsFit p }
{
    p.a0 <= 4294967296 && p.a1 <= 4294967296 && p.b0 <= 4294967296 && p.b1 <= 4294967296
}

pub fn axis_fits(n: Vector) -> bool
    ensures { result ≡ true → AxisFits n }
{
    if !both_within(n, 268435456) {
        return false;
    }
    let d = inner(n, n, 268435456, 268435456);
    d.p <= d.m + 72057594037927936
}

pub fn arc_at(o: GridBody, l0: u64, l1: u64, k0: u64, k1: u64) -> Arc
    requires { BodyReady o l0 l1 k0 k1 }
    ensures { ArcAt o l0 l1 k0 k1 result }
{
    let x = heading(o.q1, o.q2, k0);
    let y = heading(o.q1, o.q2, k1);
    arc_of(l0, x, l1, y)
}

fn blur(l0: u64, l1: u64) -> u64
    requires { (l0 ≤ 4294967296) × (l1 ≤ 4294967296) }
    ensures { Blurred l0 l1 result }
{
    l0.max(l1) / 33554432 + 2
}

fn reach(big: u64, y: u64) -> u64
    requires { (big ≤ 1073741824) × (y < 134217728) }
    ensures { Reach big y result }
{
    let t = mul(
        Pair { p: big, m: 0 },
        Pair { p: y + 1, m: 0 },
        1073741824,
        134217728,
    );
    5 * t.p / 8589934592 + 1
}

// how far a turn that is not 0 anywhere may carry corners astray
#[inline(always)]
fn turning(a: Arc, l0: u64, l1: u64, big: u64) -> Option<u64>
    requires { ArcSmall a × (l0 ≤ 4294967296) × (l1 ≤ 4294967296) × (big ≤ 805306368) }
    ensures { IfSome result (λ e. Turning a l0 l1 big e) }
{
    if l0 == 0 || l1 == 0 {
        return None;
    }
    let y = turn_gap(a)?;
    if y >= 134216000 {
        return None;
    }
    let r = blur(l0, l1);
    Some(reach(big + 3, y + 10 * r))
}

// the same of every body: one that is not lengthened at all counts as a disc
pub fn margin_of(a: Arc, l0: u64, l1: u64, big: u64) -> Option<u64>
    requires { (l0 ≤ 4294967296) × (l1 ≤ 4294967296) × (big ≤ 805306368) }
    ensures { IfSome result (λ e. Seen a l0 l1 big e) }
{
    if !arc_within(a) {
        return None;
    }
    if l0 == 0 && l1 == 0 {
        return Some(big + 4);
    }
    turning(a, l0, l1, big)
}
