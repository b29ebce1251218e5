// The least and the largest of a body's corners along an axis.
ghost use Rattle.std.specs.Prelude.{true, ◌≡◌, ◌+◌, ◌*◌, ◌≤◌, ◌<◌, length};
ghost use Rattle.board.specs.Pairs.{Sized};
ghost use Rattle.board.specs.Corners.{axis_size, Corners, Along, Most, Least, Bounded, Beyond};

use crate::pairs::inner;
use board::{Outline, Outlines, Pair, Vector};

// whether the lists hold corners at all
#[inline(always)]
pub fn are_corners(outline: Outline<'_>) -> bool
    ensures { result ≡ true → Corners outline.entry.xs.now outline.entry.ys.now }
{
    if outline.xs.len() != outline.ys.len() {
        return false;
    }
    for (i, x) in outline.xs.iter().enumerate() {
        if *x > 1073741824 || outline.ys[i] > 1073741824 {
            return false;
        }
    }
    true
}

pub fn along(w: Vector, x: u64, y: u64) -> u64
    requires { Sized axis_size w × (x ≤ 1073741824) × (y ≤ 1073741824) }
    ensures { Along w x y result }
{
    let place = Vector {
        x: Pair { p: x, m: 536870912 },
        y: Pair { p: y, m: 536870912 },
    };
    let d = inner(w, place, 1811939328, 1610612736);
    6917529027641081856 + d.p - d.m
}

pub fn most_along(w: Vector, outline: Outline<'_>) -> u64
    requires { Sized axis_size w × Corners outline.xs.now outline.ys.now }
    ensures { Most w outline.entry.xs.now outline.entry.ys.now (length outline.entry.xs.now) result }
{
    let mut best: u64 = 0;
    for (i, x) in outline.xs.iter().enumerate() {
        best = best.max(along(w, *x, outline.ys[i]));
    }
    best
}

// the largest the other way
pub fn least_along(w: Vector, outline: Outline<'_>) -> u64
    requires { Sized axis_size w × Corners outline.xs.now outline.ys.now }
    ensures { Least w outline.entry.xs.now outline.entry.ys.now result }
{
    let wx = w.x;
    let wy = w.y;
    let against = Vector {
        x: Pair { p: wx.m, m: wx.p },
        y: Pair { p: wy.m, m: wy.p },
    };
    let most = most_along(against, outline);
    13835058055282163712 - most
}

pub fn beyond(wa: Vector, wb: Vector, c: Pair, k: u64, on: Outlines<'_>) -> bool
    requires { Bounded wa wb c k on.a.xs.now on.a.ys.now on.b.xs.now on.b.ys.now }
    ensures { result ≡ true → Beyond wa wb c k on.entry.a.xs.now on.entry.a.ys.now on.entry.b.xs.now on.entry.b.ys.now }
{
    let most = most_along(wa, on.a);
    let least = least_along(wb, on.b);
    most + k + c.m < least + c.p
}
