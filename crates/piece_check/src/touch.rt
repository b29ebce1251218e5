// The check of a touch: weights on three corners of each outline, and what lengthens the headings, are proposed; yes means that the two points come within
// the distance to keep, for every turn in the window. It asks nothing of what is proposed.
ghost use Rattle.std.specs.Prelude.{true, ◌≡◌, ◌+◌, ◌*◌, ◌≤◌, ◌<◌, length, IfSome};
ghost use Rattle.board.specs.Pairs.{size_of, point_of, int_of, Sized};
ghost use Rattle.integers.specs.Signed.{of_nat, ◌⊞◌, ◌⊠◌};
ghost use Rattle.plane.specs.Plane.{dot};
ghost use Rattle.board.specs.Corners.{Corners};
ghost use Rattle.board.specs.Board.{Fits, BodyFits};
ghost use Rattle.holding.specs.Grip.{Names, WeightedPart, Weighted, TurnedDown, Blur, Apart, Reached, Loose, Ready, HeldAt, Close, Decided, TouchesAt};

use crate::arcs::heading;
use crate::fits::job_fits;
use crate::margins::{arc_at, margin_of};
use crate::pairs::{add, down30, inner, minus, mul};
use board::{GridBody, GridJob, Grip, Hold, Outline, Outlines, Pair, Vector, norm};

// A grip's part on one body: three corners, their weights, and what lengthens the heading.
#[derive(Clone, Copy)]
struct Side {
    i0: usize,
    i1: usize,
    i2: usize,
    w0: u64,
    w1: u64,
    w2: u64,
    l: u64,
}

// Whether the grip names corners, and its weights come to 2^28.
fn names(g: Grip, na: usize, nb: usize) -> bool
    ensures { result ≡ true → Names g na nb }
{
    g.w0 <= 268435456
        && g.w1 <= 268435456 - g.w0
        && g.w2 == 268435456 - g.w0 - g.w1
        && g.i0 < na
        && g.i1 < na
        && g.i2 < na
        && g.j0 < nb
        && g.j1 < nb
        && g.j2 < nb
}

fn share(w: u64, x: u64) -> u64
    requires { (w ≤ 268435456) × (x ≤ 1073741824) }
    ensures { (result ≡ w * x) × (result ≤ 1073741824 * w) }
{
    w * x
}

// A weighted sum of three parts, which stand 2^29 above themselves, by 2^28.
fn weighted_part(x0: u64, x1: u64, x2: u64, w0: u64, w1: u64, w2: u64) -> Pair
    requires { (x0 ≤ 1073741824) × (x1 ≤ 1073741824) × (x2 ≤ 1073741824) × (w0 + w1 + w2 ≡ 268435456) }
    ensures { WeightedPart x0 x1 x2 w0 w1 w2 result }
{
    let all = share(w0, x0) + share(w1, x1) + share(w2, x2);
    let q = all / 268435456;
    if q < 536870912 {
        Pair {
            p: 0,
            m: 536870912 - q,
        }
    } else {
        Pair {
            p: q - 536870912,
            m: 0,
        }
    }
}

fn weighted(outline: Outline<'_>, s: Side) -> Vector
    requires { Corners outline.xs.now outline.ys.now × (s.i0 < length outline.xs.now) × (s.i1 < length outline.xs.now) × (s.i2 < length outline.xs.now) × (s.w0 + s.w1 + s.w2 ≡ 268435456) }
    ensures { Weighted outline.entry.xs.now outline.entry.ys.now s.i0 s.i1 s.i2 s.w0 s.w1 s.w2 result }
{
    let xs = outline.xs;
    let ys = outline.ys;
    Vector {
        x: weighted_part(xs[s.i0], xs[s.i1], xs[s.i2], s.w0, s.w1, s.w2),
        y: weighted_part(ys[s.i0], ys[s.i1], ys[s.i2], s.w0, s.w1, s.w2),
    }
}

// v turned by q, which is in 2^30-ths.
fn turned_down(q: Vector, v: Vector) -> Vector
    requires { Sized 1207959552 q × Sized 536870912 v }
    ensures { TurnedDown q v result }
{
    let xx = mul(q.x, v.x, 1207959552, 536870912);
    let yy = mul(q.y, v.y, 1207959552, 536870912);
    let yx = mul(q.y, v.x, 1207959552, 536870912);
    let xy = mul(q.x, v.y, 1207959552, 536870912);
    Vector {
        x: down30(add(xx, minus(yy))),
        y: down30(add(yx, xy)),
    }
}

// How many units each part of a heading's turn is off by.
fn blur(l: u64) -> u64
    requires { l ≤ 4294967296 }
    ensures { Blur l result }
{
    l / 33554432 + 2
}

// a + b - c
fn apart(a: Pair, b: Pair, c: Pair) -> Pair
    requires { (size_of a ≤ 1207959552) × (size_of b ≤ 1073741824) × (size_of c ≤ 1207959552) }
    ensures { Apart a b c result }
{
    norm(add(add(a, b), minus(c)))
}

fn way_between(a: Vector, d: Vector, b: Vector) -> Vector
    requires { Sized 1207959552 a × Sized 1073741824 d × Sized 1207959552 b }
    ensures { Apart b.x d.x a.x result.x × Apart b.y d.y a.y result.y }
{
    Vector {
        x: apart(b.x, d.x, a.x),
        y: apart(b.y, d.y, a.y),
    }
}

// Whether a vector is at most so long.
fn reached(x: Vector, room: u64) -> bool
    requires { Sized 4294967296 x × (room ≤ 1073741824) }
    ensures { result ≡ true → Reached x room }
{
    if x.x.p + x.x.m > 1073741824 || x.y.p + x.y.m > 1073741824 {
        return false;
    }
    let d = inner(x, x, 1073741824, 1073741824);
    let side = Pair { p: room, m: 0 };
    let s = mul(side, side, 1073741824, 1073741824);
    d.p + s.m <= s.p + d.m
}

fn held_at(o: GridBody, k: u64, s: Side, outline: Outline<'_>) -> Option<Hold>
    requires { Ready o k outline.xs.now outline.ys.now s.i0 s.i1 s.i2 s.w0 s.w1 s.w2 }
    ensures { IfSome result (λ h. Loose h × (h.margin < 4294967296) × HeldAt o outline.entry.xs.now outline.entry.ys.now k s.l s.i0 s.i1 s.i2 s.w0 s.w1 s.w2 h) }
{
    let l = s.l;
    if l < 1 || l > 4294967296 {
        return None;
    }
    let arc = arc_at(o, l, l, k, k);
    let margin = margin_of(arc, l, l, o.reach)?;
    let point = weighted(outline, s);
    Some(Hold {
        place: turned_down(arc.p0, point),
        margin,
        blur: blur(l),
    })
}

// Whether the two points are near enough for the distance to keep.
fn decided(job: GridJob, k: u64, a: Hold, b: Hold) -> bool
    requires { Close job k a b }
    ensures { result ≡ true → Decided job k a b }
{
    let lost = a.margin + b.margin + 30 + 2 * (a.blur + b.blur);
    if job.down < lost {
        return false;
    }
    let room = job.down - lost;
    if room > 1073741824 {
        return false;
    }
    let d = heading(job.d1, job.d2, k);
    let way = way_between(a.place, d, b.place);
    reached(way, room)
}

fn side_a(g: Grip) -> Side
    ensures { result ≡ record { i0 = g.i0; i1 = g.i1; i2 = g.i2; w0 = g.w0; w1 = g.w1; w2 = g.w2; l = g.la } }
{
    Side {
        i0: g.i0,
        i1: g.i1,
        i2: g.i2,
        w0: g.w0,
        w1: g.w1,
        w2: g.w2,
        l: g.la,
    }
}

fn side_b(g: Grip) -> Side
    ensures { result ≡ record { i0 = g.j0; i1 = g.j1; i2 = g.j2; w0 = g.w0; w1 = g.w1; w2 = g.w2; l = g.lb } }
{
    Side {
        i0: g.j0,
        i1: g.j1,
        i2: g.j2,
        w0: g.w0,
        w1: g.w1,
        w2: g.w2,
        l: g.lb,
    }
}

fn near_enough(job: GridJob, k: u64, g: Grip, on: Outlines<'_>) -> bool
    requires { Fits job on.a.xs.now on.a.ys.now on.b.xs.now on.b.ys.now }
    ensures { result ≡ true → TouchesAt job k on.entry.a.xs.now on.entry.a.ys.now on.entry.b.xs.now on.entry.b.ys.now }
{
    if k > 16777216 || !names(g, on.a.xs.len(), on.b.xs.len()) {
        return false;
    }
    let Some(a) = held_at(job.a, k, side_a(g), on.a) else {
        return false;
    };
    let Some(b) = held_at(job.b, k, side_b(g), on.b) else {
        return false;
    };
    decided(job, k, a, b)
}

// The check, at k / 2^24 of the way.
pub fn touches(job: GridJob, k: u64, g: Grip, on: Outlines<'_>) -> bool
    ensures { result ≡ true → TouchesAt job k on.entry.a.xs.now on.entry.a.ys.now on.entry.b.xs.now on.entry.b.ys.now }
{
    job_fits(job, on) && near_enough(job, k, g, on)
}
