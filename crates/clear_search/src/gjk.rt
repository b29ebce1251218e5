// Nearest places of two outlines, by GJK: the difference of the two is searched for its place nearest to 0, as a corner, a side or a triangle of it.
//
//        .1                 a corner:   1 alone
//       /  \                a side:     0 and 1, their weights by where the foot of the perpendicular lies
//      0----2   + origin    a triangle: all three, where it holds the origin; else the side or the corner with the newest one that faces it
use crate::vectors::{Place, difference, dot, perp, scaled, sum, turned, turned_back};

// No search goes on for longer.
const MOST_ROUNDS: u64 = 40;

// A body's corners as floats, lent as two lists.
#[derive(Clone, Copy)]
pub struct Shape<'a> {
    pub xs: &'a [f64],
    pub ys: &'a [f64],
}

// The corners of both bodies.
#[derive(Clone, Copy)]
pub struct Shapes<'a> {
    pub a: Shape<'a>,
    pub b: Shape<'a>,
}

// How A and B are turned, and the centre of B seen from that of A.
#[derive(Clone, Copy)]
pub struct Pose {
    pub a: Place,
    pub b: Place,
    pub d: Place,
}

// A corner of the difference: corner j of B less corner i of A.
#[derive(Clone, Copy)]
pub struct Vertex {
    pub i: usize,
    pub j: usize,
    pub at: Place,
}

// The corners held, how many of them, and their weights; the way from the nearest place of A to that of B; whether there is none. A corner that is not held
// repeats the first with weight 0, so that whoever reads a grip off this need not ask how many there are: an enum of three cases would be no plainer.
#[derive(Clone, Copy)]
pub struct Near {
    pub count: u64,
    pub first: Vertex,
    pub second: Vertex,
    pub third: Vertex,
    pub w0: f64,
    pub w1: f64,
    pub w2: f64,
    pub way: Place,
    pub overlap: bool,
}

fn corner(shape: Shape<'_>, i: usize) -> Place {
    Place {
        x: shape.xs.get(i).copied().unwrap_or(0.0),
        y: shape.ys.get(i).copied().unwrap_or(0.0),
    }
}

fn vertex_of(shapes: Shapes<'_>, pose: Pose, i: usize, j: usize) -> Vertex {
    let a = turned(pose.a, corner(shapes.a, i));
    let b = turned(pose.b, corner(shapes.b, j));
    Vertex {
        i,
        j,
        at: difference(sum(pose.d, b), a),
    }
}

// The corner that lies furthest along n, n being seen from the body.
fn farthest(shape: Shape<'_>, n: Place) -> usize {
    let mut best: usize = 0;
    let mut most = dot(n, corner(shape, 0));
    for i in 1..shape.xs.len() {
        let along = dot(n, corner(shape, i));
        if along > most {
            most = along;
            best = i;
        }
    }
    best
}

fn one(v: Vertex) -> Near {
    let way = v.at;
    Near {
        count: 1,
        first: v,
        second: v,
        third: v,
        w0: 1.0,
        w1: 0.0,
        w2: 0.0,
        way,
        overlap: way.x == 0.0 && way.y == 0.0,
    }
}

fn two(v: Vertex, w: Vertex) -> Near {
    let e = difference(w.at, v.at);
    let t = -dot(v.at, e);
    let all = dot(e, e);
    if t <= 0.0 {
        return one(v);
    }
    if t >= all {
        return one(w);
    }
    let side = perp(v.at, w.at);
    let out = Place { x: e.y, y: -e.x };
    let way = if side < 0.0 { scaled(-1.0, out) } else { out };
    Near {
        count: 2,
        first: v,
        second: w,
        third: v,
        w0: all - t,
        w1: t,
        w2: 0.0,
        way,
        overlap: side == 0.0,
    }
}

fn three(u: Vertex, v: Vertex, w: Vertex) -> Near {
    let a = perp(v.at, w.at);
    let b = perp(w.at, u.at);
    let c = perp(u.at, v.at);
    let left = a >= 0.0 && b >= 0.0 && c >= 0.0;
    let right = a <= 0.0 && b <= 0.0 && c <= 0.0;
    let some = a != 0.0 || b != 0.0 || c != 0.0;
    if (left || right) && some {
        let way = Place { x: 0.0, y: 0.0 };
        return Near {
            count: 3,
            first: u,
            second: v,
            third: w,
            w0: a.abs(),
            w1: b.abs(),
            w2: c.abs(),
            way,
            overlap: true,
        };
    }
    let from_u = dot(w.at, difference(w.at, u.at));
    let from_v = dot(w.at, difference(w.at, v.at));
    if from_u <= 0.0 && from_v <= 0.0 {
        return one(w);
    }
    let faces = if a + b + c > 0.0 { b < 0.0 } else { b > 0.0 };
    if from_u > 0.0 && (from_v <= 0.0 || faces) {
        return two(u, w);
    }
    two(w, v)
}

fn grown(s: Near, v: Vertex) -> Near {
    if s.count == 1 {
        return two(s.first, v);
    }
    three(s.first, s.second, v)
}

fn holds(v: Vertex, i: usize, j: usize) -> bool {
    v.i == i && v.j == j
}

// A start for a search that knows nothing.
pub fn nowhere() -> Near {
    one(Vertex {
        i: 0,
        j: 0,
        at: Place { x: 0.0, y: 0.0 },
    })
}

// The corners that another search ended with, where they stand now.
fn started(shapes: Shapes<'_>, pose: Pose, from: Near) -> Near {
    let v = vertex_of(shapes, pose, from.first.i, from.first.j);
    if from.count == 2 {
        let w = vertex_of(shapes, pose, from.second.i, from.second.j);
        return two(v, w);
    }
    one(v)
}

// What a round leaves, unless there is nothing more to gain.
fn next_round(shapes: Shapes<'_>, pose: Pose, near: Near) -> Option<Near> {
    let i = farthest(shapes.a, turned_back(pose.a, near.way));
    let j = farthest(shapes.b, turned_back(pose.b, scaled(-1.0, near.way)));
    let v = vertex_of(shapes, pose, i, j);
    if near.overlap
        || holds(near.first, i, j)
        || holds(near.second, i, j)
        || dot(near.way, v.at) >= dot(near.way, near.first.at)
    {
        return None;
    }
    Some(grown(near, v))
}

// The nearest places of two outlines, from the corners of another search on.
pub fn nearest(shapes: Shapes<'_>, pose: Pose, from: Near) -> Near {
    let mut near = started(shapes, pose, from);
    for _ in 0..MOST_ROUNDS {
        let Some(next) = next_round(shapes, pose, near) else {
            return near;
        };
        near = next;
    }
    near
}
