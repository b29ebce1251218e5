// What the check is shown: at a moment weights on corners, over a piece an axis at each end and what lengthens each heading.
ghost use Rattle.std.specs.Prelude.{◌≤◌};

use crate::gjk::{Near, Pose, Shapes, nearest};
use crate::vectors::{
    Place, difference, dot, inverse_root, place_of, scaled, sum, whole, whole_vector,
};
use board::{GridJob, Grip, Proposal, Vector};

// 2^26: what a lengthener of 1 is written as.
const UNIT: f64 = 67108864.0;

// The first and last headings of both, in 2^30-ths, and the centre of B seen from that of A.
#[derive(Clone, Copy)]
pub struct Course {
    pub first_a: Place,
    pub last_a: Place,
    pub first_b: Place,
    pub last_b: Place,
    pub first: Place,
    pub last: Place,
}

// A moment of the move, k / 2^24 of it: the headings, what makes them 2^30 long (0 where one is too short for that), the centre, the nearest places.
#[derive(Clone, Copy)]
pub struct Stand {
    pub k: u64,
    pub heading_a: Place,
    pub heading_b: Place,
    pub centre: Place,
    pub length_a: f64,
    pub length_b: f64,
    pub near: Near,
}

// What lengthens a heading at both ends of a piece, in 2^26-ths.
#[derive(Clone, Copy)]
struct Lengths {
    l0: u64,
    l1: u64,
}

// What the search reads of a job.
pub fn course_of(job: GridJob) -> Course {
    Course {
        first_a: place_of(job.a.q1),
        last_a: place_of(job.a.q2),
        first_b: place_of(job.b.q1),
        last_b: place_of(job.b.q2),
        first: place_of(job.d1),
        last: place_of(job.d2),
    }
}

fn along(a: Place, b: Place, t: f64) -> Place {
    sum(a, scaled(t, difference(b, a)))
}

// 2^30 by the heading's length; 0 where it is below a 64th of 1.
fn lengthener(h: Place) -> f64 {
    let l = inverse_root(dot(h, h)) * 1073741824.0;
    if l < 64.0 { l } else { 0.0 }
}

// The turn along a heading, 0 where it has no lengthener: then the body counts as a disc, whose corners are all at its centre.
fn unit(h: Place, l: f64) -> Place {
    scaled(l / 1073741824.0, h)
}

pub fn stand_at(shapes: Shapes<'_>, c: Course, k: u64, from: Near) -> Stand {
    let t = std::num::nearest_u64_to_f64(k) / 16777216.0;
    let heading_a = along(c.first_a, c.last_a, t);
    let heading_b = along(c.first_b, c.last_b, t);
    let centre = along(c.first, c.last, t);
    let length_a = lengthener(heading_a);
    let length_b = lengthener(heading_b);
    let pose = Pose {
        a: unit(heading_a, length_a),
        b: unit(heading_b, length_b),
        d: centre,
    };
    let near = nearest(shapes, pose, from);
    Stand {
        k,
        heading_a,
        heading_b,
        centre,
        length_a,
        length_b,
        near,
    }
}

fn disc() -> Lengths {
    Lengths { l0: 0, l1: 0 }
}

// Not std's `min` and `max`, which choose otherwise where one of the two is no number.
fn lower(a: f64, b: f64) -> f64 {
    if a < b { a } else { b }
}

fn upper(a: f64, b: f64) -> f64 {
    if a > b { a } else { b }
}

// Lengtheners of both ends, times one factor that puts the five coefficients of the squared length as far above 1 as below it; a disc where the
// check would refuse them.
fn lengths_of(h0: Place, h1: Place, r0: f64, r1: f64) -> Lengths {
    if r0 == 0.0 || r1 == 0.0 {
        return disc();
    }
    let p = unit(h0, r0);
    let q = unit(h1, r1);
    let t = scaled(0.5, sum(unit(h1, r0), unit(h0, r1)));
    if t.x.abs() > 1.125 || t.y.abs() > 1.125 {
        return disc();
    }
    let c0 = dot(p, p);
    let c1 = dot(p, t);
    let c2 = (2.0 * dot(t, t) + dot(p, q)) / 3.0;
    let c3 = dot(t, q);
    let c4 = dot(q, q);
    let low = lower(lower(c0, c1), lower(c2, lower(c3, c4)));
    let high = upper(upper(c0, c1), upper(c2, upper(c3, c4)));
    let middle = (low + high) / 2.0;
    if (high - low) * 2.5 + 0.000002 > middle {
        return disc();
    }
    let f = inverse_root(middle) * UNIT;
    Lengths {
        l0: whole(r0 * f + 0.5),
        l1: whole(r1 * f + 0.5),
    }
}

// An axis along the way between two nearest places, just below 2^28 long.
fn axis(n: Near) -> Vector {
    let way = n.way;
    let top = upper(way.x.abs(), way.y.abs());
    if top == 0.0 {
        return whole_vector(way);
    }
    let near_one = scaled(1.0 / top, way);
    whole_vector(scaled(
        inverse_root(dot(near_one, near_one)) * 268435455.9,
        near_one,
    ))
}

// The axis of an end of a piece, over which a body without a lengthener counts as a disc.
fn axis_at(shapes: Shapes<'_>, s: Stand, disc_a: bool, disc_b: bool) -> Vector {
    let near = s.near;
    if !(disc_a || disc_b) {
        return axis(near);
    }
    let la = if disc_a { 0.0 } else { s.length_a };
    let lb = if disc_b { 0.0 } else { s.length_b };
    let pose = Pose {
        a: unit(s.heading_a, la),
        b: unit(s.heading_b, lb),
        d: s.centre,
    };
    axis(nearest(shapes, pose, near))
}

// For the piece between two moments.
pub fn propose(shapes: Shapes<'_>, s: Stand, t: Stand) -> Proposal {
    let a = lengths_of(s.heading_a, t.heading_a, s.length_a, t.length_a);
    let b = lengths_of(s.heading_b, t.heading_b, s.length_b, t.length_b);
    let disc_a = a.l0 == 0;
    let disc_b = b.l0 == 0;
    let n0 = axis_at(shapes, s, disc_a, disc_b);
    let n1 = axis_at(shapes, t, disc_a, disc_b);
    Proposal {
        a0: a.l0,
        a1: a.l1,
        b0: b.l0,
        b1: b.l1,
        n0,
        n1,
    }
}

// A share of the weights, which together come to 2^28; at most what is left.
fn weight(w: f64, all: f64, left: u64) -> u64
    ensures { result ≤ left }
{
    whole(w / all * 268435456.0).min(left)
}

// For the moment itself.
pub fn grip_of(s: Stand) -> Grip {
    let near = s.near;
    let all = near.w0 + near.w1 + near.w2;
    let w1 = weight(near.w1, all, 268435456);
    let w2 = weight(near.w2, all, 268435456 - w1);
    Grip {
        i0: near.first.i,
        i1: near.second.i,
        i2: near.third.i,
        j0: near.first.j,
        j1: near.second.j,
        j2: near.third.j,
        w0: 268435456 - w1 - w2,
        w1,
        w2,
        la: whole(s.length_a * UNIT + 0.5),
        lb: whole(s.length_b * UNIT + 0.5),
    }
}
