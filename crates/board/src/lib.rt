// A job on the grid: what the check, the touch and the search are given, and what the check holds on its way. Records, and the first operations on them. Corners are
// lent beside a job.
#![tactic(auto)]

ghost use Rattle.std.specs.Prelude.{true, ◌≡◌, ◌≤◌};
ghost use Rattle.board.specs.Pairs.{int_of, size_of, Sized, Is};

// p less m
#[derive(Clone, Copy)]
pub struct Pair {
    pub p: u64,
    pub m: u64,
}

#[derive(Clone, Copy)]
pub struct Vector {
    pub x: Pair,
    pub y: Pair,
}

// First and last heading in 2^30-ths; no corner lies farther than `reach` from the body's centre.
#[derive(Clone, Copy)]
pub struct GridBody {
    pub q1: Vector,
    pub q2: Vector,
    pub reach: u64,
}

// B's centre as A's centre sees it, first and last; the distance to keep, rounded up and rounded down.
#[derive(Clone, Copy)]
pub struct GridJob {
    pub a: GridBody,
    pub b: GridBody,
    pub d1: Vector,
    pub d2: Vector,
    pub up: u64,
    pub down: u64,
}

// A body's corners, lent as two lists: both parts of each, 2^29 above what they stand for.
#[derive(Clone, Copy)]
pub struct Outline<'a> {
    pub xs: &'a [u64],
    pub ys: &'a [u64],
}

// The corners of both bodies of a job.
#[derive(Clone, Copy)]
pub struct Outlines<'a> {
    pub a: Outline<'a>,
    pub b: Outline<'a>,
}

// What a search proposes for a piece of the way: what the headings are lengthened by at its ends, in 2^26-ths, all 0 for a disc; the axis at its ends, at
// most 2^28 long.
#[derive(Clone, Copy)]
pub struct Proposal {
    pub a0: u64,
    pub a1: u64,
    pub b0: u64,
    pub b1: u64,
    pub n0: Vector,
    pub n1: Vector,
}

// What a search proposes for a touch: corners of A and of B, three of each, and the weights that both sets have; what lengthens the headings, in 2^26-ths.
#[derive(Clone, Copy)]
pub struct Grip {
    pub i0: usize,
    pub i1: usize,
    pub i2: usize,
    pub j0: usize,
    pub j1: usize,
    pub j2: usize,
    pub w0: u64,
    pub w1: u64,
    pub w2: u64,
    pub la: u64,
    pub lb: u64,
}

// A body's turn over a piece: u u p0 + u w t + w w p2, in 2^30-ths.
#[derive(Clone, Copy)]
pub struct Arc {
    pub p0: Vector,
    pub t: Vector,
    pub p2: Vector,
}

// One body held: where its point is placed, how far the window moves that, and the blur of its turn.
#[derive(Clone, Copy)]
pub struct Hold {
    pub place: Vector,
    pub margin: u64,
    pub blur: u64,
}

// the smaller part off both
pub fn norm(a: Pair) -> Pair
    ensures { Is (int_of a) (size_of a) result }
{
    if a.p < a.m {
        Pair { p: 0, m: a.m - a.p }
    } else {
        Pair { p: a.p - a.m, m: 0 }
    }
}

// Whether a pair is at most s in size.
pub fn within(a: Pair, s: u64) -> bool
    ensures small { result ≡ true → size_of a ≤ s }
    ensures passed { size_of a ≤ s → result ≡ true }
{
    a.p <= s && a.m <= s - a.p
}

// Whether both parts of a vector are.
pub fn both_within(a: Vector, s: u64) -> bool
    ensures small { result ≡ true → Sized s a }
    ensures passed { Sized s a → result ≡ true }
{
    within(a.x, s) && within(a.y, s)
}
