// The verdict on a job that stands on the grid: a loop that tries pieces of the move, each from where the last clear one ended, and looks for a touch where
// pieces get short. What a piece or a touch says is proved where it is checked; here the pieces are joined.
#![tactic(auto)]

ghost use Rattle.std.specs.Prelude.{true, ◌≡◌, ◌+◌, ◌≤◌, ◌<◌};
ghost use Rattle.board.specs.Board.{ClearBetween};
ghost use Rattle.holding.specs.Grip.{TouchesAt};
ghost use Rattle.clearance_verdict.specs.Verdict.{Found, ShortTouch, told_by, Span, Settled};

use board::{GridJob, Outlines};
use clear_search::{
    Course, Near, Shape, Shapes, Stand, course_of, floats, grip_of, nowhere, propose, stand_at,
};
use piece_check::{clear_piece, touches};

// No more pieces are tried.
const MOST_PIECES: u64 = 4096;

// Pieces of at most so many 2^24-ths of the move are short: there a touch is looked for.
const SHORT: u64 = 256;

// How many places of the rest of the move are looked at last.
const LAST_PLACES: u64 = 64;

// Fractions in 2^24-ths, and how many pieces were tried.
#[derive(Clone, Copy)]
pub enum Answer {
    Clear {
        pieces: u64,
    },
    Touch {
        clear_up_to: u64,
        within_by: u64,
        pieces: u64,
    },
    Open {
        clear_up_to: u64,
        pieces: u64,
    },
}

// The part of the move to look at, in 2^24-ths: from `from` to `high`, its end rounded up; a touch is told up to `low`, the end rounded down.
#[derive(Clone, Copy)]
pub struct Stretch {
    pub from: u64,
    pub low: u64,
    pub high: u64,
}

// All that a look at the job reads: for the checks the job and its corners, for the search what it reads of the job and the corners as floats.
#[derive(Clone, Copy)]
struct Case<'a> {
    job: GridJob,
    on: Outlines<'a>,
    course: Course,
    shapes: Shapes<'a>,
}

fn touch_at(case: &Case<'_>, k: u64, s: Stand) -> bool
    ensures { result ≡ true → TouchesAt case.now.job k case.now.on.a.xs.now case.now.on.a.ys.now case.now.on.b.xs.now case.now.on.b.ys.now }
{
    touches(case.job, k, grip_of(s), case.on)
}

fn look_at(case: &Case<'_>, k: u64, near: Near) -> bool
    ensures { result ≡ true → TouchesAt case.now.job k case.now.on.a.xs.now case.now.on.a.ys.now case.now.on.b.xs.now case.now.on.b.ys.now }
{
    touch_at(case, k, stand_at(case.shapes, case.course, k, near))
}

// At places ever further from u: a 2^24-th on, twice as far, and so on.
fn look_near(case: &Case<'_>, u: u64, low: u64, near: Near) -> Option<u64>
    requires { low ≤ 16777216 }
    ensures { Found case.now.job u low case.now.on.a.xs.now case.now.on.a.ys.now case.now.on.b.xs.now case.now.on.b.ys.now result }
{
    let mut d: u64 = 1;
    for _doubling in 0..25 {
        if low < d || low - d < u {
            return None;
        }
        let k = u + d;
        if look_at(case, k, near) {
            return Some(k);
        }
        d = 2 * d;
    }
    None
}

// The i-th of 64 places.
fn place_of(i: u64, low: u64) -> u64
    requires { (i ≤ 64) × (low ≤ 16777216) }
    ensures { result ≤ low }
{
    (i * low / LAST_PLACES).min(low)
}

// At places spread evenly over the move, as far as they lie after u.
fn look_far(case: &Case<'_>, u: u64, low: u64, near: Near) -> Option<u64>
    requires { low ≤ 16777216 }
    ensures { Found case.now.job u low case.now.on.a.xs.now case.now.on.a.ys.now case.now.on.b.xs.now case.now.on.b.ys.now result }
{
    for i in 1..=LAST_PLACES {
        let k = place_of(i, low);
        if u < k && look_at(case, k, near) {
            return Some(k);
        }
    }
    None
}

// The answer where no piece is short enough to be clear: a touch after u if one is found, else nothing more.
fn last_look(case: &Case<'_>, u: u64, low: u64, near: Near) -> Option<u64>
    requires { low ≤ 16777216 }
    ensures { Found case.now.job u low case.now.on.a.xs.now case.now.on.a.ys.now case.now.on.b.xs.now case.now.on.b.ys.now result }
{
    match look_near(case, u, low, near) {
        Some(k) => Some(k),
        None => look_far(case, u, low, near),
    }
}

fn told(look: Option<u64>, u: u64, pieces: u64) -> Answer
    ensures { result ≡ told_by look u pieces }
{
    match look {
        Some(t) => Answer::Touch {
            clear_up_to: u,
            within_by: t,
            pieces,
        },
        None => Answer::Open {
            clear_up_to: u,
            pieces,
        },
    }
}

// Whether the piece between two moments passes, by what the search proposes for it.
fn try_piece(case: &Case<'_>, k0: u64, k1: u64, s: Stand, t: Stand) -> bool
    ensures { result ≡ true → ClearBetween case.now.job k0 k1 case.now.on.a.xs.now case.now.on.a.ys.now case.now.on.b.xs.now case.now.on.b.ys.now }
{
    clear_piece(case.job, k0, k1, propose(case.shapes, s, t), case.on)
}

// Whether the end of a short piece that did not pass is a touch.
fn short_touch(case: &Case<'_>, k: u64, step: u64, low: u64, t: Stand) -> bool
    ensures { result ≡ true → ShortTouch case.now.job k low case.now.on.a.xs.now case.now.on.a.ys.now case.now.on.b.xs.now case.now.on.b.ys.now }
{
    step <= SHORT && k <= low && touch_at(case, k, t)
}

// A piece that passes is followed by one twice as long, one that does not is halved.
fn settle(case: &Case<'_>, stretch: Stretch) -> Answer
    requires { Span stretch.from stretch.low stretch.high }
    ensures { Settled case.now.job stretch.from stretch.low stretch.high case.now.on.a.xs.now case.now.on.a.ys.now case.now.on.b.xs.now case.now.on.b.ys.now result }
{
    let Stretch { from, low, high } = stretch;
    let mut s = stand_at(case.shapes, case.course, from, nowhere());
    if touch_at(case, from, s) {
        return Answer::Touch {
            clear_up_to: from,
            within_by: from,
            pieces: 0,
        };
    }
    let mut u = from;
    let mut h = high - from;
    for tried in 0..MOST_PIECES {
        let pieces = tried + 1;
        let step = h.min(high - u);
        let to = u + step;
        let t = stand_at(case.shapes, case.course, to, s.near);
        if try_piece(case, u, to, s, t) {
            if to >= high {
                return Answer::Clear { pieces };
            }
            u = to;
            s = t;
            h = 2 * step;
            continue;
        }
        if short_touch(case, to, step, low, t) {
            return Answer::Touch {
                clear_up_to: u,
                within_by: to,
                pieces,
            };
        }
        if step <= 1 {
            let look = last_look(case, u, low, s.near);
            return told(look, u, pieces);
        }
        h = step - step / 2;
    }
    Answer::Open {
        clear_up_to: u,
        pieces: MOST_PIECES,
    }
}

fn in_span(stretch: Stretch) -> bool
    ensures { (result ≡ true → Span stretch.from stretch.low stretch.high) × (Span stretch.from stretch.low stretch.high → result ≡ true) }
{
    stretch.from < stretch.high
        && stretch.high <= 16777216
        && stretch.low <= stretch.high
        && stretch.high <= stretch.low + 1
}

// The verdict on a stretch of the move. What is no span of it is left open.
pub fn settle_job(job: GridJob, stretch: Stretch, on: Outlines<'_>) -> Answer
    ensures { Span stretch.from stretch.low stretch.high → Settled job stretch.from stretch.low stretch.high
        on.entry.a.xs.now on.entry.a.ys.now on.entry.b.xs.now on.entry.b.ys.now result }
{
    if !in_span(stretch) {
        return Answer::Open {
            clear_up_to: stretch.from,
            pieces: 0,
        };
    }
    let na = on.a.xs.len().min(64);
    let nb = on.b.xs.len().min(64);
    let axs = floats(on.a.xs);
    let ays = floats(on.a.ys);
    let bxs = floats(on.b.xs);
    let bys = floats(on.b.ys);
    let shapes = Shapes {
        a: Shape {
            xs: &axs[..na],
            ys: &ays[..na],
        },
        b: Shape {
            xs: &bxs[..nb],
            ys: &bys[..nb],
        },
    };
    let case = Case {
        job,
        on,
        course: course_of(job),
        shapes,
    };
    settle(&case, stretch)
}
