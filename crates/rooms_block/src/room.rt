// The room of a move: the largest distance found that it is proved to keep throughout. How it is found is not trusted: what is told was proved clear.
ghost use Rattle.std.specs.Prelude.{true, ◌≡◌, length, IfSome};
ghost use Rattle.rooms_block.specs.Rooms.{is_clear, Keeps};

use crate::look::{Move, look};
use clearance_call::Cleared;

// How often the gap is halved.
const HALVINGS: u32 = 11;

// What is tried next, or what failed already.
#[derive(Clone, Copy)]
enum Limit {
    Untried(f32),
    Failed(f32),
}

// What is proved kept, and what bounds it.
#[derive(Clone, Copy)]
struct Span {
    room: f32,
    limit: Limit,
}

fn is_clear(answer: Cleared) -> bool
    ensures { result ≡ is_clear answer }
{
    matches!(&answer, Cleared::Clear { .. })
}

// Whether a room is proved kept.
fn keeps(planned: Move<'_>, room: f32) -> bool
    requires { length planned.numbers.now ≡ 24 }
    ensures { result ≡ true → Keeps planned.entry.points_a.now planned.entry.points_b.now planned.entry.numbers.now room }
{
    is_clear(look(planned, 3, room, 0.0))
}

// Twice as much until it fails, then halfway between.
fn to_try(s: Span) -> f32 {
    match s.limit {
        Limit::Untried(room) => room,
        Limit::Failed(room) => s.room + 0.5 * (room - s.room),
    }
}

fn kept(s: Span, tried: f32) -> Span
    ensures { result.room ≡ tried }
{
    Span {
        room: tried,
        limit: match s.limit {
            Limit::Untried(_) => Limit::Untried(2.0 * tried),
            Limit::Failed(room) => Limit::Failed(room),
        },
    }
}

// One room more tried.
fn next(planned: Move<'_>, s: Span) -> Span
    requires { (length planned.numbers.now ≡ 24) × Keeps planned.points_a.now planned.points_b.now planned.numbers.now s.room }
    ensures { Keeps planned.entry.points_a.now planned.entry.points_b.now planned.entry.numbers.now result.room }
{
    let tried = to_try(s);
    if keeps(planned, tried) {
        return kept(s, tried);
    }
    Span {
        room: s.room,
        limit: Limit::Failed(tried),
    }
}

// From a room that is kept, with the one to try first. From the least slop to the largest there are 169 doublings; the round that fails and ten halvings.
fn widest(planned: Move<'_>, least: f32, first: f32) -> f32
    requires { (length planned.numbers.now ≡ 24) × Keeps planned.points_a.now planned.points_b.now planned.numbers.now least }
    ensures { Keeps planned.entry.points_a.now planned.entry.points_b.now planned.entry.numbers.now result }
{
    let mut s = Span {
        room: least,
        limit: Limit::Untried(first),
    };
    let mut failed: u32 = 0;
    for _round in 0..200u32 {
        s = next(planned, s);
        if matches!(&s.limit, Limit::Failed(_)) {
            failed += 1;
        }
        if failed == HALVINGS {
            break;
        }
    }
    s.room
}

// The room of a move, where it is clear with its own slop.
pub fn room_of(planned: Move<'_>, slop: f32, first: f32) -> Option<f32>
    requires { length planned.numbers.now ≡ 24 }
    ensures { IfSome result (λ room. Keeps planned.entry.points_a.now planned.entry.points_b.now planned.entry.numbers.now room) }
{
    if !keeps(planned, slop) {
        return None;
    }
    Some(widest(planned, slop, first))
}
