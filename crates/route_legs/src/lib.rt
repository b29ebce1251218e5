// A route: a cart goes leg by leg past still outlines, and the first sweep that is not separated ends it.
#![tactic(auto)]

ghost use Rattle.std.specs.Prelude.{◌≡◌, true, false, ◌+◌, ◌*◌, ◌/◌, ◌%◌, ◌≤◌, ◌<◌, length, get_or};
ghost use Rattle.std.specs.Float.{binary32};
ghost use Rattle.route_legs.specs.Route as Route;

use model::{
    Contact, Corners, Counts, NO_CORNER, Refusal, Rotation, Status, SupportPair, Sweep,
    SweepAnswer, Vector, Verdict,
};
use outline::point;
use sweep_numbers::turn;

const MOST_WAYPOINTS: usize = 33;

const MOST_OUTLINES: usize = 32;

// The answers where no sweep is run.
const WRONG_LENGTH: u32 = 255;

const WRONG_WAYPOINTS: u32 = 16;

const WRONG_OUTLINES: u32 = 17;

// Where a route ends: the leg and the outline, both from 1, and the distance calls of all sweeps up to there.
#[derive(Clone, Copy)]
pub struct Stop {
    pub leg: u32,
    pub outline: u32,
    pub calls: u32,
}

// Clear, with all distance calls; ended by a sweep that is not separated, or by one that is refused; or no sweep was run.
// No Result: that a route ended and that it could not be looked at are told apart in one `match`, and each has its own place or number.
#[derive(Clone, Copy)]
pub enum RouteAnswer {
    Clear(u32),
    Ended(Stop, Status, Contact),
    Refused(Stop, u32),
    Wrong(u32),
}

// What a route is made of: a cart, waypoints, and still outlines in one flat list with the length of each.
#[derive(Clone, Copy)]
struct Lists<'a> {
    cart: &'a [f32],
    waypoints: &'a [f32],
    stills: &'a [f32],
    lengths: &'a [u32],
    slop: f32,
}

// Leg i of the waypoints, from 0: from one to the next.
fn leg_move(waypoints: &[f32], i: u32) -> Sweep
    requires { i ≤ 1024 }
    ensures { result ≡ Route.leg_move binary32 waypoints.now i }
{
    let local_center = Vector { x: 0.0, y: 0.0 };
    let c1 = point(waypoints, 2 * i);
    let q1 = turn(point(waypoints, 2 * i + 1));
    let c2 = point(waypoints, 2 * i + 2);
    let q2 = turn(point(waypoints, 2 * i + 3));
    Sweep {
        local_center,
        c1,
        c2,
        q1,
        q2,
    }
}

// The move of what stands still.
fn still_move() -> Sweep
    ensures { result ≡ Route.still_move binary32 }
{
    let nowhere = Vector { x: 0.0, y: 0.0 };
    let unturned = Rotation { c: 1.0, s: 0.0 };
    Sweep {
        local_center: nowhere,
        c1: nowhere,
        c2: nowhere,
        q1: unturned,
        q2: unturned,
    }
}

// How many numbers stand before still outline j. `route_clearance_legs` has its own, since it asks for few outlines and nothing public asks its caller.
fn start_of(lengths: &[u32], j: usize) -> usize
    requires { (j ≤ length lengths.now) × (j ≤ 32) }
    ensures { (result ≡ Route.start_of lengths.now j) × (result ≤ 0x1_0000_0000 * j) }
{
    let mut start: usize = 0;
    for n in &lengths[..j] {
        start += *n as usize;
    }
    start
}

fn wide(n: u32) -> usize
    ensures { result ≡ n }
{
    n as usize
}

// The sweep of leg i past one still outline.
fn sweep_past(cart: &[f32], waypoints: &[f32], slop: f32, i: u32, still: &[f32]) -> SweepAnswer
    requires { i ≤ 1024 }
    ensures { result ≡ Route.sweep_past binary32 cart.now waypoints.now slop i still.now }
{
    let swept = sweep_toi::sweep_time_of_impact(
        cart,
        0.0,
        leg_move(waypoints, i),
        still,
        0.0,
        still_move(),
        1.0,
        slop,
    );
    swept.answer
}

// The sweep of leg i past still outline j of the flat list.
fn sweep_at(lists: Lists, i: u32, j: u32) -> SweepAnswer
    requires i_bound { (i ≤ 1024) × (j < length lists.lengths.now) × (length lists.lengths.now ≤ 32) }
    requires lengths_value { Route.start_of lists.lengths.now (length lists.lengths.now) ≡ length lists.stills.now }
    ensures { result ≡ Route.sweep_at binary32 lists.entry.cart.now lists.entry.waypoints.now lists.entry.stills.now lists.entry.lengths.now lists.entry.slop i j }
{
    let lengths = lists.lengths;
    let stills = lists.stills;
    let k = wide(j);
    let from = start_of(lengths, k);
    let end = from + wide(lengths[k]);
    sweep_past(
        lists.cart,
        lists.waypoints,
        lists.slop,
        i,
        &stills[from..end],
    )
}

fn is_separated(answer: SweepAnswer) -> bool
    ensures { result ≡ Route.is_separated answer }
{
    match answer {
        SweepAnswer::Overlapped(_) => false,
        SweepAnswer::Hit(_, _) => false,
        SweepAnswer::Separated(_, _) => true,
        SweepAnswer::Failed(_, _) => false,
        SweepAnswer::Refused(_) => false,
    }
}

fn calls_in(counts: Counts) -> u32
    ensures { result ≡ counts.distance_calls }
{
    counts.distance_calls
}

// A refused sweep makes no distance call.
fn calls_of(answer: SweepAnswer) -> u32
    ensures { result ≡ Route.calls_of answer }
{
    match answer {
        SweepAnswer::Overlapped(counts) => calls_in(counts),
        SweepAnswer::Hit(_, counts) => calls_in(counts),
        SweepAnswer::Separated(_, counts) => calls_in(counts),
        SweepAnswer::Failed(_, counts) => calls_in(counts),
        SweepAnswer::Refused(_) => 0,
    }
}

fn ended_with(stop: Stop, outcome: Result<Verdict, Refusal>) -> RouteAnswer
    ensures { result ≡ Route.ended_with stop outcome }
{
    match outcome {
        Ok(v) => {
            let status = v.status;
            let contact = v.contact;
            RouteAnswer::Ended(stop, status, contact)
        }
        Err(refusal) => RouteAnswer::Refused(stop, refusal.number),
    }
}

// The route's answer where a sweep ends it; its corners are not told.
fn ended_by(answer: SweepAnswer, stop: Stop) -> RouteAnswer
    ensures { result ≡ Route.ended_by binary32 answer stop }
{
    let none = SupportPair {
        first: NO_CORNER,
        second: NO_CORNER,
    };
    let corners = Corners { a: none, b: none };
    ended_with(stop, sweep_numbers::told_by(corners, answer))
}

// Sweep k is that of leg k / outlines past outline k % outlines, both from 0.
fn leg_of(outlines: u32, k: u32) -> u32
    requires { 1 ≤ outlines }
    ensures { result ≡ k / outlines }
{
    k / outlines
}

fn outline_of(outlines: u32, k: u32) -> u32
    requires { 1 ≤ outlines }
    ensures { result ≡ k % outlines }
{
    k % outlines
}

// Both are told from 1.
fn stop_at(leg: u32, outline: u32, calls: u32) -> Stop
    requires { (leg ≤ 1024) × (outline ≤ 1024) }
    ensures { result ≡ Route.stop (leg + 1) (outline + 1) calls }
{
    Stop {
        leg: leg + 1,
        outline: outline + 1,
        calls,
    }
}

// So many sweeps in their order: leg by leg, and on a leg outline by outline.
fn walk(lists: Lists, outlines: u32, sweeps: u32) -> RouteAnswer
    requires outlines_value { (outlines ≡ length lists.lengths.now) × (1 ≤ outlines) × (outlines ≤ 32) × (sweeps ≤ 1024) }
    requires lengths_value { Route.start_of lists.lengths.now (length lists.lengths.now) ≡ length lists.stills.now }
    ensures { result ≡ Route.walk_from binary32 lists.entry.cart.now lists.entry.waypoints.now lists.entry.stills.now lists.entry.lengths.now lists.entry.slop sweeps 0 0 }
{
    let mut calls = 0u32;
    for k in 0..sweeps {
        let leg = leg_of(outlines, k);
        let outline = outline_of(outlines, k);
        let answer = sweep_at(lists, leg, outline);
        calls += calls_of(answer);
        if !is_separated(answer) {
            return ended_by(answer, stop_at(leg, outline, calls));
        }
    }
    RouteAnswer::Clear(calls)
}

// The answer of a route: waypoints of four numbers (centre, cosine and sine), still outlines in one flat list with the lengths of each in numbers.
// Wrong(255) where waypoints are no multiple of four; 16 for fewer than 2 or more than 33; 17 for no still outline or more than 32; 255 where the
// lengths do not add up.
pub fn route(
    cart: &[f32],
    waypoints: &[f32],
    stills: &[f32],
    lengths: &[u32],
    slop: f32,
) -> RouteAnswer
    ensures { result ≡ Route.route binary32 cart.now waypoints.now stills.now lengths.now slop }
{
    if waypoints.len() % 4 != 0 {
        return RouteAnswer::Wrong(WRONG_LENGTH);
    }
    let places = waypoints.len() / 4;
    if places < 2 {
        return RouteAnswer::Wrong(WRONG_WAYPOINTS);
    }
    if places > MOST_WAYPOINTS {
        return RouteAnswer::Wrong(WRONG_WAYPOINTS);
    }
    let outlines = lengths.len();
    if outlines == 0 {
        return RouteAnswer::Wrong(WRONG_OUTLINES);
    }
    if outlines > MOST_OUTLINES {
        return RouteAnswer::Wrong(WRONG_OUTLINES);
    }
    if start_of(lengths, outlines) != stills.len() {
        return RouteAnswer::Wrong(WRONG_LENGTH);
    }
    let sweeps = (places - 1) * outlines;
    let lists = Lists {
        cart,
        waypoints,
        stills,
        lengths,
        slop,
    };
    walk(lists, outlines as u32, sweeps as u32)
}
