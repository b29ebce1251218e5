// A route looked at as a whole: each leg past each still outline, in `route`'s order, until one is not clear. What is said of the pairs holds at every moment.
#![tactic(auto)]

ghost use Rattle.std.specs.Prelude.{◌≡◌, true, false, ◌+◌, ◌*◌, ◌/◌, ◌%◌, ◌≤◌, ◌<◌, length, get_or};
ghost use Rattle.std.specs.Float.{binary32};
ghost use Rattle.route_legs.specs.Route as Route;
ghost use Rattle.route_clearance_legs.specs.Looks as Looks;

use clearance_call::Cleared;
use outline::point;

const MOST_WAYPOINTS: usize = 33;

const MOST_OUTLINES: usize = 32;

// The answers where no pair is looked at.
const WRONG_LENGTH: u32 = 255;

const WRONG_WAYPOINTS: u32 = 16;

const WRONG_OUTLINES: u32 = 17;

// Where a route ends: the leg and the outline, both from 1, and the pieces of all pairs up to there.
#[derive(Clone, Copy)]
pub struct End {
    pub leg: u32,
    pub outline: u32,
    pub pieces: u64,
}

// Clear, with all pieces; ended by a pair that touches, that is not settled or that is refused; or no pair was looked at. Places are in 2^24-ths of the leg.
// No Result, as the answer of a route by sweeps.
#[derive(Clone, Copy)]
pub enum RouteCleared {
    Clear {
        pieces: u64,
    },
    Touch {
        end: End,
        clear_up_to: u64,
        within_by: u64,
    },
    Open {
        end: End,
        clear_up_to: u64,
    },
    Refused {
        end: End,
        number: u32,
    },
    Wrong(u32),
}

// Leg i, from 0, as a sweep has it: no radii, all of the leg, the slop; the cart from one waypoint to the next; what stands still.
fn leg_numbers(waypoints: &[f32], slop: f32, i: u32) -> [f32; 24]
    requires { i ≤ 1024 }
    ensures { result ≡ Looks.leg_numbers waypoints.now slop i }
{
    let c1 = point(waypoints, 2 * i);
    let q1 = point(waypoints, 2 * i + 1);
    let c2 = point(waypoints, 2 * i + 2);
    let q2 = point(waypoints, 2 * i + 3);
    [
        0.0, 0.0, 1.0, slop, 0.0, 0.0, c1.x, c1.y, c2.x, c2.y, q1.x, q1.y, q2.x, q2.y, 0.0, 0.0,
        0.0, 0.0, 0.0, 0.0, 1.0, 0.0, 1.0, 0.0,
    ]
}

// How many numbers stand before still outline j.
fn start_of(lengths: &[u32], j: usize) -> usize
    requires { (j ≤ length lengths.now) × (j ≤ 32) }
    ensures { (result ≡ Route.start_of lengths.now j) × (result ≤ 0x1_0000_0000 * j) }
{
    let mut start: usize = 0;
    for i in 0..j {
        start += lengths[i] as usize;
    }
    start
}

fn wide(n: u32) -> usize
    ensures { result ≡ n }
{
    n as usize
}

// Leg i past one still outline.
fn look_past(cart: &[f32], waypoints: &[f32], slop: f32, i: u32, still: &[f32]) -> Cleared
    requires { i ≤ 1024 }
    ensures { Looks.ToldPast cart.now waypoints.now slop i still.now result }
{
    let numbers = leg_numbers(waypoints, slop, i);
    clearance_call::clearance(cart, still, &numbers, 0.0)
}

// Leg i past still outline j of the flat list.
fn look_at(
    cart: &[f32],
    waypoints: &[f32],
    stills: &[f32],
    lengths: &[u32],
    slop: f32,
    i: u32,
    j: u32,
) -> Cleared
    requires i_bound { (i ≤ 1024) × (j < length lengths.now) × (length lengths.now ≤ 32) }
    requires lengths_value { Route.start_of lengths.now (length lengths.now) ≡ length stills.now }
    ensures { Looks.ToldAt cart.now waypoints.now stills.now lengths.now slop i j result }
{
    let k = wide(j);
    let from = start_of(lengths, k);
    let end = from + wide(lengths[k]);
    look_past(cart, waypoints, slop, i, &stills[from..end])
}

fn is_clear(answer: Cleared) -> bool
    ensures { result ≡ Looks.is_clear answer }
{
    matches!(&answer, Cleared::Clear { .. })
}

// A refused pair is not looked at.
fn pieces_of(answer: Cleared) -> u64
    ensures { result ≡ Looks.pieces_of answer }
{
    match answer {
        Cleared::Refused(_) => 0,
        Cleared::Clear { pieces } | Cleared::Touch { pieces, .. } | Cleared::Open { pieces, .. } =>
            { pieces }
    }
}

// The route's answer where a pair ends it; a clear one ends none.
fn ended_by(answer: Cleared, end: End) -> RouteCleared
    ensures { result ≡ Looks.ended_by answer end }
{
    match answer {
        Cleared::Refused(number) => RouteCleared::Refused { end, number },
        Cleared::Clear { .. } => RouteCleared::Open {
            end,
            clear_up_to: 0,
        },
        Cleared::Touch {
            clear_up_to,
            within_by,
            ..
        } => RouteCleared::Touch {
            end,
            clear_up_to,
            within_by,
        },
        Cleared::Open { clear_up_to, .. } => RouteCleared::Open { end, clear_up_to },
    }
}

// Pair k is leg k / outlines past outline k % outlines, both from 0.
fn leg_of(outlines: u32, k: u32) -> u32
    requires { 1 ≤ outlines }
    ensures { result ≡ k / outlines }
{
    k / outlines
}

fn outline_of(outlines: u32, k: u32) -> u32
    requires { 1 ≤ outlines }
    ensures { result ≡ k % outlines }
{
    k % outlines
}

// Both are told from 1.
fn end_at(leg: u32, outline: u32, pieces: u64) -> End
    requires { (leg ≤ 1024) × (outline ≤ 1024) }
    ensures { result ≡ Looks.end (leg + 1) (outline + 1) pieces }
{
    End {
        leg: leg + 1,
        outline: outline + 1,
        pieces,
    }
}

// So many pairs in their order: leg by leg, and on a leg outline by outline.
fn walk(
    cart: &[f32],
    waypoints: &[f32],
    stills: &[f32],
    lengths: &[u32],
    slop: f32,
    outlines: u32,
    pairs: u32,
) -> RouteCleared
    requires outlines_value { (outlines ≡ length lengths.now) × (1 ≤ outlines) × (outlines ≤ 32) × (pairs ≤ 1024) }
    requires lengths_value { Route.start_of lengths.now (length lengths.now) ≡ length stills.now }
    ensures { Looks.Walked cart.now waypoints.now stills.now lengths.now slop pairs result }
{
    let mut pieces = 0u64;
    for k in 0..pairs {
        let leg = leg_of(outlines, k);
        let outline = outline_of(outlines, k);
        let answer = look_at(cart, waypoints, stills, lengths, slop, leg, outline);
        pieces += pieces_of(answer);
        if !is_clear(answer) {
            return ended_by(answer, end_at(leg, outline, pieces));
        }
    }
    RouteCleared::Clear { pieces }
}

// The answer of a route, from what `route_legs::route` takes: waypoints of four numbers, still outlines in one flat list with the lengths of each in numbers.
// What is wrong with the lists is told as there.
pub fn route_clearance(
    cart: &[f32],
    waypoints: &[f32],
    stills: &[f32],
    lengths: &[u32],
    slop: f32,
) -> RouteCleared
    ensures { Looks.Told cart.now waypoints.now stills.now lengths.now slop result }
{
    if waypoints.len() % 4 != 0 {
        return RouteCleared::Wrong(WRONG_LENGTH);
    }
    let places = waypoints.len() / 4;
    if places < 2 {
        return RouteCleared::Wrong(WRONG_WAYPOINTS);
    }
    if places > MOST_WAYPOINTS {
        return RouteCleared::Wrong(WRONG_WAYPOINTS);
    }
    let outlines = lengths.len();
    if outlines == 0 {
        return RouteCleared::Wrong(WRONG_OUTLINES);
    }
    if outlines > MOST_OUTLINES {
        return RouteCleared::Wrong(WRONG_OUTLINES);
    }
    if start_of(lengths, outlines) != stills.len() {
        return RouteCleared::Wrong(WRONG_LENGTH);
    }
    let pairs = (places - 1) * outlines;
    walk(
        cart,
        waypoints,
        stills,
        lengths,
        slop,
        outlines as u32,
        pairs as u32,
    )
}
