// A route looked at as a whole, over lists of numbers, as programs in C and Rust have them. Nothing is required of the caller.
#![tactic(auto)]

ghost use Rattle.std.specs.Prelude.{◌≡◌, [], ◌∷◌, ◌≤◌, length};
ghost use Rattle.route_clearance_legs.specs.Promise.{pieces_told};
ghost use Rattle.route_clearance_lists.specs.Entry.{route_number, end_words, fractions_after, place_after, RouteClearanceTold};

use clearance_lists::fraction_at;
use route_clearance_legs::{End, RouteCleared, route_clearance};

fn put_fractions(out: &mut [f32], first: f32, last: f32)
    requires { length out.old ≡ 2 }
    ensures { out.new ≡ first ∷ last ∷ [] }
{
    out[0] = first;
    out[1] = last;
}

// Leg, outline and pieces, under a number.
fn put_place(number: u32, end: End, place: &mut [u32]) -> u32
    requires { (length place.old ≡ 3) × (end.pieces ≤ 4194304) }
    ensures { (result ≡ number) × (place.new ≡ end_words end) }
{
    place[0] = end.leg;
    place[1] = end.outline;
    place[2] = end.pieces as u32;
    number
}

// The same with two fractions.
fn put(number: u32, first: f32, last: f32, end: End, out: &mut [f32], place: &mut [u32]) -> u32
    requires { (length out.old ≡ 2) × (length place.old ≡ 3) × (end.pieces ≤ 4194304) }
    ensures { (result ≡ number) × (out.new ≡ first ∷ last ∷ []) × (place.new ≡ end_words end) }
{
    put_fractions(out, first, last);
    put_place(number, end, place)
}

// A pair that is refused writes no fractions, and where none is looked at both lists stay.
fn tell(answer: RouteCleared, out: &mut [f32], place: &mut [u32]) -> u32
    requires { (length out.old ≡ 2) × (length place.old ≡ 3) × (pieces_told answer ≤ 4194304) }
    ensures { (result ≡ route_number answer) × (out.new ≡ fractions_after answer out.old)
        × (place.new ≡ place_after answer place.old) }
{
    match answer {
        RouteCleared::Clear { pieces } => {
            let end = End {
                leg: 0,
                outline: 0,
                pieces,
            };
            put(32, 1.0, 1.0, end, out, place)
        }
        RouteCleared::Touch {
            end,
            clear_up_to,
            within_by,
        } => put(
            33,
            fraction_at(clear_up_to),
            fraction_at(within_by),
            end,
            out,
            place,
        ),
        RouteCleared::Open { end, clear_up_to } => {
            put(34, fraction_at(clear_up_to), 1.0, end, out, place)
        }
        RouteCleared::Refused { end, number } => put_place(number, end, place),
        RouteCleared::Wrong(number) => number,
    }
}

// What `foldflake_route_clearance` answers.
pub fn route_clearance_told(
    cart: &[f32],
    waypoints: &[f32],
    stills: &[f32],
    lengths: &[u32],
    slop: f32,
    out: &mut [f32],
    place: &mut [u32],
) -> u32
    ensures { RouteClearanceTold cart.now waypoints.now stills.now lengths.now slop out.old
        place.old out.new place.new result }
{
    if (out.len() == 2) & (place.len() == 3) {
        let answer = route_clearance(cart, waypoints, stills, lengths, slop);
        tell(answer, out, place)
    } else {
        255
    }
}
