// The answer of a route, told by a number and by what is written into lent lists.
ghost use Rattle.std.specs.Prelude.{◌≡◌, [], ◌∷◌, length};
ghost use Rattle.list_calls.specs.Entry.{contact_floats};
ghost use Rattle.foldflake.specs.Route.{end_number, stop_words, route_number, floats_after, place_after};

use list_calls::put_contact;
use model::{Contact, Status};
use route_legs::{RouteAnswer, Stop};

// A status that ends a route; separated does not.
fn end_number(status: Status) -> u32
    ensures { result ≡ end_number status }
{
    match status {
        Status::Overlapped => 33,
        Status::Hit => 34,
        Status::Separated => 32,
        Status::Failed => 35,
    }
}

// Leg, outline and distance calls, under a number.
fn put_place(place: &mut [u32], leg: u32, outline: u32, calls: u32, number: u32) -> u32
    requires { length place.old ≡ 3 }
    ensures { (result ≡ number) × (place.new ≡ leg ∷ outline ∷ calls ∷ []) }
{
    place[0] = leg;
    place[1] = outline;
    place[2] = calls;
    number
}

// Where a route ends, with the floats of the sweep that ends it.
fn put_end(out: &mut [f32], place: &mut [u32], stop: Stop, status: Status, contact: Contact) -> u32
    requires { (length out.old ≡ 5) × (length place.old ≡ 3) }
    ensures { (result ≡ end_number status) × (out.new ≡ contact_floats contact) × (place.new ≡ stop_words stop) }
{
    put_contact(out, contact);
    let number = end_number(status);
    put_place(place, stop.leg, stop.outline, stop.calls, number)
}

// A refused sweep writes no floats, and where no sweep is run both lists stay.
pub fn tell_route(x: RouteAnswer, out: &mut [f32], place: &mut [u32]) -> u32
    requires { (length out.old ≡ 5) × (length place.old ≡ 3) }
    ensures { (result ≡ route_number x) × (out.new ≡ floats_after x out.old) × (place.new ≡ place_after x place.old) }
{
    match x {
        RouteAnswer::Clear(calls) => put_place(place, 0, 0, calls, 32),
        RouteAnswer::Ended(stop, status, contact) => put_end(out, place, stop, status, contact),
        RouteAnswer::Refused(stop, number) => {
            put_place(place, stop.leg, stop.outline, stop.calls, number)
        }
        RouteAnswer::Wrong(number) => number,
    }
}
