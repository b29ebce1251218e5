// The answer of a route that was read as text, as a line.
#![tactic(auto)]

ghost use Rattle.std.specs.Prelude.{◌≡◌, ◌≤◌, length};
ghost use Rattle.text.specs.Put.{Put};
ghost use Rattle.text.specs.Written.{Room, Wrote};
ghost use Rattle.route_text.specs.Answer as Answer;

use fields::{letter_of, put_contact};
use model::{Contact, Status};
use route_legs::{RouteAnswer, Stop};
use route_read::{Kept, Reader};
use text::Draft;

// No line is longer.
const LONGEST_LINE: usize = 128;

// A text that is no route.
const NO_ROUTE: u64 = 14;

// Where the lists of a route begin and end among the numbers that are kept, and how many lengths there are.
#[derive(Clone, Copy)]
pub struct Cuts {
    pub start: usize,
    pub cart: usize,
    pub whole: usize,
    pub ways: usize,
    pub used: usize,
    pub outlines: usize,
}

// The cuts of so many numbers and lengths. A text with more numbers than there are places for may end within a waypoint, and whole ones alone are taken.
pub fn cuts_of(kept: Kept, numbers: usize, lengths: usize) -> Cuts
    ensures { result ≡ Answer.cuts_of kept numbers lengths }
{
    let used = kept.used.min(numbers);
    let ways = kept.way_end.min(used);
    let cart = kept.cart_end.min(ways);
    Cuts {
        start: cart.min(1),
        cart,
        whole: cart + (ways - cart) / 4 * 4,
        ways,
        used,
        outlines: kept.outlines.min(lengths),
    }
}

// The route that the kept numbers and lengths stand for.
fn route_of(kept: Kept, floats: &[f32], lengths: &[u32]) -> RouteAnswer
    ensures { result ≡ Answer.route_of kept floats.now lengths.now }
{
    let cuts = cuts_of(kept, floats.len(), lengths.len());
    let first = outline::point(floats, 0);
    route_legs::route(
        &floats[cuts.start..cuts.cart],
        &floats[cuts.cart..cuts.whole],
        &floats[cuts.ways..cuts.used],
        &lengths[..cuts.outlines],
        first.x,
    )
}

// Two numbers with a blank between, and a byte after them. Each crate of lines has its own, since it asks for room and nothing public asks its caller.
fn put_pair(draft: &mut Draft<'_>, a: u64, b: u64, end: u8)
    requires { Room 42 draft.old }
    ensures { Wrote 42 draft.old (Answer.two a b end) draft.new }
{
    draft.put_number(a, b' ');
    draft.put_number(b, end);
}

fn put_clear(draft: &mut Draft<'_>, calls: u32)
    requires { Room Answer.longest_line draft.old }
    ensures { Wrote Answer.longest_line draft.old (Answer.clear_line calls) draft.new }
{
    draft.put(b"0 CLEAR ");
    draft.put_number(calls as u64, b'\n');
}

fn put_ended(draft: &mut Draft<'_>, stop: Stop, status: Status, contact: Contact)
    requires { Room Answer.longest_line draft.old }
    ensures { Wrote Answer.longest_line draft.old (Answer.ended_line stop status contact) draft.new }
{
    draft.put(b"0 ");
    put_pair(draft, stop.leg as u64, stop.outline as u64, b' ');
    draft.put(&[letter_of(status), b' ']);
    put_contact(draft, contact);
    draft.put_number(stop.calls as u64, b'\n');
}

fn put_refused(draft: &mut Draft<'_>, stop: Stop, number: u32)
    requires { Room Answer.longest_line draft.old }
    ensures { Wrote Answer.longest_line draft.old (Answer.refused_line stop number) draft.new }
{
    put_pair(draft, number as u64, stop.leg as u64, b' ');
    put_pair(draft, stop.outline as u64, stop.calls as u64, b'\n');
}

fn put_answer(draft: &mut Draft<'_>, answer: RouteAnswer)
    requires { Room Answer.longest_line draft.old }
    ensures { Wrote Answer.longest_line draft.old (Answer.answer_line answer) draft.new }
{
    match answer {
        RouteAnswer::Clear(calls) => put_clear(draft, calls),
        RouteAnswer::Ended(stop, status, contact) => put_ended(draft, stop, status, contact),
        RouteAnswer::Refused(stop, number) => put_refused(draft, stop, number),
        RouteAnswer::Wrong(number) => draft.put_number(number as u64, b'\n'),
    }
}

// The line of what was read, at the start of out, and its length; nothing where out has fewer bytes than the longest.
pub fn write_answer(reader: Reader, floats: &[f32], lengths: &[u32], out: &mut [u8]) -> usize
    ensures { Put out.old 0 (Answer.text_for reader floats.now lengths.now (length out.old))
        out.new result }
{
    if out.len() < LONGEST_LINE {
        return 0;
    }
    let mut draft = Draft { bytes: out, at: 0 };
    if !route_line::is_route(reader.line) {
        put_pair(
            &mut draft,
            NO_ROUTE,
            route_read::next_line(reader.lines),
            b'\n',
        );
        return draft.at;
    }
    put_answer(&mut draft, route_of(reader.kept, floats, lengths));
    draft.at
}
