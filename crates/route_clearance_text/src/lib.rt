// The answer of a route that was read as text and looked at as a whole, as a line.
#![tactic(auto)]

ghost use Rattle.text.specs.Written.{Room, Wrote};
ghost use Rattle.route_text.specs.Answer as Route;
ghost use Rattle.route_clearance_text.specs.Answer as Answer;

use places::place_bits;
use route_clearance_legs::{End, RouteCleared};
use route_read::{Kept, Reader};
use route_text::cuts_of;
use text::Draft;

// No line is longer.
const LONGEST_LINE: usize = 128;

// A text that is no route.
const NO_ROUTE: u64 = 14;

// The route that the kept numbers and lengths stand for.
fn route_of(kept: Kept, floats: &[f32], lengths: &[u32]) -> RouteCleared
    ensures { Answer.ToldOf kept floats.now lengths.now result }
{
    let cuts = cuts_of(kept, floats.len(), lengths.len());
    let first = outline::point(floats, 0);
    route_clearance_legs::route_clearance(
        &floats[cuts.start..cuts.cart],
        &floats[cuts.cart..cuts.whole],
        &floats[cuts.ways..cuts.used],
        &lengths[..cuts.outlines],
        first.x,
    )
}

// Two numbers with a blank between, and a byte after them.
fn put_pair(draft: &mut Draft<'_>, a: u64, b: u64, end: u8)
    requires { Room 42 draft.old }
    ensures { Wrote 42 draft.old (Route.two a b end) draft.new }
{
    draft.put_number(a, b' ');
    draft.put_number(b, end);
}

// A place on a leg as the f32 that it is, and a blank.
fn put_place(draft: &mut Draft<'_>, k: u64)
    requires { Room 9 draft.old }
    ensures { Wrote 9 draft.old (Answer.place k) draft.new }
{
    draft.put_hex(place_bits(k), b' ');
}

// 0, the leg and the outline.
fn put_where(draft: &mut Draft<'_>, end: End)
    requires { Room 44 draft.old }
    ensures { Wrote 44 draft.old (Answer.where_told end) draft.new }
{
    draft.put(b"0 ");
    put_pair(draft, end.leg as u64, end.outline as u64, b' ');
}

fn put_clear(draft: &mut Draft<'_>, pieces: u64)
    requires { Room Answer.longest_line draft.old }
    ensures { Wrote Answer.longest_line draft.old (Answer.clear_line pieces) draft.new }
{
    draft.put(b"0 CLEAR ");
    draft.put_number(pieces, b'\n');
}

fn put_touch(draft: &mut Draft<'_>, end: End, clear_up_to: u64, within_by: u64)
    requires { Room Answer.longest_line draft.old }
    ensures { Wrote Answer.longest_line draft.old (Answer.touch_line end clear_up_to within_by) draft.new }
{
    put_where(draft, end);
    draft.put(b"TOUCH ");
    put_place(draft, clear_up_to);
    put_place(draft, within_by);
    draft.put_number(end.pieces, b'\n');
}

fn put_open(draft: &mut Draft<'_>, end: End, clear_up_to: u64)
    requires { Room Answer.longest_line draft.old }
    ensures { Wrote Answer.longest_line draft.old (Answer.open_line end clear_up_to) draft.new }
{
    put_where(draft, end);
    draft.put(b"OPEN ");
    put_place(draft, clear_up_to);
    draft.put_number(end.pieces, b'\n');
}

fn put_refused(draft: &mut Draft<'_>, end: End, number: u32)
    requires { Room Answer.longest_line draft.old }
    ensures { Wrote Answer.longest_line draft.old (Answer.refused_line end number) draft.new }
{
    put_pair(draft, number as u64, end.leg as u64, b' ');
    put_pair(draft, end.outline as u64, end.pieces, b'\n');
}

fn put_answer(draft: &mut Draft<'_>, answer: RouteCleared)
    requires { Room Answer.longest_line draft.old }
    ensures { Wrote Answer.longest_line draft.old (Answer.answer_line answer) draft.new }
{
    match answer {
        RouteCleared::Clear { pieces } => put_clear(draft, pieces),
        RouteCleared::Touch {
            end,
            clear_up_to,
            within_by,
        } => put_touch(draft, end, clear_up_to, within_by),
        RouteCleared::Open { end, clear_up_to } => put_open(draft, end, clear_up_to),
        RouteCleared::Refused { end, number } => put_refused(draft, end, number),
        RouteCleared::Wrong(number) => draft.put_number(number as u64, b'\n'),
    }
}

// A line of what was read, at the start of out, and its length; nothing where out has fewer bytes than the longest.
pub fn write_answer(reader: Reader, floats: &[f32], lengths: &[u32], out: &mut [u8]) -> usize
    ensures { Answer.Written reader floats.now lengths.now out.old out.new result }
{
    if out.len() < LONGEST_LINE {
        return 0;
    }
    let mut draft = Draft { bytes: out, at: 0 };
    if !route_line::is_route(reader.line) {
        put_pair(
            &mut draft,
            NO_ROUTE,
            route_read::next_line(reader.lines),
            b'\n',
        );
        return draft.at;
    }
    put_answer(&mut draft, route_of(reader.kept, floats, lengths));
    draft.at
}
