// A text read part by part: the line that it is in, and what is kept of those before.
#![tactic(auto)]

ghost use Rattle.std.specs.Prelude.{◌≡◌};
ghost use Rattle.route_read.specs.Read as Read;

use model::COUNT_LIMIT;
use route_line::{AFTER_WORD, BETWEEN, Kind, LAST_DIGIT, Line, MOST_WORDS, line_after};

// How many numbers and how many lengths are kept, and where among the numbers the cart and the waypoints end: places in lent lists that are still written.
#[derive(Clone, Copy)]
pub struct Kept {
    pub used: usize,
    pub cart_end: usize,
    pub way_end: usize,
    pub outlines: usize,
}

// With how many whole lines came.
#[derive(Clone, Copy)]
pub struct Reader {
    pub line: Line,
    pub kept: Kept,
    pub lines: u64,
}

// Before the first byte.
pub fn no_text() -> Reader
    ensures { result ≡ Read.no_text }
{
    let line = Line {
        kind: Kind::Nothing,
        place: BETWEEN,
        value: 0,
        count: 0,
    };
    let kept = Kept {
        used: 0,
        cart_end: 0,
        way_end: 0,
        outlines: 0,
    };
    Reader {
        line,
        kept,
        lines: 0,
    }
}

// Keeps a number where its line has not too many before it and there is a place; the answer is how many are kept then.
fn keep_number(floats: &mut [f32], used: usize, before: u32, x: f32) -> usize
    ensures { (result ≡ Read.one_more_number floats.old used before) × (floats.new ≡ Read.with_number floats.old used before x) }
{
    if before >= MOST_WORDS {
        return used;
    }
    if used >= floats.len() {
        return used;
    }
    floats[used] = x;
    used + 1
}

// Keeps the length of an outline where there is a place.
fn keep_length(lengths: &mut [u32], outlines: usize, n: u32) -> usize
    ensures { (result ≡ Read.one_more_length lengths.old outlines) × (lengths.new ≡ Read.with_length lengths.old outlines n) }
{
    if outlines >= lengths.len() {
        return outlines;
    }
    lengths[outlines] = n;
    outlines + 1
}

// The number that a word stands for is kept where a byte has ended it.
fn used_after(before: Line, line: Line, used: usize, floats: &mut [f32]) -> usize
    ensures { (result ≡ Read.used_after before line used floats.old)
        × (floats.new ≡ Read.numbers_after before line used floats.old) }
{
    if (before.place == LAST_DIGIT) & (line.place == AFTER_WORD) {
        let x = ground::from_bits(line.value);
        return keep_number(floats, used, before.count, x);
    }
    used
}

// The kind of a line that a byte has ended, and else Nothing.
fn ended(line: Line) -> Kind
    ensures { result ≡ Read.ended line }
{
    if line.place == BETWEEN {
        return line.kind;
    }
    Kind::Nothing
}

// The cart ends with its line.
fn cart_end(kind: Kind, used: usize, end: usize) -> usize
    ensures { result ≡ Read.cart_end kind used end }
{
    if matches!(kind, Kind::Cart) {
        used
    } else {
        end
    }
}

// The waypoints end with the last of their lines, and where there is none with the cart.
fn way_end(kind: Kind, used: usize, end: usize) -> usize
    ensures { result ≡ Read.way_end kind used end }
{
    if matches!(kind, Kind::Cart | Kind::At) {
        used
    } else {
        end
    }
}

fn is_still(kind: Kind) -> bool
    ensures { result ≡ Read.is_still kind }
{
    matches!(kind, Kind::Still)
}

// The length of a still outline is kept with the end of its line.
fn outlines_after(kind: Kind, outlines: usize, count: u32, lengths: &mut [u32]) -> usize
    ensures { (result ≡ Read.outlines_after kind outlines lengths.old)
        × (lengths.new ≡ Read.lengths_after kind outlines count lengths.old) }
{
    if is_still(kind) {
        return keep_length(lengths, outlines, count);
    }
    outlines
}

pub fn next_line(lines: u64) -> u64
    ensures { result ≡ Read.next_line lines }
{
    if lines < COUNT_LIMIT {
        lines + 1
    } else {
        lines
    }
}

fn lines_after(place: usize, lines: u64) -> u64
    ensures { result ≡ Read.lines_after place lines }
{
    if place == BETWEEN {
        return next_line(lines);
    }
    lines
}

// One byte more.
fn read_byte(x: u8, reader: Reader, floats: &mut [f32], lengths: &mut [u32]) -> Reader
    ensures { (result ≡ Read.reader_after x reader floats.old lengths.old)
        × (floats.new ≡ Read.floats_after x reader floats.old)
        × (lengths.new ≡ Read.lengths_of x reader lengths.old) }
{
    let before = reader.line;
    let kept = reader.kept;
    let line = line_after(before, x);
    let kind = ended(line);
    let cart = cart_end(kind, kept.used, kept.cart_end);
    let ways = way_end(kind, kept.used, kept.way_end);
    let lines = lines_after(line.place, reader.lines);
    let outlines = outlines_after(kind, kept.outlines, line.count, lengths);
    let used = used_after(before, line, kept.used, floats);
    let now = Kept {
        used,
        cart_end: cart,
        way_end: ways,
        outlines,
    };
    Reader {
        line,
        kept: now,
        lines,
    }
}

// A part of the text, after what was read before it. Numbers and lengths are kept in the lent lists as long as there are places: 4,390 and 33 suffice for
// every text, since more waypoints or outlines than that are refused.
pub fn read_part(part: &[u8], reader: Reader, floats: &mut [f32], lengths: &mut [u32]) -> Reader
    ensures { Read.IsRun (Read.run_over (Read.run reader floats.old lengths.old) part.now)
        result floats.new lengths.new }
{
    let mut after = reader;
    for x in part {
        after = read_byte(*x, after, floats, lengths);
    }
    after
}
