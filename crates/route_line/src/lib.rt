// One line of a route, byte by byte: its name, then words of eight capital hexadecimal digits, a blank before each, and a newline.
#![tactic(auto)]

ghost use Rattle.std.specs.Prelude.{◌≡◌};
ghost use Rattle.route_line.specs.Line as Text;

// The kinds of line in their order; Nothing before the first.
#[derive(Clone, Copy)]
pub enum Kind {
    Nothing,
    Slop,
    Cart,
    At,
    Still,
}

// The line in hand, or between two lines the last one. Place: 0 between lines, 1 to 4 within the name, 5 after the name or a word, 6 to 13 within a
// word, by the digits so far, and 14 where the line is none of a route. Then the word's value so far, and how many words came, at most 129.
#[derive(Clone, Copy)]
pub struct Line {
    pub kind: Kind,
    pub place: usize,
    pub value: u32,
    pub count: u32,
}

pub const BETWEEN: usize = 0;

pub const AFTER_WORD: usize = 5;

pub const FIRST_DIGIT: usize = 6;

pub const LAST_DIGIT: usize = 13;

const NO_LINE: usize = 14;

// More words than an outline can have.
pub const MOST_WORDS: u32 = 129;

fn at_or_still(x: u8) -> Kind
    ensures { result ≡ Text.at_or_still x }
{
    if x == b'A' { Kind::At } else { Kind::Still }
}

// The kind of the line after one, by its first byte.
fn next_kind(last: Kind, x: u8) -> Kind
    ensures { result ≡ Text.next_kind last x }
{
    match last {
        Kind::Nothing => Kind::Slop,
        Kind::Slop => Kind::Cart,
        Kind::Cart => at_or_still(x),
        Kind::At => at_or_still(x),
        Kind::Still => Kind::Still,
    }
}

fn kind_at(last: Kind, place: usize, x: u8) -> Kind
    ensures { result ≡ Text.kind_at last place x }
{
    if place == BETWEEN {
        return next_kind(last, x);
    }
    last
}

// The place after one byte more of a name.
fn named(name: &[u8], place: usize, x: u8) -> usize
    ensures { result ≡ Text.named name.now place x }
{
    if place >= name.len() {
        return NO_LINE;
    }
    if name[place] != x {
        return NO_LINE;
    }
    if place + 1 == name.len() {
        return AFTER_WORD;
    }
    place + 1
}

fn place_in_name(kind: Kind, place: usize, x: u8) -> usize
    ensures { result ≡ Text.named (Text.name kind) place x }
{
    match kind {
        Kind::Nothing => named(b"", place, x),
        Kind::Slop => named(b"SLOP", place, x),
        Kind::Cart => named(b"CART", place, x),
        Kind::At => named(b"AT", place, x),
        Kind::Still => named(b"STILL", place, x),
    }
}

fn in_name(line: Line, x: u8) -> Line
    ensures { result ≡ Text.in_name line x }
{
    let last = line.kind;
    let kind = kind_at(last, line.place, x);
    let place = place_in_name(kind, line.place, x);
    Line {
        kind,
        place,
        value: 0,
        count: 0,
    }
}

// Whether a line with so many words can have another.
fn takes_word(kind: Kind, count: u32) -> bool
    ensures { result ≡ Text.takes_word kind count }
{
    match kind {
        Kind::Nothing => false,
        Kind::Slop => count < 1,
        Kind::At => count < 4,
        Kind::Cart | Kind::Still => true,
    }
}

// Whether it can end.
fn is_whole(kind: Kind, count: u32) -> bool
    ensures { result ≡ Text.is_whole kind count }
{
    match kind {
        Kind::Nothing => false,
        Kind::Slop => count == 1,
        Kind::At => count == 4,
        Kind::Cart | Kind::Still => true,
    }
}

fn place_if(so: bool, place: usize) -> usize
    ensures { result ≡ Text.place_if so place }
{
    if so { place } else { NO_LINE }
}

fn place_after_word(kind: Kind, count: u32, x: u8) -> usize
    ensures { result ≡ Text.place_after_word kind count x }
{
    if x == b' ' {
        return place_if(takes_word(kind, count), FIRST_DIGIT);
    }
    if x == b'\n' {
        return place_if(is_whole(kind, count), BETWEEN);
    }
    NO_LINE
}

fn after_word(line: Line, x: u8) -> Line
    ensures { result ≡ Text.after_word line x }
{
    let kind = line.kind;
    let place = place_after_word(kind, line.count, x);
    Line {
        kind,
        place,
        value: 0,
        count: line.count,
    }
}

fn one_more(count: u32) -> u32
    ensures { result ≡ Text.one_more count }
{
    if count < MOST_WORDS { count + 1 } else { count }
}

fn next_value(value: u32, digit: u64) -> u32
    ensures { result ≡ Text.next_value value digit }
{
    ((value as u64 * 16 + digit % 16) % 0x1_0000_0000) as u32
}

// The place after a byte within a word.
fn place_in_word(place: usize, digit: u64) -> usize
    ensures { result ≡ Text.place_in_word place digit }
{
    if digit == 16 {
        return NO_LINE;
    }
    if place < LAST_DIGIT {
        return place + 1;
    }
    place_if(place == LAST_DIGIT, AFTER_WORD)
}

// The words of a line after a byte within one.
fn count_in_word(place: usize, count: u32) -> u32
    ensures { result ≡ Text.count_in_word place count }
{
    if place == LAST_DIGIT {
        return one_more(count);
    }
    count
}

fn in_word(line: Line, x: u8) -> Line
    ensures { result ≡ Text.in_word line x }
{
    let kind = line.kind;
    let digit = text::hex_digit(x);
    let place = place_in_word(line.place, digit);
    let value = next_value(line.value, digit);
    let count = count_in_word(line.place, line.count);
    Line {
        kind,
        place,
        value,
        count,
    }
}

// The line with one byte more.
pub fn line_after(line: Line, x: u8) -> Line
    ensures { result ≡ Text.line_after line x }
{
    if line.place < AFTER_WORD {
        return in_name(line, x);
    }
    if line.place == AFTER_WORD {
        return after_word(line, x);
    }
    in_word(line, x)
}

fn has_cart(kind: Kind) -> bool
    ensures { result ≡ Text.has_cart kind }
{
    matches!(kind, Kind::Cart | Kind::At | Kind::Still)
}

// Whether a text that ends here is a route.
pub fn is_route(line: Line) -> bool
    ensures { result ≡ Text.is_route line }
{
    let kind = line.kind;
    (line.place == BETWEEN) & has_cart(kind)
}
