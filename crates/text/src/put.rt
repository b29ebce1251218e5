// Pieces of a text, each from a place on; the answer is the place after it. Nothing is written where there is no room, and the place stays.
ghost use Rattle.std.specs.Prelude.{◌+◌, length};
ghost use Rattle.text.specs.Put.{Put, where_room, number, hex, wide_hex};

use crate::copied::{copy, copy_number, hex_digits, lacks};

// A text as it stands.
pub fn put_text(out: &mut [u8], at: usize, text: &[u8]) -> usize
    ensures { Put out.old at (where_room (at + length text.now) (length out.old) text.now)
        out.new result }
{
    if lacks(out.len(), at, text.len()) {
        return at;
    }
    copy(out, at, text)
}

// A number in decimal digits, and a byte after it, where there is room for the longest.
pub fn put_number(out: &mut [u8], at: usize, n: u64, end: u8) -> usize
    ensures { Put out.old at (where_room (at + 21) (length out.old) (number n end)) out.new result }
{
    if lacks(out.len(), at, 21) {
        return at;
    }
    copy_number(out, at, n, end)
}

// A word in eight hexadecimal digits, and a byte after it.
pub fn put_hex(out: &mut [u8], at: usize, n: u32, end: u8) -> usize
    ensures { Put out.old at (where_room (at + 9) (length out.old) (hex n end)) out.new result }
{
    let digits = hex_digits(n, end);
    if lacks(out.len(), at, 9) {
        return at;
    }
    copy(out, at, &digits)
}

// A long word in sixteen hexadecimal digits, eight for each half, and a byte after it.
pub fn put_wide_hex(out: &mut [u8], at: usize, n: u64, end: u8) -> usize
    ensures { Put out.old at (where_room (at + 17) (length out.old) (wide_hex n end)) out.new result }
{
    let upper = hex_digits((n / 4294967296) as u32, end);
    let lower = hex_digits((n % 4294967296) as u32, end);
    if lacks(out.len(), at, 17) {
        return at;
    }
    let half = copy(out, at, &upper[..8]);
    copy(out, half, &lower)
}
