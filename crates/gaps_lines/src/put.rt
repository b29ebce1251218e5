// Pieces of a line.
ghost use Rattle.std.specs.Float.{binary32};
ghost use Rattle.std.specs.Float.Ieee.{to_bits};
ghost use Rattle.text.specs.Put.{hex};
ghost use Rattle.text.specs.Written.{Room, Wrote};
ghost use Rattle.gaps_lines.specs.Pieces.{two};

use text::Draft;

// Two numbers with a blank between, and a byte after them.
pub fn put_two(draft: &mut Draft<'_>, a: u64, b: u64, end: u8)
    requires { Room 42 draft.old }
    ensures { Wrote 42 draft.old (two a b end) draft.new }
{
    draft.put_number(a, b' ');
    draft.put_number(b, end);
}

// A float by its pattern in hexadecimal digits, any NaN as one, and a byte after it.
pub fn put_float(draft: &mut Draft<'_>, x: f32, end: u8)
    requires { Room 9 draft.old }
    ensures { Wrote 9 draft.old (hex (to_bits binary32 x) end) draft.new }
{
    draft.put_hex(ground::to_bits(x), end);
}
