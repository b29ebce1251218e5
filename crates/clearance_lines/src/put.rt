// Pieces of a line.
ghost use Rattle.text.specs.Written.{Room, Wrote};
ghost use Rattle.clearance_lines.specs.Pieces.{two, place};

use places::place_bits;
use text::Draft;

// Two numbers, and a blank after each.
pub fn put_two(draft: &mut Draft<'_>, a: u64, b: u64)
    requires { Room 42 draft.old }
    ensures { Wrote 42 draft.old (two a b) draft.new }
{
    draft.put_number(a, b' ');
    draft.put_number(b, b' ');
}

// A place on the way as an f32, and a blank.
pub fn put_place(draft: &mut Draft<'_>, k: u64)
    requires { Room 9 draft.old }
    ensures { Wrote 9 draft.old (place k) draft.new }
{
    draft.put_hex(place_bits(k), b' ');
}
