// Pieces of a line.
ghost use Rattle.text.specs.Written.{Room, Wrote};
ghost use Rattle.rooms_lines.specs.Pieces.{two};

use text::Draft;

// Two numbers, a blank after the first and a byte after the second.
pub fn put_two(draft: &mut Draft<'_>, a: u64, b: u64, end: u8)
    requires { Room 42 draft.old }
    ensures { Wrote 42 draft.old (two a b end) draft.new }
{
    draft.put_number(a, b' ');
    draft.put_number(b, end);
}
