// Pieces of a line.
ghost use Rattle.text.specs.Written.{Room, Wrote};
ghost use Rattle.sheet_lines.specs.Pieces.{three, corner, pair_text, corners_text};

use model::{Corners, NO_CORNER, SupportPair};
use text::Draft;

// Three numbers with a blank between, and a byte after them.
pub fn put_three(draft: &mut Draft<'_>, a: u64, b: u64, c: u64, end: u8)
    requires { Room 63 draft.old }
    ensures { Wrote 63 draft.old (three a b c end) draft.new }
{
    draft.put_number(a, b' ');
    draft.put_number(b, b' ');
    draft.put_number(c, end);
}

// The number of a corner, or - where there is none, and a byte after it.
fn put_corner(draft: &mut Draft<'_>, i: u32, end: u8)
    requires { Room 21 draft.old }
    ensures { Wrote 21 draft.old (corner i end) draft.new }
{
    if i == NO_CORNER {
        draft.put(&[b'-', end]);
        return;
    }
    draft.put_number(i as u64, end);
}

// Both corners of a side, and a byte after them.
fn put_pair(draft: &mut Draft<'_>, p: SupportPair, end: u8)
    requires { Room 42 draft.old }
    ensures { Wrote 42 draft.old (pair_text p end) draft.new }
{
    put_corner(draft, p.first, b' ');
    put_corner(draft, p.second, end);
}

// The corners of A and of B, and a newline.
pub fn put_corners(draft: &mut Draft<'_>, k: Corners)
    requires { Room 84 draft.old }
    ensures { Wrote 84 draft.old (corners_text k) draft.new }
{
    put_pair(draft, k.a, b' ');
    put_pair(draft, k.b, b'\n');
}
