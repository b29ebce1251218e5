// Whole lines: an answer's, and the last.
ghost use Rattle.model.specs.Sheet.{total_line};
ghost use Rattle.text.specs.Written.{Room, Wrote};
ghost use Rattle.clearance_lines.specs.Lines.{longest_line, line_of};
ghost use Rattle.clearance_lines.specs.Pieces.{answer_room, clear_text, touch_text, open_text, answer_text};

use crate::put::{put_place, put_two};
use clearance_block::BlockCleared;
use clearance_call::Cleared;
use model::Totals;
use text::Draft;

fn put_clear(draft: &mut Draft<'_>, pieces: u64)
    requires { Room answer_room draft.old }
    ensures { Wrote answer_room draft.old (clear_text pieces) draft.new }
{
    draft.put(b"0 CLEAR ");
    draft.put_number(pieces, b'\n');
}

fn put_touch(draft: &mut Draft<'_>, u: u64, t: u64, pieces: u64)
    requires { Room answer_room draft.old }
    ensures { Wrote answer_room draft.old (touch_text u t pieces) draft.new }
{
    draft.put(b"0 TOUCH ");
    put_place(draft, u);
    put_place(draft, t);
    draft.put_number(pieces, b'\n');
}

fn put_open(draft: &mut Draft<'_>, u: u64, pieces: u64)
    requires { Room answer_room draft.old }
    ensures { Wrote answer_room draft.old (open_text u pieces) draft.new }
{
    draft.put(b"0 OPEN ");
    put_place(draft, u);
    draft.put_number(pieces, b'\n');
}

// What stands behind the job.
fn put_told(draft: &mut Draft<'_>, answer: Cleared)
    requires { Room answer_room draft.old }
    ensures { Wrote answer_room draft.old (answer_text answer) draft.new }
{
    match answer {
        Cleared::Refused(number) => draft.put_number(number as u64, b'\n'),
        Cleared::Clear { pieces } => put_clear(draft, pieces),
        Cleared::Touch {
            clear_up_to,
            within_by,
            pieces,
        } => put_touch(draft, clear_up_to, within_by, pieces),
        Cleared::Open {
            clear_up_to,
            pieces,
        } => put_open(draft, clear_up_to, pieces),
    }
}

// The line of block n.
pub fn put_answer(draft: &mut Draft<'_>, n: u64, a: BlockCleared)
    requires { Room longest_line draft.old }
    ensures { Wrote longest_line draft.old (line_of n a) draft.new }
{
    put_two(draft, n, a.job as u64);
    put_told(draft, a.answer);
}

// The last line.
pub fn put_total(draft: &mut Draft<'_>, t: Totals)
    requires { Room longest_line draft.old }
    ensures { Wrote longest_line draft.old (total_line t) draft.new }
{
    draft.put(b"TOTAL ");
    put_two(draft, t.blocks, t.clear);
    put_two(draft, t.contact, t.undecided);
    draft.put_number(t.refused, b'\n');
}
