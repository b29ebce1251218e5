// Whole lines: an answer's, and the last.
ghost use Rattle.std.specs.Float.{binary32};
ghost use Rattle.model.specs.Sheet.{worked_line, answer_line, total_line};
ghost use Rattle.text.specs.Written.{Room, Wrote};
ghost use Rattle.sheet_lines.specs.Part.{longest_line};

use crate::put::{put_corners, put_three};
use fields::{letter_of, put_contact};
use model::{BlockAnswer, Totals, Verdict};
use text::Draft;

fn put_worked(draft: &mut Draft<'_>, n: u64, job: u32, v: Verdict)
    requires { Room longest_line draft.old }
    ensures { Wrote longest_line draft.old (worked_line binary32 n job v) draft.new }
{
    draft.put_number(n, b' ');
    draft.put_number(job as u64, b' ');
    draft.put(&[b'0', b' ', letter_of(v.status), b' ']);
    put_contact(draft, v.contact);
    put_three(
        draft,
        v.counts.distance_calls as u64,
        v.counts.searches as u64,
        v.counts.root_steps as u64,
        b' ',
    );
    put_corners(draft, v.corners);
}

// The line of block n.
pub fn put_answer(draft: &mut Draft<'_>, n: u64, answer: BlockAnswer)
    requires { Room longest_line draft.old }
    ensures { Wrote longest_line draft.old (answer_line binary32 n answer) draft.new }
{
    match answer {
        Ok(worked) => put_worked(draft, n, worked.job, worked.verdict),
        Err(refusal) => put_three(draft, n, refusal.job as u64, refusal.number as u64, b'\n'),
    }
}

// The last line.
pub fn put_total(draft: &mut Draft<'_>, t: Totals)
    requires { Room longest_line draft.old }
    ensures { Wrote longest_line draft.old (total_line t) draft.new }
{
    draft.put(b"TOTAL ");
    draft.put_number(t.blocks, b' ');
    draft.put_number(t.clear, b' ');
    put_three(draft, t.contact, t.undecided, t.refused, b'\n');
}
