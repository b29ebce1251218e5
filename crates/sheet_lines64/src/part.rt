// Written by tests/written/wide.py from sheet_lines, in f64.
// The lines of a part of the input, and after the last part the totals.
ghost use Rattle.std.specs.Prelude.{◌≡◌, ◌+◌, ◌*◌, ◌/◌, ◌≤◌, length};
ghost use Rattle.std.specs.Float.{binary64};
ghost use Rattle.model.specs.Block.{block_size};
ghost use Rattle.model64.specs.Sheet.{answer_line, whole_answers, rest_answer, lines_from, totals_from};
ghost use Rattle.model64.specs.Sheet as Sheet;
ghost use Rattle.text.specs.Put.{Put};
ghost use Rattle.text.specs.Written.{Room, Wrote};
ghost use Rattle.model.specs.Parts.{count_limit};
ghost use Rattle.sheet_lines64.specs.Part.{Below, longest_line, line_for, text_for, totals_for, last_for};
ghost use Rattle.sheet_lines64.specs.Part as Part;

use crate::answer::{countable, counted};
use crate::write::{put_answer, put_total};
use model::{BlockRefusal, PART_SIZE, Totals};
use model64::BlockAnswer;
use text::Draft;

// No line is longer.
const LONGEST_LINE: usize = 280;

// The place after what was written, the totals after it, and whether the part was the last. Both hold either way, so it is no Option.
#[derive(Clone, Copy)]
pub struct Written {
    pub at: usize,
    pub totals: Totals,
    pub last: bool,
}

// The line of an answer as block n, at the start of out, and its length; nothing where out has fewer bytes than the longest line.
pub fn write_line(n: u64, answer: BlockAnswer, out: &mut [u8]) -> usize
    ensures { Put out.old 0 (line_for n answer (length out.old)) out.new result }
{
    if out.len() < LONGEST_LINE {
        return 0;
    }
    let mut draft = Draft { bytes: out, at: 0 };
    put_answer(&mut draft, n, answer);
    draft.at
}

// The line of one answer more, whose number follows those counted before, and the totals after it.
fn write_answer(draft: &mut Draft<'_>, t: Totals, answer: BlockAnswer) -> Totals
    requires { Room longest_line draft.old × Below 0xffff_ffff_ffff_ffff t }
    ensures line { Wrote longest_line draft.old (answer_line binary64 (t.blocks + 1) answer) draft.new }
    ensures totals_value { result ≡ Sheet.counted t answer }
{
    put_answer(draft, t.blocks + 1, answer);
    counted(t, answer)
}

// The lines of the whole blocks of a part, each from its own 512 bytes, with the totals carried on.
fn write_blocks(part: &[u8], draft: &mut Draft<'_>, t: Totals) -> Totals
    requires { Room (longest_line * (length part.now / block_size)) draft.old × Below count_limit t }
    ensures lines { Wrote (longest_line * (length part.now / block_size)) draft.old
        (lines_from binary64 t.blocks (whole_answers binary64 (length part.now / block_size) part.now)) draft.new }
    ensures totals_value { result ≡ totals_from t (whole_answers binary64 (length part.now / block_size) part.now) }
    ensures bound { Below (count_limit + length part.now / block_size) result }
{
    let k = part.len() / 512;
    let mut totals = t;
    for i in 0..k {
        let from = 512 * i;
        let answer = work64::answer_block(&part[from..from + 512]);
        totals = write_answer(draft, totals, answer);
    }
    totals
}

// The line of a rest of fewer bytes than a block, where there is one.
fn write_rest(draft: &mut Draft<'_>, t: Totals, rest: usize) -> Totals
    requires { Room longest_line draft.old × Below 0xffff_ffff_ffff_ffff t }
    ensures lines { Wrote longest_line draft.old (lines_from binary64 t.blocks (rest_answer rest)) draft.new }
    ensures totals_value { result ≡ totals_from t (rest_answer rest) }
{
    if rest == 0 {
        return t;
    }
    write_answer(draft, t, Err(BlockRefusal { job: 0, number: 9 }))
}

// Whether there is room for a line of each block, of a rest and of the totals, and the totals can be counted on.
fn fits(size: usize, room: usize, t: Totals) -> bool
    ensures { result ≡ Part.fits size room t }
{
    (size / 512 + 2 <= room / LONGEST_LINE) & countable(t)
}

// Works a part of the input: its lines from the start of out on, and where it is shorter than a whole part, and so the last, the totals too.
// Where there is no room nothing is written, and the run is over.
pub fn write_part(part: &[u8], out: &mut [u8], t: Totals) -> Written
    ensures put { Put out.old 0 (text_for t part.now (length out.old)) out.new result.at }
    ensures totals_value { (result.totals ≡ totals_for t part.now (length out.old))
        × (result.last ≡ last_for t part.now (length out.old)) }
{
    if !fits(part.len(), out.len(), t) {
        return Written {
            at: 0,
            totals: t,
            last: true,
        };
    }
    let mut draft = Draft { bytes: out, at: 0 };
    let blocks = write_blocks(part, &mut draft, t);
    let totals = write_rest(&mut draft, blocks, part.len() % 512);
    if part.len() < PART_SIZE {
        put_total(&mut draft, totals);
        return Written {
            at: draft.at,
            totals,
            last: true,
        };
    }
    Written {
        at: draft.at,
        totals,
        last: false,
    }
}
