// The lines of a part of the input, and after the last part the totals.
ghost use Rattle.std.specs.Prelude.{◌≡◌, ◌+◌, ◌*◌, ◌/◌, length};
ghost use Rattle.model.specs.Block.{block_size};
ghost use Rattle.model.specs.Blocks.{whole_blocks, short_rest};
ghost use Rattle.model.specs.Parts.{count_limit};
ghost use Rattle.text.specs.Written.{Room, Wrote};
ghost use Rattle.clearance_lines.specs.Lines.{longest_line, line_of};
ghost use Rattle.clearance_lines.specs.Lines as Printed;
ghost use Rattle.clearance_lines.specs.Part.{Below, Worked, PartWorked};
ghost use Rattle.clearance_lines.specs.Part as Part;

use crate::count::{countable, counted};
use crate::write::{put_answer, put_total};
use clearance_block::{BlockCleared, clear_block};
use model::{PART_SIZE, Totals};
use text::Draft;

// No line is longer.
const LONGEST_LINE: usize = 120;

// The place after what was written, the totals after it, and whether the part was the last. Both hold either way, so it is no Option.
#[derive(Clone, Copy)]
pub struct Written {
    pub at: usize,
    pub totals: Totals,
    pub last: bool,
}

// The line of one answer more, whose number follows those counted before, and the totals after it.
fn write_answer(draft: &mut Draft<'_>, t: Totals, a: BlockCleared) -> Totals
    requires { Room longest_line draft.old × Below 0xffff_ffff_ffff_ffff t }
    ensures line { Wrote longest_line draft.old (line_of (t.blocks + 1) a) draft.new }
    ensures totals_value { result ≡ Printed.counted t a.answer }
{
    put_answer(draft, t.blocks + 1, a);
    counted(t, a.answer)
}

// The lines of the whole blocks of a part, each from its own 512 bytes, with the totals carried on. One walk for all crates of lines would take each
// crate's answers, lines and totals as a trait with a law for each step: that is longer than the loop.
fn write_blocks(part: &[u8], draft: &mut Draft<'_>, t: Totals) -> Totals
    requires { Room (longest_line * (length part.now / block_size)) draft.old × Below count_limit t }
    ensures worked { Worked (longest_line * (length part.now / block_size)) t
        (whole_blocks (length part.now / block_size) part.now) draft.old draft.new result }
    ensures bound { Below (count_limit + length part.now / block_size) result }
{
    let mut totals = t;
    for block in part.chunks_exact(512) {
        let answer = clear_block(block);
        totals = write_answer(draft, totals, answer);
    }
    totals
}

// The line of a rest of fewer bytes than a block, where there is one.
fn write_rest(part: &[u8], draft: &mut Draft<'_>, t: Totals) -> Totals
    requires { Room longest_line draft.old × Below 0xffff_ffff_ffff_ffff t }
    ensures { Worked longest_line t (short_rest part.now) draft.old draft.new result }
{
    if part.len() % 512 == 0 {
        return t;
    }
    let from = 512 * (part.len() / 512);
    let answer = clear_block(&part[from..]);
    write_answer(draft, t, answer)
}

// Whether there is room for a line of each block, of a rest and of the totals, and the totals can be counted on.
fn fits(size: usize, room: usize, t: Totals) -> bool
    ensures { result ≡ Part.fits size room t }
{
    (size / 512 + 2 <= room / LONGEST_LINE) & countable(t)
}

// Works a part of the input: its lines from the start of out on, and where it is shorter than a whole part, and so the last, the totals too.
// Where there is no room nothing is written, and the run is over.
pub fn write_part(part: &[u8], out: &mut [u8], t: Totals) -> Written
    ensures { PartWorked t part.now out.old out.new result }
{
    if !fits(part.len(), out.len(), t) {
        return Written {
            at: 0,
            totals: t,
            last: true,
        };
    }
    let mut draft = Draft { bytes: out, at: 0 };
    let blocks = write_blocks(part, &mut draft, t);
    let totals = write_rest(part, &mut draft, blocks);
    if part.len() < PART_SIZE {
        put_total(&mut draft, totals);
        return Written {
            at: draft.at,
            totals,
            last: true,
        };
    }
    Written {
        at: draft.at,
        totals,
        last: false,
    }
}
