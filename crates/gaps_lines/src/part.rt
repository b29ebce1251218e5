// The lines of a part of the input, and after the last part the totals.
ghost use Rattle.std.specs.Prelude.{◌≡◌, ◌+◌, ◌*◌, ◌/◌, ◌≤◌, length};
ghost use Rattle.std.specs.Float.{binary32};
ghost use Rattle.model.specs.Block.{block_size, refused};
ghost use Rattle.model.specs.Blocks.{whole_blocks};
ghost use Rattle.model.specs.Parts.{count_limit};
ghost use Rattle.model.specs.Sheet.{refused_line};
ghost use Rattle.model.specs.Work.{block_answer};
ghost use Rattle.text.specs.Put.{Put};
ghost use Rattle.text.specs.Written.{Room, Wrote};
ghost use Rattle.gaps_lines.specs.Gaps.{longest_line, line_by, lines_from, counted, tally_from, total_line};
ghost use Rattle.gaps_lines.specs.Part.{Below, rest_line, rest_tally, text_for, tally_for, last_for};
ghost use Rattle.gaps_lines.specs.Part as Part;

use crate::job::{put_refused, put_worked};
use crate::put::put_two;
use model::COUNT_LIMIT;
use text::Draft;

// So many bytes are a part: 24 blocks. A shorter one is the last.
pub const PART_SIZE: usize = 12288;

// No line is longer.
const LONGEST_LINE: usize = 2400;

// How many blocks there were, and how many of them were refused.
#[derive(Clone, Copy)]
pub struct Tally {
    pub blocks: u64,
    pub refused: u64,
}

// The place after what was written, the tally after it, and whether the part was the last. Both hold either way, so it is no Option.
#[derive(Clone, Copy)]
pub struct Printed {
    pub at: usize,
    pub tally: Tally,
    pub last: bool,
}

// The line of a refused block more, whose number follows those counted before, and the tally after it.
fn write_refused(draft: &mut Draft<'_>, t: Tally, job: u32, number: u32) -> Tally
    requires { Room longest_line draft.old × Below 0xffff_ffff_ffff_ffff t }
    ensures line { Wrote longest_line draft.old (refused_line (t.blocks + 1) job number) draft.new }
    ensures tally_value { result ≡ counted t (refused job number) }
{
    put_refused(draft, t.blocks + 1, job, number);
    Tally {
        blocks: t.blocks + 1,
        refused: t.refused + 1,
    }
}

// The line of one block more.
fn write_block(bytes: &[u8], draft: &mut Draft<'_>, t: Tally) -> Tally
    requires { Room longest_line draft.old × Below 0xffff_ffff_ffff_ffff t }
    ensures line { Wrote longest_line draft.old (line_by binary32 (t.blocks + 1) bytes.now (block_answer binary32 bytes.now)) draft.new }
    ensures tally_value { result ≡ counted t (block_answer binary32 bytes.now) }
{
    let answer = work::answer_block(bytes);
    match answer {
        Ok(worked) => {
            put_worked(draft, t.blocks + 1, worked.job, bytes);
            Tally {
                blocks: t.blocks + 1,
                refused: t.refused,
            }
        }
        Err(refusal) => write_refused(draft, t, refusal.job, refusal.number),
    }
}

// The lines of the whole blocks of a part, each from its own 512 bytes, with the tally carried on. One walk for all crates of lines would take each
// crate's answers, lines and totals as a trait with a law for each step: that is longer than the loop.
fn write_blocks(part: &[u8], draft: &mut Draft<'_>, t: Tally) -> Tally
    requires { Room (longest_line * (length part.now / block_size)) draft.old × Below count_limit t }
    ensures lines { Wrote (longest_line * (length part.now / block_size)) draft.old
        (lines_from binary32 t.blocks (whole_blocks (length part.now / block_size) part.now)) draft.new }
    ensures tally_value { result ≡ tally_from binary32 t (whole_blocks (length part.now / block_size) part.now) }
    ensures bound { Below (count_limit + length part.now / block_size) result }
{
    let mut tally = t;
    for block in part.chunks_exact(512) {
        tally = write_block(block, draft, tally);
    }
    tally
}

// The line of a rest of fewer bytes than a block, where there is one.
fn write_rest(draft: &mut Draft<'_>, t: Tally, rest: usize) -> Tally
    requires { Room longest_line draft.old × Below 0xffff_ffff_ffff_ffff t }
    ensures line { Wrote longest_line draft.old (rest_line t rest) draft.new }
    ensures tally_value { result ≡ rest_tally t rest }
{
    if rest == 0 {
        return t;
    }
    write_refused(draft, t, 0, 9)
}

// The last line.
fn put_total(draft: &mut Draft<'_>, t: Tally)
    requires { Room longest_line draft.old }
    ensures { Wrote longest_line draft.old (total_line t) draft.new }
{
    draft.put(b"TOTAL ");
    put_two(draft, t.blocks, t.refused, b'\n');
}

// Whether there is room for a line of each block, of a rest and of the totals, and the tally can be counted on.
fn fits(size: usize, room: usize, t: Tally) -> bool
    ensures { result ≡ Part.fits size room t }
{
    (size / 512 + 2 <= room / LONGEST_LINE) & (t.blocks < COUNT_LIMIT) & (t.refused < COUNT_LIMIT)
}

// Works a part of the input: its lines from the start of out on, and where it is shorter than a whole part, and so the last, the totals too.
// Where there is no room nothing is written, and the run is over.
pub fn write_part(part: &[u8], out: &mut [u8], t: Tally) -> Printed
    ensures put { Put out.old 0 (text_for t part.now (length out.old)) out.new result.at }
    ensures tally_value { (result.tally ≡ tally_for t part.now (length out.old))
        × (result.last ≡ last_for t part.now (length out.old)) }
{
    if !fits(part.len(), out.len(), t) {
        return Printed {
            at: 0,
            tally: t,
            last: true,
        };
    }
    let mut draft = Draft { bytes: out, at: 0 };
    let blocks = write_blocks(part, &mut draft, t);
    let tally = write_rest(&mut draft, blocks, part.len() % 512);
    if part.len() < PART_SIZE {
        put_total(&mut draft, tally);
        return Printed {
            at: draft.at,
            tally,
            last: true,
        };
    }
    Printed {
        at: draft.at,
        tally,
        last: false,
    }
}
