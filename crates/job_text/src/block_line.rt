// The check of a block by form 1, and the line of one that passes.
ghost use Rattle.std.specs.Prelude.{◌≡◌, ◌+◌, ◌*◌, ◌≤◌, length};
ghost use Rattle.model.specs.Wire.{byte, word};
ghost use Rattle.text.specs.Put.{Put, hex};
ghost use Rattle.text.specs.Written.{Room, Wrote};
ghost use Rattle.job_text.specs.Job.{place_of, words_of, job_line, longest_line, line_for, plain_block};
ghost use Rattle.job_text.specs.Pieces.{spaced, head_of};

use model::{Block, BlockRefusal};
use text::Draft;

// No job's line is longer.
const LONGEST_LINE: usize = 855;

// As `sheet` reads it where byte 6 is 0; else refused, by the sum of form 1.
pub fn check_plain(bytes: &[u8]) -> Result<Block, BlockRefusal>
    ensures { result ≡ plain_block bytes.now }
{
    if wire::byte(bytes, 6) == 0 {
        return block::check_block(bytes);
    }
    if block::sum_of_words(bytes) == 0xffff_ffff {
        let job = wire::word(bytes, 0);
        return Err(BlockRefusal { job, number: 11 });
    }
    Err(BlockRefusal { job: 0, number: 10 })
}

// Where word j of the line stands.
fn place_of(a: usize, j: usize) -> usize
    requires { (a ≤ 16) × (j ≤ 88) }
    ensures { result ≡ place_of a j }
{
    if j < 24 {
        return 8 + 4 * j;
    }
    if j < 24 + 2 * a {
        return 104 + 4 * (j - 24);
    }
    232 + 4 * (j - (24 + 2 * a))
}

// Word j of the line, and a byte after it.
fn put_field(draft: &mut Draft<'_>, block: &[u8], j: usize, end: u8)
    requires { Room 9 draft.old × (byte block.now 4 ≤ 16) × (j ≤ 88) }
    ensures { Wrote 9 draft.old (hex (word block.now (place_of (byte block.now 4) j)) end) draft.new }
{
    let a = wire::byte(block, 4) as usize;
    draft.put_hex(wire::word(block, place_of(a, j)), end);
}

// The first n words of the line, and a blank after each.
fn put_fields(draft: &mut Draft<'_>, block: &[u8], n: usize)
    requires { Room (9 * n) draft.old × (byte block.now 4 ≤ 16) × (n ≤ 88) }
    ensures { Wrote (9 * n) draft.old (spaced (words_of block.now n)) draft.new }
{
    for j in 0..n {
        put_field(draft, block, j, b' ');
    }
}

// The numbers before the words, and a blank after each.
fn put_head(draft: &mut Draft<'_>, block: &[u8])
    requires { Room 63 draft.old }
    ensures { Wrote 63 draft.old (head_of block.now) draft.new }
{
    draft.put_number(wire::word(block, 0) as u64, b' ');
    draft.put_number(wire::byte(block, 4) as u64, b' ');
    draft.put_number(wire::byte(block, 5) as u64, b' ');
}

// The line of a block that passes.
pub fn put_line(draft: &mut Draft<'_>, block: &[u8])
    requires { Room longest_line draft.old × (byte block.now 4 ≤ 16) × (byte block.now 5 ≤ 16) }
    ensures { Wrote longest_line draft.old (job_line block.now) draft.new }
{
    let last = 23 + 2 * wire::byte(block, 4) as usize + 2 * wire::byte(block, 5) as usize;
    put_head(draft, block);
    put_fields(draft, block, last);
    put_field(draft, block, last, b'\n');
}

// The same where the counts are those of outlines and there is room for the longest line; else nothing is written, and the place stays.
pub fn put_job(out: &mut [u8], at: usize, block: &[u8]) -> usize
    ensures { Put out.old at (line_for block.now at (length out.old)) out.new result }
{
    if wire::byte(block, 4) > 16 {
        return at;
    }
    if wire::byte(block, 5) > 16 {
        return at;
    }
    if out.len() < LONGEST_LINE {
        return at;
    }
    if out.len() - LONGEST_LINE < at {
        return at;
    }
    let mut draft = Draft { bytes: out, at };
    put_line(&mut draft, block);
    draft.at
}
