// The first block of a batch that is not proved clear over its whole move: found part by part, and told as a number or `none`.
#![tactic(auto)]

ghost use Rattle.std.specs.Prelude.{◌≡◌, ◌+◌, ◌/◌, ◌<◌, length};
ghost use Rattle.model.specs.Block.{block_size};
ghost use Rattle.model.specs.Blocks.{whole_blocks, blocks};
ghost use Rattle.model.specs.Parts.{count_limit};
ghost use Rattle.text.specs.Put.{Put};
ghost use Rattle.all_clear_search.specs.First.{is_clear, Found};
ghost use Rattle.all_clear_search.specs.Search.{PartSearched, text_in};

use clearance_block::{BlockCleared, clear_block};
use clearance_call::Cleared;
use model::{COUNT_LIMIT, PART_SIZE};

// A number of 20 digits and a newline.
const LONGEST_TEXT: usize = 21;

// The number of the first block that is not clear, 0 where all are; how many blocks came up to the part's end; whether the search is over.
#[derive(Clone, Copy)]
pub struct Searched {
    // A number, and no Option: `Found` says what 0 and every other number mean.
    pub found: u64,
    pub blocks: u64,
    pub over: bool,
}

// TOUCH, OPEN and a refusal do not clear a move.
fn is_clear(answer: Cleared) -> bool
    ensures { result ≡ is_clear answer }
{
    matches!(answer, Cleared::Clear { .. })
}

// Whether a block's answer clears its move.
fn clears(a: BlockCleared) -> bool
    ensures { result ≡ is_clear a.answer }
{
    let answer = a.answer;
    is_clear(answer)
}

// The number of the first that is not clear among the whole blocks of a part, with so many blocks before it; none is looked at behind it. The search
// for a contact finds by what each answer is, this one by what each may be: one search for both would say less of either.
fn search_blocks(part: &[u8], before: u64) -> u64
    requires { before < count_limit }
    ensures { Found before (whole_blocks (length part.now / block_size) part.now) result }
{
    let mut n = before;
    for block in part.chunks_exact(512) {
        n += 1;
        if !clears(clear_block(block)) {
            return n;
        }
    }
    0
}

// The same among all its blocks: a short rest is refused.
fn search_all(part: &[u8], before: u64) -> u64
    requires { before < count_limit }
    ensures { Found before (blocks part.now) result }
{
    let found = search_blocks(part, before);
    if found > 0 {
        return found;
    }
    if part.len() % 512 == 0 {
        return 0;
    }
    before + (part.len() / 512) as u64 + 1
}

// How many blocks a part has, a short rest being one.
fn count(part: &[u8]) -> u64
    ensures { (result ≡ length (blocks part.now)) × (result < count_limit) }
{
    let whole = (part.len() / 512) as u64;
    if part.len() % 512 == 0 {
        return whole;
    }
    whole + 1
}

// Searches a part of the input, with so many blocks before it. It is over where a block is not clear, or the part is shorter than a whole one, and
// so the last. Where no more can be counted nothing is looked at or told.
pub fn search_part(part: &[u8], before: u64) -> Searched
    ensures { PartSearched before part.now result }
{
    if before >= COUNT_LIMIT {
        return Searched {
            found: 0,
            blocks: 0,
            over: true,
        };
    }
    let found = search_all(part, before);
    let blocks = before + count(part);
    Searched {
        found,
        blocks,
        over: (found > 0) | (part.len() < PART_SIZE),
    }
}

// The text that tells a number, at the start of out, and its length; nothing where no block came, or out has fewer bytes than the longest.
pub fn write_found(found: u64, blocks: u64, out: &mut [u8]) -> usize
    ensures { Put out.old 0 (text_in found blocks (length out.old)) out.new result }
{
    if out.len() < LONGEST_TEXT {
        return 0;
    }
    if found > 0 {
        return text::put_number(out, 0, found, b'\n');
    }
    if blocks == 0 {
        return 0;
    }
    text::put_text(out, 0, b"none\n")
}
