// The first contact of a batch: found part by part, and told as a number or `none`.
#![tactic(auto)]

ghost use Rattle.std.specs.Prelude.{◌≡◌, ◌/◌, ◌<◌, length};
ghost use Rattle.std.specs.Float.{binary32};
ghost use Rattle.model.specs.Block.{block_size};
ghost use Rattle.model.specs.Sheet.{whole_answers};
ghost use Rattle.text.specs.Put.{Put};
ghost use Rattle.model.specs.Parts.{count_limit};
ghost use Rattle.any_contact_search.specs.First.{touches, is_contact, first_from};
ghost use Rattle.any_contact_search.specs.Search.{searched, text_in};

use model::{BlockAnswer, COUNT_LIMIT, PART_SIZE, Status};

// A number of 20 digits and a newline.
const LONGEST_TEXT: usize = 21;

// The number of the first contact, 0 where none was found; how many whole blocks came up to the part's end; whether the search is over.
#[derive(Clone, Copy)]
pub struct Searched {
    // A number, and no Option: `FirstContact` says what 0 and every other number mean.
    pub found: u64,
    pub blocks: u64,
    pub over: bool,
}

// H and O are contact; S counts as clear, and F is no verdict.
fn touching(status: Status) -> bool
    ensures { result ≡ touches status }
{
    matches!(status, Status::Overlapped | Status::Hit)
}

// A refused block is passed over.
fn is_contact(answer: BlockAnswer) -> bool
    ensures { result ≡ is_contact answer }
{
    match answer {
        Ok(worked) => touching(worked.verdict.status),
        Err(_) => false,
    }
}

// The number of the first contact among the whole blocks of a part, with so many blocks before it; none is worked behind it.
fn search_blocks(part: &[u8], before: u64) -> u64
    requires { before < count_limit }
    ensures { result ≡ first_from before (whole_answers binary32 (length part.now / block_size) part.now) }
{
    let mut n = before;
    for block in part.chunks_exact(512) {
        n += 1;
        if is_contact(work::answer_block(block)) {
            return n;
        }
    }
    0
}

// Searches a part of the input, with so many blocks before it. It is over where a contact was found, or the part is shorter than a whole one, and
// so the last.
pub fn search_part(part: &[u8], before: u64) -> Searched
    ensures { result ≡ searched before part.now }
{
    if before >= COUNT_LIMIT {
        return Searched {
            found: 0,
            blocks: before,
            over: true,
        };
    }
    let found = search_blocks(part, before);
    let blocks = before + (part.len() / 512) as u64;
    if found == 0 {
        return Searched {
            found,
            blocks,
            over: part.len() < PART_SIZE,
        };
    }
    Searched {
        found,
        blocks,
        over: true,
    }
}

// The text that tells a number, at the start of out, and its length; nothing where out has fewer bytes than the longest.
pub fn write_found(found: u64, out: &mut [u8]) -> usize
    ensures { Put out.old 0 (text_in found (length out.old)) out.new result }
{
    if out.len() < LONGEST_TEXT {
        return 0;
    }
    if found == 0 {
        return text::put_text(out, 0, b"none\n");
    }
    text::put_number(out, 0, found, b'\n')
}
