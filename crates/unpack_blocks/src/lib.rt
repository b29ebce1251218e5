// Blocks to lines, part by part.
#![tactic(auto)]

ghost use Rattle.std.specs.Prelude.{◌≡◌, ◌+◌, ◌≤◌, length};
ghost use Rattle.text.specs.Put.{Put};
ghost use Rattle.job_text.specs.Job.{longest_line};
ghost use Rattle.job_text.specs.Room.{refusal_room};
ghost use Rattle.unpack_blocks.specs.Unpack.{unpacked, refused, lines_of, refusals_of, rest_for, used_blocks, blocks_in};

// How many blocks have passed, and the places after both texts.
#[derive(Clone, Copy)]
pub struct Unpacked {
    pub blocks: u64,
    pub at: usize,
    pub told: usize,
}

// The places after both texts.
#[derive(Clone, Copy)]
struct Places {
    at: usize,
    told: usize,
}

// A block's line, or as block n its refusal.
fn put_block(block: &[u8], n: u64, out: &mut [u8], err: &mut [u8], places: Places) -> Places
    requires { (places.at + longest_line ≤ length out.old) × (places.told + refusal_room ≤ length err.old) }
    ensures { Put out.old places.at (unpacked block.now) out.new result.at
        × Put err.old places.told (refused n block.now) err.new result.told }
{
    match job_text::check_plain(block) {
        Ok(_) => Places {
            at: job_text::put_job(out, places.at, block),
            told: places.told,
        },
        Err(refusal) => Places {
            at: places.at,
            told: job_text::put_refusal(err, places.told, n, refusal.number as u64),
        },
    }
}

// Unpacks as many whole blocks of a part as there is room for if each were written and each refused: lines to the start of out, refusals to the
// start of err, with so many blocks before them.
pub fn unpack_part(part: &[u8], before: u64, out: &mut [u8], err: &mut [u8]) -> Unpacked
    ensures put { Put out.old 0 (lines_of (blocks_in before part.now (length out.old) (length err.old)))
        out.new result.at }
    ensures put_2 { Put err.old 0 (refusals_of before (blocks_in before part.now (length out.old) (length err.old)))
        err.new result.told
        × (result.blocks ≡ before + used_blocks before part.now (length out.old) (length err.old)) }
{
    let n = job_text::used_of(part.len() / 512, out.len() / 855, err.len(), before);
    let used = 512 * n;
    let mut blocks = before;
    let mut places = Places { at: 0, told: 0 };
    for block in part[..used].chunks_exact(512) {
        places = put_block(block, blocks + 1, out, err, places);
        blocks += 1;
    }
    Unpacked {
        blocks,
        at: places.at,
        told: places.told,
    }
}

// After the last part: a rest of fewer bytes than a block.
pub fn tell_rest(rest: usize, before: u64, err: &mut [u8]) -> usize
    ensures { Put err.old 0 (rest_for rest before (length err.old)) err.new result }
{
    if rest == 0 {
        return 0;
    }
    job_text::tell_refusal(before, 9, err)
}
