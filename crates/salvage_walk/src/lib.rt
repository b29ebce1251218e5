// A file walked from its start: each place whose 512 bytes pass is kept as a block, any other is skipped by one byte, and runs of skipped bytes are
// told. It comes in parts; what is left behind the last whole 512 bytes is handed on, to the front of the next part.
#![tactic(auto)]

ghost use Rattle.std.specs.Prelude.{◌≡◌, ◌+◌, ◌*◌, ◌-◌, ◌≤◌, ◌<◌, true, length, take, drop};
ghost use Rattle.model.specs.Block.{block_size};
ghost use Rattle.model.specs.Blocks.{passes};
ghost use Rattle.text.specs.Put.{Put};
ghost use Rattle.salvage_walk.specs.Walk.{bytes_of, step_at, kept_by, kept_bytes, next, after, run_line, told_by, run_lines};
ghost use Rattle.salvage_walk.specs.Part.{steps_in, all_bytes, skipped_on, last_run_for, total_for, SalvagedTo};
ghost use Rattle.salvage_walk.specs.Part as Part;

// Places below this can be counted on through any part without wrapping.
const PLACE_LIMIT: u64 = 0x4000_0000_0000_0000;

// How many blocks were kept, how many bytes were skipped before the present run, and how many in it.
#[derive(Clone, Copy)]
pub struct Walk {
    pub kept: u64,
    pub skipped: u64,
    pub run: u64,
}

// How many bytes go to the file, how many are told, how many are handed on at the start of the buffer; the walk so far; whether there was room. All
// of them hold either way.
#[derive(Clone, Copy)]
pub struct Salvaged {
    pub file: usize,
    pub text: usize,
    pub left: usize,
    pub walk: Walk,
    pub done: bool,
}

// A place in what is at hand, the places after both texts, and the walk.
#[derive(Clone, Copy)]
struct Reached {
    at: usize,
    file: usize,
    text: usize,
    walk: Walk,
}

// Whether the 512 bytes from a place on pass. Bytes that can refuse them at once are looked at before the sum.
fn passes_at(bytes: &[u8], at: usize) -> bool
    requires { at + block_size ≤ length bytes.now }
    ensures { result ≡ passes (take block_size (drop at bytes.now)) }
{
    if bytes[at + 7] != 0 {
        return false;
    }
    if block::bad_count(bytes[at + 4]) {
        return false;
    }
    if block::bad_count(bytes[at + 5]) {
        return false;
    }
    let end = at + 512;
    block::good(block::check_block(&bytes[at..end]))
}

// The line of the present run, where there is one.
fn put_run(text: &mut [u8], at: usize, walk: Walk) -> usize
    requires { (at + 42 ≤ length text.old) × (block_size * walk.kept + walk.skipped < 0x1_0000_0000_0000_0000) }
    ensures { Put text.old at (run_line walk) text.new result }
{
    if walk.run == 0 {
        return at;
    }
    let end = text::put_number(text, at, 512 * walk.kept + walk.skipped, b' ');
    text::put_number(text, end, walk.run, b'\n')
}

// One step on.
fn step(bytes: &[u8], file: &mut [u8], text: &mut [u8], from: Reached) -> Reached
    requires block_size_in_bounds { (from.at + block_size ≤ length bytes.now) × (from.file + block_size ≤ length file.old) × (from.text + 42 ≤ length text.old) }
    requires block_size_bound { block_size * from.walk.kept + from.walk.skipped + from.walk.run + block_size < 0x1_0000_0000_0000_0000 }
    ensures at_value { (result.at ≡ from.at + length (bytes_of (step_at (drop from.at bytes.now))))
        × (result.walk ≡ next from.walk (step_at (drop from.at bytes.now))) }
    ensures put { Put file.old from.file (kept_by (step_at (drop from.at bytes.now))) file.new result.file
        × Put text.old from.text (told_by from.walk (step_at (drop from.at bytes.now))) text.new result.text }
{
    let at = from.at;
    let walk = from.walk;
    if !passes_at(bytes, at) {
        let walk = Walk {
            run: walk.run + 1,
            ..walk
        };
        return Reached {
            at: at + 1,
            walk,
            ..from
        };
    }
    let end = at + 512;
    let file_end = text::put_text(file, from.file, &bytes[at..end]);
    let text_end = put_run(text, from.text, walk);
    let walk = Walk {
        kept: walk.kept + 1,
        skipped: walk.skipped + walk.run,
        run: 0,
    };
    Reached {
        at: end,
        file: file_end,
        text: text_end,
        walk,
    }
}

// As long as 512 bytes are left. The place goes on by one byte or by 512, so that no iterator walks these bytes.
fn walk_on(bytes: &[u8], walk: Walk, file: &mut [u8], text: &mut [u8]) -> Reached
    requires { Part.fits (length bytes.now) (length file.old) (length text.old) walk ≡ true }
    ensures at_value { (result.at ≡ length (all_bytes (steps_in bytes.now))) × (result.walk ≡ after walk (steps_in bytes.now)) }
    ensures put { Put file.old 0 (kept_bytes (steps_in bytes.now)) file.new result.file
        × Put text.old 0 (run_lines walk (steps_in bytes.now)) text.new result.text }
    ensures at_in_bounds { (result.at ≤ length bytes.now) × (length bytes.now < result.at + block_size) }
{
    let mut reached = Reached {
        at: 0,
        file: 0,
        text: 0,
        walk,
    };
    while bytes.len() - reached.at >= 512 {
        reached = step(bytes, file, text, reached);
    }
    reached
}

// Whether so many bytes more can be counted.
fn countable(size: usize, walk: Walk) -> bool
    ensures { result ≡ Part.countable size walk }
{
    (size < PLACE_LIMIT as usize)
        & (walk.kept < PLACE_LIMIT / 512)
        & (walk.skipped < PLACE_LIMIT)
        & (walk.run < PLACE_LIMIT)
}

fn fits(size: usize, room: usize, text_room: usize, walk: Walk) -> bool
    ensures { result ≡ Part.fits size room text_room walk }
{
    (size <= room) & (size / 512 <= text_room / 42) & countable(size, walk)
}

// The bytes from a place on, of which there are few.
fn copy_rest(bytes: &[u8], at: usize) -> [u8; 512]
    requires { (at ≤ length bytes.now) × (length bytes.now < at + block_size) }
    ensures { take (length bytes.now - at) result ≡ drop at bytes.now }
{
    let mut rest = [0u8; 512];
    let left = bytes.len() - at;
    rest[..left].copy_from_slice(&bytes[at..]);
    rest
}

// Walks the first bytes of a buffer that has so many.
fn walk_part(
    buffer: &mut [u8],
    count: usize,
    walk: Walk,
    file: &mut [u8],
    text: &mut [u8],
) -> Salvaged
    requires { count ≤ length buffer.old }
    ensures { SalvagedTo (take count buffer.old) walk buffer.old buffer.new file.old file.new
        text.old text.new result.file result.text result.left result.walk result.done }
{
    if !fits(count, file.len(), text.len(), walk) {
        return Salvaged {
            file: 0,
            text: 0,
            left: 0,
            walk,
            done: false,
        };
    }
    let reached = walk_on(&buffer[..count], walk, file, text);
    let at = reached.at;
    let rest = copy_rest(&buffer[..count], at);
    let left = count - at;
    let end = text::put_text(buffer, 0, &rest[..left]);
    let walk = reached.walk;
    Salvaged {
        file: reached.file,
        text: reached.text,
        left: end,
        walk,
        done: true,
    }
}

// Walks the first bytes of a buffer, at most all: blocks that are kept go to the file from its start on, lines of runs to the text, and what is left
// to the start of the buffer. Where there is no room nothing is written.
pub fn salvage_part(
    buffer: &mut [u8],
    count: usize,
    walk: Walk,
    file: &mut [u8],
    text: &mut [u8],
) -> Salvaged
    ensures { SalvagedTo (take count buffer.old) walk buffer.old buffer.new file.old file.new
        text.old text.new result.file result.text result.left result.walk result.done }
{
    let all = buffer.len();
    if count < all {
        return walk_part(buffer, count, walk, file, text);
    }
    walk_part(buffer, all, walk, file, text)
}

// The walk with so many bytes more skipped.
fn skipped_on(left: usize, walk: Walk) -> Walk
    requires { Part.countable left walk ≡ true }
    ensures { result ≡ skipped_on left walk }
{
    Walk {
        run: walk.run + left as u64,
        ..walk
    }
}

// At the end of the file, with so many bytes left: the line of the last run.
pub fn tell_last_run(left: usize, walk: Walk, text: &mut [u8]) -> usize
    ensures { Put text.old 0 (last_run_for left walk (length text.old)) text.new result }
{
    if text.len() < 42 {
        return 0;
    }
    if !countable(left, walk) {
        return 0;
    }
    put_run(text, 0, skipped_on(left, walk))
}

// And the line of the totals.
pub fn tell_total(left: usize, walk: Walk, text: &mut [u8]) -> usize
    ensures { Put text.old 0 (total_for left walk (length text.old)) text.new result }
{
    if text.len() < 48 {
        return 0;
    }
    if !countable(left, walk) {
        return 0;
    }
    let last = skipped_on(left, walk);
    let word_end = text::put_text(text, 0, b"TOTAL ");
    let kept_end = text::put_number(text, word_end, last.kept, b' ');
    text::put_number(text, kept_end, last.skipped + last.run, b'\n')
}
