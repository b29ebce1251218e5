// A batch converted part by part: each block that is not refused in the other form, and the numbers of those that are.
#![tactic(auto)]

ghost use Rattle.std.specs.Prelude.{◌≡◌, ◌+◌, ◌*◌, ◌/◌, ◌≤◌, ◌<◌, length};
ghost use Rattle.model.specs.Block.{block_size};
ghost use Rattle.model.specs.Parts.{count_limit};
ghost use Rattle.text.specs.Put.{Put};
ghost use Rattle.convert_forms.specs.Forms.{other_number, other_form};
ghost use Rattle.convert_forms.specs.Convert.{whole_of, file_by, text_by, converted, told_from, file_for, text_for, count_for, last_for};
ghost use Rattle.convert_forms.specs.Convert as Convert;

use model::{COUNT_LIMIT, PART_SIZE};

// How many bytes go to the file, how many are told; how many blocks came up to the part's end; whether the part was the last. All of them hold either way.
#[derive(Clone, Copy)]
pub struct Converted {
    pub file: usize,
    pub text: usize,
    pub blocks: u64,
    pub last: bool,
}

#[derive(Clone, Copy)]
struct Places {
    file: usize,
    text: usize,
}

fn other_number(form: u8) -> u8
    ensures { result ≡ other_number form }
{
    if form == 0 { 2 } else { 0 }
}

// A block in the other form.
fn other_form(bytes: &[u8]) -> [u8; 512]
    requires { length bytes.now ≡ block_size }
    ensures { result ≡ other_form bytes.now }
{
    let mut turned = [0u8; 512];
    turned.copy_from_slice(bytes);
    let form = other_number(turned[6]);
    turned[6] = form;
    let check = 0xffff_ffff - block::sum_before(&turned, form);
    turned[508..].copy_from_slice(&wire::word_bytes(check));
    turned
}

// One block with n before it: in the other form behind what the file has, or its number behind what is told.
fn convert_block(bytes: &[u8], n: u64, file: &mut [u8], text: &mut [u8], at: Places) -> Places
    requires bytes_len { (length bytes.now ≡ block_size) × (n < 0xffff_ffff_ffff_ffff) }
    requires block_size_in_bounds { (at.file + block_size ≤ length file.old) × (at.text + 21 ≤ length text.old) }
    ensures put { Put file.old at.file (file_by bytes.now) file.new result.file }
    ensures put_2 { Put text.old at.text (text_by n bytes.now) text.new result.text }
{
    if block::good(block::check_block(bytes)) {
        let turned = other_form(bytes);
        let end = text::put_text(file, at.file, &turned);
        return Places {
            file: end,
            text: at.text,
        };
    }
    let end = text::put_number(text, at.text, n + 1, b'\n');
    Places {
        file: at.file,
        text: end,
    }
}

// The whole blocks of a part.
fn convert_blocks(part: &[u8], before: u64, file: &mut [u8], text: &mut [u8]) -> Places
    requires { (length part.now ≤ length file.old) × (21 * (length part.now / block_size) ≤ length text.old) × (before < count_limit) }
    ensures put { Put file.old 0 (converted (whole_of part.now)) file.new result.file }
    ensures put_2 { Put text.old 0 (told_from before (whole_of part.now)) text.new result.text }
    ensures text_bound { result.text ≤ 21 * (length part.now / block_size) }
{
    let mut at = Places { file: 0, text: 0 };
    let mut n = before;
    for block in part.chunks_exact(512) {
        at = convert_block(block, n, file, text, at);
        n += 1;
    }
    at
}

// Whether there is room for every block in the file, for a number of each and of a rest in the text, and the blocks can be counted on.
fn fits(size: usize, room: usize, text_room: usize, before: u64) -> bool
    ensures { result ≡ Convert.fits size room text_room before }
{
    (size <= room) & (size / 512 + 1 <= text_room / 21) & (before < COUNT_LIMIT)
}

// Converts a part of the input, with so many blocks before it: the blocks from the start of file on, the numbers of refused ones, a line each, from
// the start of text on. Where there is no room nothing is written, and the run is over.
pub fn convert_part(part: &[u8], before: u64, file: &mut [u8], text: &mut [u8]) -> Converted
    ensures put { Put file.old 0 (file_for before part.now (length file.old) (length text.old))
        file.new result.file
        × Put text.old 0 (text_for before part.now (length file.old) (length text.old))
        text.new result.text }
    ensures blocks_value { (result.blocks ≡ count_for before part.now (length file.old) (length text.old))
        × (result.last ≡ last_for before part.now (length file.old) (length text.old)) }
{
    if !fits(part.len(), file.len(), text.len(), before) {
        return Converted {
            file: 0,
            text: 0,
            blocks: before,
            last: true,
        };
    }
    let at = convert_blocks(part, before, file, text);
    let count = before + (part.len() / 512) as u64;
    let last = part.len() < PART_SIZE;
    if part.len() % 512 == 0 {
        return Converted {
            file: at.file,
            text: at.text,
            blocks: count,
            last,
        };
    }
    let end = text::put_number(text, at.text, count + 1, b'\n');
    Converted {
        file: at.file,
        text: end,
        blocks: count + 1,
        last,
    }
}
