// A block from the numbers of a line.
ghost use Rattle.std.specs.Prelude.{◌≡◌, ◌+◌, ◌<◌, ◌≤◌, length};
ghost use Rattle.text.specs.Put.{Put};
ghost use Rattle.job_text.specs.Job.{field, count_at, head_word, point_word, word_at, block_from};
ghost use Rattle.wire.specs.Bytes.{word_bytes};

// The number at a place; 0 where there is none.
fn field_at(numbers: &[u32], k: usize) -> u32
    ensures { result ≡ field numbers.now k }
{
    numbers.get(k).copied().unwrap_or(0)
}

// At most the sixteen points that an outline can have.
fn count_at(numbers: &[u32], k: usize) -> u32
    ensures { (result ≡ count_at numbers.now k) × (result ≤ 16) }
{
    field_at(numbers, k).min(16)
}

fn head_word(numbers: &[u32], i: usize) -> u32
    requires { i < 128 }
    ensures { result ≡ head_word numbers.now i }
{
    if i == 0 {
        return field_at(numbers, 0);
    }
    if i == 1 {
        return count_at(numbers, 1) + 256 * count_at(numbers, 2);
    }
    field_at(numbers, i + 1)
}

fn point_word(numbers: &[u32], p: usize, n: usize, from: usize) -> u32
    requires { (n ≤ 32) × (from ≤ 128) }
    ensures { result ≡ point_word numbers.now p n from }
{
    if p < n {
        field_at(numbers, from + p)
    } else {
        0
    }
}

// Word i of the block, the last excepted.
fn word_at(numbers: &[u32], i: usize) -> u32
    requires { i < 127 }
    ensures { result ≡ word_at numbers.now i }
{
    if i < 26 {
        return head_word(numbers, i);
    }
    let words_a = 2 * count_at(numbers, 1) as usize;
    let words_b = 2 * count_at(numbers, 2) as usize;
    if i < 58 {
        return point_word(numbers, i - 26, words_a, 27);
    }
    point_word(numbers, i - 58, words_b, 27 + words_a)
}

// A word's four bytes from a place on.
fn put_word(block: &mut [u8], at: usize, w: u32) -> usize
    requires { at + 4 ≤ length block.old }
    ensures { Put block.old at (word_bytes w) block.new result }
{
    let bytes = wire::word_bytes(w);
    text::put_text(block, at, &bytes)
}

// The whole block, with its check.
pub fn build_block(numbers: &[u32], block: &mut [u8])
    requires { length block.old ≡ 512 }
    ensures { block.new ≡ block_from numbers.now }
{
    let mut sum: u32 = 0;
    let mut at: usize = 0;
    for i in 0..127 {
        let w = word_at(numbers, i);
        at = put_word(block, at, w);
        sum = std::num::wrapping_add_u32(sum, w);
    }
    put_word(block, at, 0xffff_ffff - sum);
}
