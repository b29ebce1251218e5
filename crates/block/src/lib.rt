// The batch block: 512 bytes with a check sum, in one of two forms. Its checks, in the order of their refusals, and what it says of its job beside
// its numbers. A missing byte counts as 0, so every slice has an answer. Sums are taken word by word.
#![tactic(auto)]

ghost use Rattle.std.specs.Prelude.{◌≡◌, ◌+◌, ◌*◌, ◌%◌, ◌^◌, ◌≤◌, length};
ghost use Rattle.model.specs.Block.{block_of, known_form, sum_of_words, weighed_words, sum_before, check_holds, all_zero, bad_count, zeros_hold, bad_fields, checked_block};
ghost use Rattle.model.specs.Blocks.{is_good};
ghost use Rattle.model.specs.Wire.{byte, word};

use model::{Block, BlockRefusal};

// The words before the check, added modulo 2^32.
fn plain_sum(bytes: &[u8]) -> u32
    ensures { result ≡ sum_of_words bytes.now 127 % 2 ^ 32 }
{
    let mut sum: u32 = 0;
    for i in 0..127 {
        sum = sum.wrapping_add(wire::word(bytes, 4 * i));
    }
    sum
}

// A word times its weight.
fn weighed(w: u32, weight: usize) -> u64
    requires { weight ≤ 128 }
    ensures { (result ≡ w * weight) × (result ≤ 549755813888) }
{
    w as u64 * weight as u64
}

// The same with each word times its place, counted from 1.
fn weighed_sum(bytes: &[u8]) -> u64
    ensures { result ≡ weighed_words bytes.now 127 }
{
    let mut sum: u64 = 0;
    for i in 0..127 {
        sum += weighed(wire::word(bytes, 4 * i), i + 1);
    }
    sum
}

// What the words before the check come to in a form, modulo 2^32.
pub fn sum_before(bytes: &[u8], form: u8) -> u32
    ensures { result ≡ sum_before form bytes.now % 2 ^ 32 }
{
    if form == 0 {
        return plain_sum(bytes);
    }
    (weighed_sum(bytes) % 0x1_0000_0000) as u32
}

// All 128 words, the check among them, added modulo 2^32.
pub fn sum_of_words(bytes: &[u8]) -> u32
    ensures { result ≡ sum_of_words bytes.now 128 % 2 ^ 32 }
{
    let sum = sum_before(bytes, 0);
    sum.wrapping_add(wire::word(bytes, 508))
}

// Whether they and the check make FFFFFFFF, in the form that byte 6 says.
fn check_holds(bytes: &[u8]) -> bool
    ensures { result ≡ check_holds bytes.now }
{
    let sum = sum_before(bytes, wire::byte(bytes, 6));
    sum.wrapping_add(wire::word(bytes, 508)) == 0xffff_ffff
}

// Whether n bytes from a place on are 0. All that are there are looked at, so that several are looked at as one.
fn all_zero(bytes: &[u8], from: usize, n: usize) -> bool
    requires { from + n ≤ 512 }
    ensures { result ≡ all_zero bytes.now from n }
{
    let end = (from + n).min(bytes.len());
    if end <= from {
        return true;
    }
    let mut seen: u8 = 0;
    for x in &bytes[from..end] {
        seen |= *x;
    }
    seen == 0
}

// A count that no outline has.
pub fn bad_count(n: u8) -> bool
    ensures { result ≡ bad_count n }
{
    (n == 0) | (n > 16)
}

// The byte after the form, unused points, and all between the points and the check are 0.
fn zeros_hold(bytes: &[u8]) -> bool
    requires { (byte bytes.now 4 ≤ 16) × (byte bytes.now 5 ≤ 16) }
    ensures { result ≡ zeros_hold bytes.now }
{
    let count_a = wire::byte(bytes, 4) as usize;
    let count_b = wire::byte(bytes, 5) as usize;
    (wire::byte(bytes, 7) == 0)
        & all_zero(bytes, 104 + 8 * count_a, 128 - 8 * count_a)
        & all_zero(bytes, 232 + 8 * count_b, 276 - 8 * count_b)
}

// A job of 0, a count outside 1 to 16, or a byte that must be 0 and is not.
fn bad_fields(bytes: &[u8]) -> bool
    ensures { result ≡ bad_fields bytes.now }
{
    if wire::word(bytes, 0) == 0 {
        return true;
    }
    if bad_count(wire::byte(bytes, 4)) {
        return true;
    }
    if bad_count(wire::byte(bytes, 5)) {
        return true;
    }
    !zeros_hold(bytes)
}

fn block_of(bytes: &[u8]) -> Block
    ensures { result ≡ block_of bytes.now }
{
    Block {
        job: wire::word(bytes, 0),
        count_a: wire::byte(bytes, 4) as usize,
        count_b: wire::byte(bytes, 5) as usize,
    }
}

fn known_form(form: u8) -> bool
    ensures { result ≡ known_form form }
{
    (form == 0) | (form == 2)
}

// The block that these bytes are, or the job and the number of its refusal: 13 for a form that is not known, 10 for a wrong check, then 11.
pub fn check_block(bytes: &[u8]) -> Result<Block, BlockRefusal>
    ensures { result ≡ checked_block bytes.now }
{
    if !known_form(wire::byte(bytes, 6)) {
        return Err(BlockRefusal { job: 0, number: 13 });
    }
    if !check_holds(bytes) {
        return Err(BlockRefusal { job: 0, number: 10 });
    }
    if bad_fields(bytes) {
        let job = wire::word(bytes, 0);
        return Err(BlockRefusal { job, number: 11 });
    }
    Ok(block_of(bytes))
}

pub fn good(checked: Result<Block, BlockRefusal>) -> bool
    ensures { result ≡ is_good checked }
{
    checked.is_ok()
}
