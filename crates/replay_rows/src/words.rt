// An answer as words, and its comparison with the row's.
ghost use Rattle.std.specs.Prelude.{◌<◌, ◌≤◌};

use model::Status;

// How many bytes a word of a file has: four, or eight.
#[derive(Clone, Copy, PartialEq, Eq)]
pub enum Width {
    Word,
    Long,
}

pub fn bytes(width: Width) -> usize
    ensures { result ≤ 8 }
{
    match width {
        Width::Word => 4,
        Width::Long => 8,
    }
}

// What the rows of a table are like: a row's size in bytes, the place of its kind, where its stored answer stands, of how many words, and how wide a word is.
#[derive(Clone, Copy)]
pub struct RowShape {
    pub size: usize,
    pub kind: usize,
    pub answer: usize,
    pub words: usize,
    pub width: Width,
}

// Floats stand by their patterns; unused words are 0.
pub type Words = [u64; 40];

pub fn no_words() -> Words {
    [0u64; 40]
}

pub fn put_long(words: &mut Words, i: usize, word: u64) {
    if i < 40 {
        words[i] = word;
    }
}

pub fn put(words: &mut Words, i: usize, word: u32) {
    put_long(words, i, word as u64);
}

// The words of a text from its start on, so many of them.
pub fn put_text(words: &mut Words, text: &[u8], n: usize) {
    for i in 0..40usize.min(n) {
        words[i] = wire::word(text, 4 * i) as u64;
    }
}

// The kind of a row whose sweep ends like this.
pub fn status_number(s: Status) -> u32 {
    match s {
        Status::Overlapped => 16,
        Status::Hit => 17,
        Status::Separated => 18,
        Status::Failed => 19,
    }
}

fn wide(x: u32) -> u64
    ensures { result < 4294967296 }
{
    x as u64
}

// The word of eight bytes from place k on.
pub fn long(bytes: &[u8], k: usize) -> u64 {
    if bytes.len() <= k {
        return 0;
    }
    let rest = &bytes[k..];
    wide(wire::word(rest, 0)) + 4294967296 * wide(wire::word(rest, 4))
}

// Word i of a row's stored answer.
fn stored(row: &[u8], shape: RowShape, i: usize) -> u64
    requires { (i < 40) × (shape.answer ≤ 65536) }
{
    match shape.width {
        Width::Long => long(row, shape.answer + 8 * i),
        Width::Word => wire::word(row, shape.answer + 4 * i) as u64,
    }
}

// Whether the words are not those of the row's stored answer, the first one of it changed by spoil.
pub fn differ(words: &Words, shape: RowShape, row: &[u8], spoil: u64) -> bool {
    if shape.words > 40 {
        return true;
    }
    if shape.answer > 65536 {
        return true;
    }
    let mut same = stored(row, shape, 0).wrapping_add(spoil) == words[0];
    for i in 1..shape.words {
        same = same & (stored(row, shape, i) == words[i]);
    }
    !same
}
