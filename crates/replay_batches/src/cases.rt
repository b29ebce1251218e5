// Rows of a program's cases, from bytes to bytes. A row has its kind and the length of its input; as its answer the lengths of what goes to standard
// output, to standard error and to a second file, and 1; then the input and the three stored texts, one behind another, and zeros.
use replay_rows::{Words, put, put_long};

// Where a row's input starts.
const INPUT: usize = 24;

// A row's input, and what stands behind it.
#[derive(Clone, Copy)]
pub struct Case<'a> {
    pub input: &'a [u8],
    pub rest: &'a [u8],
}

// The case of a row; none where the row is too short.
pub fn split<'a>(row: &'a [u8]) -> Option<Case<'a>> {
    let size = wire::word(row, 4) as usize;
    let (input, rest) = row.get(INPUT..)?.split_at_checked(size)?;
    Some(Case { input, rest })
}

// What stands behind three texts, where those stand in the row one behind another.
fn behind<'a>(rest: &'a [u8], out: &[u8], err: &[u8], file: &[u8]) -> Option<&'a [u8]> {
    rest.strip_prefix(out)?
        .strip_prefix(err)?
        .strip_prefix(file)
}

fn put_length(words: &mut Words, i: usize, text: &[u8]) {
    put_long(words, i, text.len() as u64);
}

impl<'a> Case<'a> {
    // The answer's words: the lengths of the three texts, and 1 where they all stand in the row behind its input.
    pub fn tell(&self, out: &[u8], err: &[u8], file: &[u8], words: &mut Words) {
        put_length(words, 0, out);
        put_length(words, 1, err);
        put_length(words, 2, file);
        put(words, 3, behind(self.rest, out, err, file).is_some() as u32);
    }

    // The same, of texts that stand at the start of their bytes, with no second file.
    pub fn tell_first(&self, out: &[u8], at: usize, err: &[u8], told: usize, words: &mut Words) {
        if let (Some(out), Some(err)) = (out.get(..at), err.get(..told)) {
            self.tell(out, err, b"", words);
        }
    }
}

// The first n bytes of a text behind what stands there already; the answer is the place after them.
pub fn append(out: &mut [u8], at: usize, text: &[u8], n: usize) -> usize {
    match text.get(..n) {
        Some(text) => text::put_text(out, at, text),
        None => at,
    }
}
