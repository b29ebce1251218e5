// What the programs that replay stored answers share: the rows of a part, an answer as words, compared with a row's; counts of rows by table and kind.
#![tactic(auto)]

mod tally;
mod words;

pub use tally::{Counts, nothing, print};
pub use words::{RowShape, Width, Words, long, no_words, put, put_long, put_text, status_number};

// A row's kind. One of kind 0 is padding.
pub fn kind(row: &[u8], shape: RowShape) -> u32 {
    wire::word(row, shape.kind)
}

// Compares a row's stored answer with the one that was worked, as it stands and spoiled on purpose, and counts the row.
pub fn compare(table: u32, shape: RowShape, row: &[u8], words: &Words, counts: &mut Counts) {
    let differs = words::differ(words, shape, row, 0);
    let noticed = words::differ(words, shape, row, 1);
    tally::count(counts, table, kind(row, shape), differs, noticed);
}

// Replays the whole rows of a part of that table. A part starts with four words: the number of the table, how many of its rows came before, and two of 0. A
// closure puts down the answer's words to each row, with so many rows before it; one of kind 0 is padding, and has none. Of rows of no bytes there are none.
pub fn each_row<F: FnMut(u64, &[u8], &mut Words) + Drop>(
    part: &[u8],
    table: u32,
    shape: RowShape,
    counts: &mut Counts,
    mut answer: F,
)
    requires { F.IsAlwaysCallable answer }
{
    let start = 4 * words::bytes(shape.width);
    let mut before = wire::word(part, words::bytes(shape.width)) as u64;
    if (part.len() < start) | (shape.size == 0) {
        return;
    }
    for row in part[start..].chunks_exact(shape.size) {
        if kind(row, shape) != 0 {
            let mut words = no_words();
            answer(before, row, &mut words);
            compare(table, shape, row, &words, counts);
        }
        before = before.wrapping_add(1);
    }
}
