// The tables: what their rows are like, and how they are answered.
ghost use Rattle.std.specs.Prelude.{◌≤◌};

use crate::{blocks, conversions, first_contacts, packed, reports, routes, salvages, unpacked};
use replay_rows::{Counts, RowShape, Width, Words};

fn shape(size: usize, kind: usize, answer: usize, words: usize) -> RowShape
    requires { 1 ≤ size }
    ensures { 1 ≤ result.size }
{
    RowShape {
        size,
        kind,
        answer,
        words,
        width: Width::Word,
    }
}

// What the rows of a table are like; those of a program's cases are all alike. Of an unknown table no part has a row.
fn shape_of(table: u32) -> RowShape
    ensures { 1 ≤ result.size }
{
    match table {
        4 => shape(672, 668, 512, 40),
        5 => shape(4644, 0, 12, 6),
        7..=12 => shape(10912, 0, 8, 4),
        _ => shape(65536, 0, 0, 0),
    }
}

// The answer's words to a row, as row n of its table.
fn answer(table: u32, row: &[u8], n: u64, words: &mut Words) {
    match table {
        4 => blocks::answer(row, n, words),
        5 => first_contacts::answer(row, words),
        7 => conversions::answer(row, words),
        8 => packed::answer(row, words),
        9 => unpacked::answer(row, words),
        10 => salvages::answer(row, words),
        11 => reports::answer(row, words),
        12 => routes::answer(row, words),
        _ => {}
    }
}

// All whole rows of a part.
pub fn replay(part: &[u8], counts: &mut Counts) {
    let table = wire::word(part, 0);
    replay_rows::each_row(part, table, shape_of(table), counts, |before, row, words| {
        answer(table, row, before.wrapping_add(1), words);
    });
}
