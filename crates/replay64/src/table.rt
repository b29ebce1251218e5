// The tables: what their rows are like, and how they are answered.
ghost use Rattle.std.specs.Prelude.{◌≤◌};

use crate::pool::Pool;
use crate::{distances, operations, sweeps};
use replay_rows::{Counts, RowShape, Width, Words};

fn shape(size: usize, kind: usize, answer: usize, words: usize) -> RowShape
    requires { 1 ≤ size }
    ensures { 1 ≤ result.size }
{
    RowShape {
        size,
        kind,
        answer,
        words,
        width: Width::Long,
    }
}

// What the rows of a table are like. Of an unknown table no part has a row.
fn shape_of(table: u32) -> RowShape
    ensures { 1 ≤ result.size }
{
    match table {
        1 => shape(128, 0, 72, 4),
        2 => shape(160, 24, 24, 17),
        3 => shape(120, 16, 16, 13),
        _ => shape(65536, 0, 0, 0),
    }
}

fn answer(table: u32, row: &[u8], pool: &Pool, words: &mut Words) {
    match table {
        1 => operations::answer(row, words),
        2 => distances::answer(row, pool, words),
        3 => sweeps::answer(row, pool, words),
        _ => {}
    }
}

// All whole rows of a part.
pub fn replay(part: &[u8], pool: &Pool, counts: &mut Counts) {
    let table = wire::word(part, 0);
    replay_rows::each_row(part, table, shape_of(table), counts, |_, row, words| {
        answer(table, row, pool, words);
    });
}
