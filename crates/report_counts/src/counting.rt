// The report of no batch, of a batch that begins, and of one with an answer more.
ghost use Rattle.std.specs.Prelude.{◌≡◌, ◌<◌, [], ◌∷◌};
ghost use Rattle.report_counts.specs.Rows.{rows_of};
ghost use Rattle.report_counts.specs.Report.{report};
ghost use Rattle.report_counts.specs.Report as Specs;

use crate::most::{Largest, larger_each, nowhere, seen};
use crate::rows::{detail_row, group_row};
use model::BlockAnswer;
use std::num::wrapping_add_u64;

// How many rows there are, batches not among them.
pub const ROWS: usize = 28;

// How many batches there are, how many blocks each row counts, and the largest counts.
#[derive(Clone, Copy)]
pub struct Report {
    pub batches: u64,
    pub counts: [u64; ROWS],
    pub largest: Largest,
}

// The report of no batch.
pub fn empty() -> Report
    ensures { result ≡ report [] }
{
    Report {
        batches: 0,
        counts: [0u64; ROWS],
        largest: nowhere(),
    }
}

// The report of one batch that has no block yet.
pub fn opened() -> Report
    ensures { result ≡ report ([] ∷ []) }
{
    Report {
        batches: 1,
        counts: [0u64; ROWS],
        largest: nowhere(),
    }
}

// One more in a row, if there is such a row.
fn bumped(counts: [u64; ROWS], row: usize) -> [u64; ROWS]
    ensures { result ≡ Specs.bumped row counts }
{
    let mut more = counts;
    if row < ROWS {
        more[row] = wrapping_add_u64(more[row], 1);
    }
    more
}

// One answer more in its rows.
fn in_rows(counts: [u64; ROWS], answer: BlockAnswer) -> [u64; ROWS]
    ensures { result ≡ Specs.bumped_all (rows_of answer) counts }
{
    let blocks = bumped(counts, 0);
    let groups = bumped(blocks, group_row(answer));
    bumped(groups, detail_row(answer))
}

// The report of one batch with one answer more, whose block comes after those counted.
pub fn counted(r: Report, answer: BlockAnswer) -> Report
    ensures { result ≡ Specs.counted r answer }
{
    let before = r.counts;
    let largest = r.largest;
    let block = wrapping_add_u64(before[0], 1);
    let counts = in_rows(before, answer);
    let most = larger_each(largest, seen(block, answer));
    Report {
        batches: r.batches,
        counts,
        largest: most,
    }
}
