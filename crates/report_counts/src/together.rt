// Two reports put together.
ghost use Rattle.std.specs.Prelude.{◌≡◌};
ghost use Rattle.report_counts.specs.Report.{together};
ghost use Rattle.report_counts.specs.Report as Specs;

use crate::counting::{ROWS, Report};
use crate::most::{larger_each, moved_each};
use std::num::wrapping_add_u64;

// Row by row.
fn sums(a: [u64; ROWS], b: [u64; ROWS]) -> [u64; ROWS]
    ensures { result ≡ Specs.sums a b }
{
    let mut both = a;
    for (i, n) in b.iter().enumerate() {
        both[i] = wrapping_add_u64(both[i], *n);
    }
    both
}

// The report of a's batches and then b's: sums of the counts, the larger of the maxima, with b's batch numbers moved up by a's batches.
pub fn merge(a: Report, b: Report) -> Report
    ensures { result ≡ together a b }
{
    let counts_a = a.counts;
    let counts_b = b.counts;
    let largest_a = a.largest;
    let largest_b = b.largest;
    let counts = sums(counts_a, counts_b);
    let largest = larger_each(largest_a, moved_each(a.batches, largest_b));
    Report {
        batches: wrapping_add_u64(a.batches, b.batches),
        counts,
        largest,
    }
}
