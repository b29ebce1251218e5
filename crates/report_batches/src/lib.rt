// Batches worked into a report: a batch part by part, and whole batches that stand in memory.
#![tactic(auto)]

ghost use Rattle.std.specs.Prelude.{◌≡◌, ◌+◌, ◌/◌, ◌%◌, length};
ghost use Rattle.std.specs.Float.{binary32};
ghost use Rattle.model.specs.Block.{block_size};
ghost use Rattle.model.specs.Sheet.{answers, whole_answers, rest_answer};
ghost use Rattle.report_counts.specs.Report.{report, counted_all};
ghost use Rattle.report_batches.specs.Batches.{added, batches_in};

use model::{BlockRefusal, PART_SIZE};
use report_counts::Report;

// A batch's report so far, and whether the part was its last: it holds either way.
#[derive(Clone, Copy)]
pub struct Added {
    pub report: Report,
    pub last: bool,
}

// The answers of the whole blocks of a part counted in.
fn add_blocks(r: Report, part: &[u8]) -> Report
    ensures { result ≡ counted_all r (whole_answers binary32 (length part.now / block_size) part.now) }
{
    let mut so_far = r;
    for block in part.chunks_exact(512) {
        so_far = report_counts::counted(so_far, work::answer_block(block));
    }
    so_far
}

// A rest of fewer bytes than a block, where there is one: it is refused by 9.
fn add_rest(r: Report, rest: usize) -> Report
    ensures { result ≡ counted_all r (rest_answer rest) }
{
    if rest == 0 {
        return r;
    }
    report_counts::counted(r, Err(BlockRefusal { job: 0, number: 9 }))
}

// All answers of a part counted in.
fn add_answers(r: Report, part: &[u8]) -> Report
    ensures { result ≡ counted_all r (answers binary32 part.now) }
{
    let blocks = add_blocks(r, part);
    add_rest(blocks, part.len() % 512)
}

// Works a part of a batch into the batch's report so far. A part shorter than a whole one is the last.
pub fn add_part(r: Report, part: &[u8]) -> Added
    ensures { result ≡ added r part.now }
{
    let report = add_answers(r, part);
    Added {
        report,
        last: part.len() < PART_SIZE,
    }
}

// The report of batches that stand one behind another, with so many bytes each; where the bytes end, the batches that are left are empty.
pub fn report_batches(batches: &[u8], sizes: &[u32]) -> Report
    ensures { result ≡ report (batches_in sizes.now batches.now) }
{
    let mut so_far = report_counts::empty();
    let mut rest = batches;
    for size in sizes {
        let (batch, behind) = rest.split_at(rest.len().min(*size as usize));
        let one = add_answers(report_counts::opened(), batch);
        so_far = report_counts::merge(so_far, one);
        rest = behind;
    }
    so_far
}
