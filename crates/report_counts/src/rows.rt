// Which rows of a report count an answer.
ghost use Rattle.std.specs.Prelude.{◌≡◌};
ghost use Rattle.report_counts.specs.Rows.{status_row, hit_row, refusal_row, verdict_detail, group_row, detail_row};

use model::{BlockAnswer, Status, Verdict};

// The row that stands for none. A number, and no Option: `refusal_row` and `detail_by`, on which the sums of the rows rest, say so.
const NO_ROW: usize = 28;

// The row of a status.
fn status_row(status: Status) -> usize
    ensures { result ≡ status_row status }
{
    match status {
        Status::Overlapped => 2,
        Status::Hit => 4,
        Status::Separated => 1,
        Status::Failed => 3,
    }
}

// The row of a hit's fraction: 5 to 12 by eighths, 13 for 1, 14 below, 15 above, 16 for what is not a number.
fn hit_row(t: f32) -> usize
    ensures { result ≡ hit_row t }
{
    if t < 0.0 {
        return 14;
    }
    if t < 0.125 {
        return 5;
    }
    if t < 0.25 {
        return 6;
    }
    if t < 0.375 {
        return 7;
    }
    if t < 0.5 {
        return 8;
    }
    if t < 0.625 {
        return 9;
    }
    if t < 0.75 {
        return 10;
    }
    if t < 0.875 {
        return 11;
    }
    if t < 1.0 {
        return 12;
    }
    if t == 1.0 {
        return 13;
    }
    if t > 1.0 {
        return 15;
    }
    16
}

// The row of a number of refusal: 3 to 11, and 13.
fn refusal_row(number: u32) -> usize
    ensures { result ≡ refusal_row number }
{
    if number == 13 {
        return 27;
    }
    if number < 3 {
        return NO_ROW;
    }
    if number < 12 {
        return number as usize + 15;
    }
    NO_ROW
}

// The row of a worked block beside its status's own: a hit has one, by its fraction.
fn verdict_detail(verdict: Verdict) -> usize
    ensures { result ≡ verdict_detail verdict }
{
    let status = verdict.status;
    match status {
        Status::Overlapped => NO_ROW,
        Status::Hit => hit_row(verdict.contact.fraction),
        Status::Separated => NO_ROW,
        Status::Failed => NO_ROW,
    }
}

// The row of an answer's status, or of all refusals.
pub fn group_row(answer: BlockAnswer) -> usize
    ensures { result ≡ group_row answer }
{
    match answer {
        Ok(worked) => status_row(worked.verdict.status),
        Err(_) => 17,
    }
}

// The row of an answer's fraction or number.
pub fn detail_row(answer: BlockAnswer) -> usize
    ensures { result ≡ detail_row answer }
{
    match answer {
        Ok(worked) => verdict_detail(worked.verdict),
        Err(refusal) => refusal_row(refusal.number),
    }
}
