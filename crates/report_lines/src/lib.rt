// A report as text, in lent bytes.
#![tactic(auto)]

ghost use Rattle.std.specs.Prelude.{◌<◌, ◌≤◌, ◌≡◌, [], length, get_or};
ghost use Rattle.text.specs.Put.{Put};
ghost use Rattle.text.specs.Written.{Room, Wrote};
ghost use Rattle.report_lines.specs.Text.{labels, row_text, rows_text, place_text, most_text, named_text, largest_text, text_in};

use report_counts::{Largest, Most, Report};
use text::Draft;

// How many rows a report has.
const ROWS: usize = 28;

// No report is longer.
const LONGEST_REPORT: usize = 1200;

// A row's name, with the blank after it.
#[tactic(auto, unfolding(crate::specs::Text::labels))]
fn label(row: usize) -> &'static [u8]
    requires { row < 28 }
    ensures { result.now ≡ get_or labels row [] }
{
    match row {
        0 => b"BLOCKS ",
        1 => b"CLEAR ",
        2 => b"OVERLAPPED ",
        3 => b"FAILED ",
        4 => b"HIT ",
        5 => b"HIT 0/8 ",
        6 => b"HIT 1/8 ",
        7 => b"HIT 2/8 ",
        8 => b"HIT 3/8 ",
        9 => b"HIT 4/8 ",
        10 => b"HIT 5/8 ",
        11 => b"HIT 6/8 ",
        12 => b"HIT 7/8 ",
        13 => b"HIT 1 ",
        14 => b"HIT BELOW ",
        15 => b"HIT ABOVE ",
        16 => b"HIT NAN ",
        17 => b"REFUSED ",
        18 => b"REFUSED 3 ",
        19 => b"REFUSED 4 ",
        20 => b"REFUSED 5 ",
        21 => b"REFUSED 6 ",
        22 => b"REFUSED 7 ",
        23 => b"REFUSED 8 ",
        24 => b"REFUSED 9 ",
        25 => b"REFUSED 10 ",
        26 => b"REFUSED 11 ",
        27 => b"REFUSED 13 ",
        _ => b"",
    }
}

// The same on a draft.
fn put_label(draft: &mut Draft<'_>, row: usize)
    requires { Room 11 draft.old × (row < 28) }
    ensures { Wrote 11 draft.old (get_or labels row []) draft.new }
{
    draft.put(label(row));
}

// The line of a row.
fn put_row(draft: &mut Draft<'_>, row: usize, n: u64)
    requires { Room 32 draft.old × (row < 28) }
    ensures { Wrote 32 draft.old (row_text (get_or labels row []) n) draft.new }
{
    put_label(draft, row);
    draft.put_number(n, b'\n');
}

// The lines of all rows.
fn put_rows(draft: &mut Draft<'_>, counts: [u64; ROWS])
    requires { Room 896 draft.old }
    ensures { Wrote 896 draft.old (rows_text labels counts) draft.new }
{
    for (row, n) in counts.iter().enumerate() {
        put_row(draft, row, *n);
    }
}

// Three numbers and a newline.
fn put_place(draft: &mut Draft<'_>, n: u64, batch: u64, block: u64)
    requires { Room 63 draft.old }
    ensures { Wrote 63 draft.old (place_text n batch block) draft.new }
{
    draft.put_number(n, b' ');
    draft.put_number(batch, b' ');
    draft.put_number(block, b'\n');
}

// A largest count with its place; zeros where there is none.
fn put_most(draft: &mut Draft<'_>, m: Option<Most>)
    requires { Room 63 draft.old }
    ensures { Wrote 63 draft.old (most_text m) draft.new }
{
    match m {
        None => put_place(draft, 0, 0, 0),
        Some(s) => put_place(draft, s.count as u64, s.batch, s.block),
    }
}

// The same after a name.
fn put_named(draft: &mut Draft<'_>, name: &[u8], m: Option<Most>)
    requires { Room 72 draft.old × (length name.now ≤ 9) }
    ensures { Wrote 72 draft.old (named_text name.now m) draft.new }
{
    draft.put(name);
    put_most(draft, m);
}

// The three last lines.
fn put_largest(draft: &mut Draft<'_>, a: Largest)
    requires { Room 216 draft.old }
    ensures { Wrote 216 draft.old (largest_text a) draft.new }
{
    put_named(draft, b"CALLS ", a.calls);
    put_named(draft, b"SEARCHES ", a.searches);
    put_named(draft, b"STEPS ", a.steps);
}

// A report's text at the start of out, and its length; nothing where out has fewer bytes than the longest.
pub fn write_report(r: Report, out: &mut [u8]) -> usize
    ensures { Put out.old 0 (text_in r (length out.old)) out.new result }
{
    if out.len() < LONGEST_REPORT {
        return 0;
    }
    let mut draft = Draft { bytes: out, at: 0 };
    draft.put(b"BATCHES ");
    draft.put_number(r.batches, b'\n');
    put_rows(&mut draft, r.counts);
    put_largest(&mut draft, r.largest);
    draft.at
}
