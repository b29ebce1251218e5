// Written by tests/written/wide.py from sheet_lines, in f64.
// The lines of the sheet, written into lent bytes.
#![tactic(auto)]

mod answer;
mod part;
mod put;
mod write;

pub use part::{Written, write_line, write_part};
