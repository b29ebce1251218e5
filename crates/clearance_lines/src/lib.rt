// The lines of a batch's verdicts over whole moves, written into lent bytes.
#![tactic(auto)]

mod count;
mod part;
mod put;
mod write;

pub use part::{Written, write_part};
