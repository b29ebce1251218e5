// The lines of a batch's rooms and cells, written into lent bytes.
#![tactic(auto)]

mod part;
mod put;
mod write;

pub use part::{Tally, Written, write_part};
