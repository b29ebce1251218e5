// The gaps of a batch's jobs along their moves, a line for each block, written into lent bytes.
#![tactic(auto)]

mod fractions;
mod job;
mod part;
mod put;

pub use part::{PART_SIZE, Printed, Tally, write_part};
