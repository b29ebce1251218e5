// A report over batches: counts by rows, and the largest counts with their places; counted on and put together.
#![tactic(auto)]

mod counting;
mod most;
mod rows;
mod together;

pub use counting::{Report, counted, empty, opened};
pub use most::{Largest, Most};
pub use together::merge;
