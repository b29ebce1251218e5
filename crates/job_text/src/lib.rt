// A job's line and its block, each from the other; refusals as text, and how much of an input there is room for.
#![tactic(auto)]

mod block_line;
mod build;
mod job;
mod room;

pub use block_line::{check_plain, put_job};
pub use job::{Built, job_block};
pub use room::{put_refusal, tell_refusal, used_of};
