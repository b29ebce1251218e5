// From a block to the verdict on its whole move: its checks, its floats, and the call that they ask for.
#![tactic(auto)]

ghost use Rattle.std.specs.Prelude.{◌≡◌, ◌≤◌};
ghost use Rattle.model.specs.Block.{most_points, checked_block};
ghost use Rattle.clearance_block.specs.Answer.{refused_block, Looked, AnswerBy, AnswerOf};

use block_floats::floats_at;
use clearance_call::{Cleared, clearance};
use model::Block;

// What a block comes to: its job, 0 where none can be told, and the answer.
#[derive(Clone, Copy)]
pub struct BlockCleared {
    pub job: u32,
    pub answer: Cleared,
}

// The look that a block asks for, from the start of its move on.
fn look_along(part: &[u8], k: Block) -> BlockCleared
    requires { (k.count_a ≤ most_points) × (k.count_b ≤ most_points) }
    ensures { Looked part.now k result }
{
    let n_a = 2 * k.count_a;
    let n_b = 2 * k.count_b;
    let points_a = floats_at(part, 104, n_a);
    let points_b = floats_at(part, 232, n_b);
    let numbers = floats_at(part, 8, 24);
    let answer = clearance(&points_a[..n_a], &points_b[..n_b], &numbers[..24], 0.0);
    BlockCleared { job: k.job, answer }
}

fn refused(job: u32, number: u32) -> BlockCleared
    ensures { result ≡ refused_block job number }
{
    let answer = Cleared::Refused(number);
    BlockCleared { job, answer }
}

fn look_checked(part: &[u8]) -> BlockCleared
    ensures { AnswerBy part.now (checked_block part.now) result }
{
    let checked = block::check_block(part);
    match checked {
        Ok(k) => look_along(part, k),
        Err(refusal) => refused(refusal.job, refusal.number),
    }
}

// What the block that a part holds comes to; one that has not 512 bytes is refused by 9.
pub fn clear_block(part: &[u8]) -> BlockCleared
    ensures { AnswerOf part.now result }
{
    if part.len() != 512 {
        return refused(0, 9);
    }
    look_checked(part)
}
