// Written by tests/written/wide.py from work, in f64.
// From a block to its answer: its floats, and what the sweep that they ask for comes to.
#![tactic(auto)]

mod taken;

ghost use Rattle.std.specs.Prelude.{◌≡◌, ℕ, ◌≤◌, take, length};
ghost use Rattle.std.specs.Float.{binary64};
ghost use Rattle.model64.specs.Work as Work;
ghost use Rattle.model.specs.Block.{most_points};
ghost use Rattle.work64.specs.Refusal.{refusal_by};

use model::{Block, BlockRefusal, Refusal};
use model64::{BlockAnswer, Swept, Verdict, Worked};
use taken::taken_over;

// The 32 floats from a place on: as many as sixteen points have. A number that is fixed lets several be read as one; who asks for fewer lends the first.
// Not `block_floats`' loop: this crate is there in both widths, of which the wider takes each float over from a block's; a loop of both would be two crates more.
fn floats_at(bytes: &[u8], from: usize) -> [f64; 32]
    requires { from ≤ 512 }
    ensures { (length result ≡ 32) × ((n : ℕ) → n ≤ 32 → take n result ≡ Work.floats_at bytes.now from n) }
{
    let mut floats = [0.0f64; 32];
    for (i, x) in floats.iter_mut().enumerate() {
        *x = taken_over(wire::word(bytes, from + 4 * i));
    }
    floats
}

// The answer of the sweep that a block asks for.
fn work_block(bytes: &[u8], k: Block) -> Swept
    requires { (k.count_a ≤ most_points) × (k.count_b ≤ most_points) }
    ensures { result ≡ Work.sweep_of binary64 bytes.now k }
{
    let n_a = 2 * k.count_a;
    let n_b = 2 * k.count_b;
    let points_a = floats_at(bytes, 104);
    let points_b = floats_at(bytes, 232);
    let numbers = floats_at(bytes, 8);
    sweep_numbers64::sweep_of(&points_a[..n_a], &points_b[..n_b], &numbers[..24])
}

// What a sweep comes to, as the answer of a block with that job.
fn of_job(job: u32, outcome: Result<Verdict, Refusal>) -> BlockAnswer
    ensures { result ≡ Work.of_job job outcome }
{
    match outcome {
        Ok(verdict) => Ok(Worked { job, verdict }),
        Err(refusal) => Err(BlockRefusal {
            job,
            number: refusal.number,
        }),
    }
}

fn refusal(checked: Result<Block, BlockRefusal>) -> BlockAnswer
    ensures { result ≡ refusal_by checked }
{
    match checked {
        Ok(k) => Err(BlockRefusal {
            job: k.job,
            number: 0,
        }),
        Err(refusal) => Err(refusal),
    }
}

// What the block of these bytes comes to.
pub fn answer_block(bytes: &[u8]) -> BlockAnswer
    ensures { result ≡ Work.block_answer binary64 bytes.now }
{
    let checked = block::check_block(bytes);
    let Ok(k) = checked else {
        return refusal(checked);
    };
    let swept = work_block(bytes, k);
    of_job(k.job, sweep_numbers64::told(swept))
}
