// A line is a job where the block of its numbers passes and has that very line.
ghost use Rattle.std.specs.Prelude.{◌≡◌, ◌≤◌, length};
ghost use Rattle.model.specs.Wire.{byte};
ghost use Rattle.job_text.specs.Job.{job_line, has_line, block_for, is_job};
ghost use Rattle.job_text.specs.Job as Job;

use crate::block_line::{check_plain, put_line};
use crate::build::build_block;
use text::Draft;

// Whether a block's line is this one.
fn prints_as(block: &[u8], line: &[u8]) -> bool
    requires { (byte block.now 4 ≤ 16) × (byte block.now 5 ≤ 16) }
    ensures { result ≡ Job.same (job_line block.now) line.now }
{
    let mut text = [0u8; 855];
    let mut draft = Draft {
        bytes: &mut text,
        at: 0,
    };
    put_line(&mut draft, block);
    let end = draft.at;
    check::same(&text[..end], line)
}

fn has_line(block: &[u8], line: &[u8]) -> bool
    ensures { result ≡ has_line block.now line.now }
{
    match check_plain(block) {
        Ok(_) => prints_as(block, line),
        Err(_) => false,
    }
}

// Whether a line is a job, and the block of its numbers.
#[derive(Clone, Copy)]
pub struct Built {
    pub job: bool,
    // No Option of a block: `job_block` says `result.block ≡ block_for line.now` of a line that is no job, too.
    pub block: [u8; 512],
}

pub fn job_block(line: &[u8]) -> Built
    ensures { (result.job ≡ is_job line.now) × (result.block ≡ block_for line.now) }
{
    let mut numbers = [0u32; 91];
    text::read_numbers(line, 3, &mut numbers);
    let mut block = [0u8; 512];
    build_block(&numbers, &mut block);
    let job = has_line(&block, line);
    Built { job, block }
}
