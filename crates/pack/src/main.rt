// Reads jobs, one a line, from standard input and writes their blocks to standard output; a line that is no job is told on standard error, by its
// number and 14. A read or a write that fails is told there too, and ends the run.
#![tactic(auto)]

use pack_lines::Held;
use std::io::{Read, Write};
use std::ops::ControlFlow;
use std::process::ExitCode;
use streams::Stopped;

// So many bytes are read at a time: were each of them to end a line, there is room for all that they come to.
const PART_SIZE: usize = 128;

// Writes what a part comes to, by room lent for the blocks and for what is told. Less than a whole part is the last one.
fn pack_part<W: Write, E: Write>(
    out: &mut W,
    err: &mut E,
    part: &[u8],
    blocks: &mut [u8],
    told: &mut [u8],
    held: &mut Held,
) -> Result<ControlFlow<()>, Stopped> {
    let packed = pack_lines::pack_part(part, *held, blocks, told);
    *held = packed.held;
    streams::write_both(out, err, &blocks[..packed.at], &told[..packed.told])?;
    if part.len() == PART_SIZE {
        return Ok(ControlFlow::Continue(()));
    }
    end(err, *held, told)?;
    Ok(ControlFlow::Break(()))
}

// The line without its newline that the input ends in, where it does.
fn end<E: Write>(err: &mut E, held: Held, told: &mut [u8]) -> Result<(), Stopped> {
    let n = pack_lines::tell_last(held, told);
    streams::write_to_error(err, &told[..n])
}

fn run<R: Read, W: Write, E: Write>(
    input: &mut R,
    out: &mut W,
    err: &mut E,
) -> Result<(), Stopped> {
    let mut buffer = [0u8; PART_SIZE];
    let mut blocks = io::large_buffer();
    let mut told = io::large_buffer();
    let mut held = pack_lines::no_line();
    streams::each_part(input, &mut buffer, |part| {
        let part = streams::told(err, b"standard input", part)?;
        pack_part(out, err, part, &mut blocks, &mut told, &mut held)
    })?;
    Ok(())
}

fn main(rt: HostRuntime) -> ExitCode {
    let mut err = rt.stderr();
    if !streams::no_argument(&rt, &mut err, b"pack") {
        return ExitCode::SUCCESS;
    }
    streams::status(run(&mut rt.stdin(), &mut rt.stdout(), &mut err))
}
