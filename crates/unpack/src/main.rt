// Reads blocks from standard input and writes the lines of their jobs to standard output; a block that is refused by 9, 10 or 11 is told on standard
// error, by its number and that one. A read or a write that fails is told there too, and ends the run.
#![tactic(auto)]

use std::io::{Read, Write};
use std::ops::ControlFlow;
use std::process::ExitCode;
use streams::Stopped;

// So many bytes are read at a time: 76 blocks, whose lines there is room for.
const PART_SIZE: usize = 38912;

// Writes what a part comes to, by room lent for the lines and for what is told. Less than a whole part is the last one.
fn unpack_part<W: Write, E: Write>(
    out: &mut W,
    err: &mut E,
    part: &[u8],
    lines: &mut [u8],
    told: &mut [u8],
    blocks: &mut u64,
) -> Result<ControlFlow<()>, Stopped> {
    let unpacked = unpack_blocks::unpack_part(part, *blocks, lines, told);
    *blocks = unpacked.blocks;
    streams::write_both(out, err, &lines[..unpacked.at], &told[..unpacked.told])?;
    if part.len() == PART_SIZE {
        return Ok(ControlFlow::Continue(()));
    }
    end(err, part.len() % 512, *blocks, told)?;
    Ok(ControlFlow::Break(()))
}

// The rest of fewer bytes than a block that the input ends in, where it does.
fn end<E: Write>(err: &mut E, rest: usize, blocks: u64, told: &mut [u8]) -> Result<(), Stopped> {
    let n = unpack_blocks::tell_rest(rest, blocks, told);
    streams::write_to_error(err, &told[..n])
}

fn run<R: Read, W: Write, E: Write>(
    input: &mut R,
    out: &mut W,
    err: &mut E,
) -> Result<(), Stopped> {
    let mut buffer = [0u8; PART_SIZE];
    let mut lines = io::large_buffer();
    let mut told = io::large_buffer();
    let mut blocks = 0u64;
    streams::each_part(input, &mut buffer, |part| {
        let part = streams::told(err, b"standard input", part)?;
        unpack_part(out, err, part, &mut lines, &mut told, &mut blocks)
    })?;
    Ok(())
}

fn main(rt: HostRuntime) -> ExitCode {
    let mut err = rt.stderr();
    if !streams::no_argument(&rt, &mut err, b"unpack") {
        return ExitCode::SUCCESS;
    }
    streams::status(run(&mut rt.stdin(), &mut rt.stdout(), &mut err))
}
