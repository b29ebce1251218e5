// Prints the number of the first block of the batch on standard input whose status is H or O, or `none`. It reads in parts of 64 KiB, none behind
// the one that decides. A read that fails is told on standard error, and then neither is printed; so is that no whole block came, behind `none`.
#![tactic(auto)]

use any_contact_search::Searched;
use std::io::{Read, Write};
use std::ops::ControlFlow;
use std::process::ExitCode;
use streams::Stopped;

// Tells the answer, and behind it that no whole block came, where that is so.
fn tell_answer<W: Write, E: Write>(
    out: &mut W,
    err: &mut E,
    searched: Searched,
) -> Result<(), Stopped> {
    let mut text = [0u8; 21];
    let n = any_contact_search::write_found(searched.found, &mut text);
    streams::write_to_output(out, err, &text[..n])?;
    if searched.blocks == 0 {
        streams::write_to_error(err, b"standard input: no block came\n")?;
    }
    Ok(())
}

// Searches what was read, and tells the answer once it is known.
fn search_part<W: Write, E: Write>(
    out: &mut W,
    err: &mut E,
    part: &[u8],
    blocks: &mut u64,
) -> Result<ControlFlow<()>, Stopped> {
    let searched = any_contact_search::search_part(part, *blocks);
    *blocks = searched.blocks;
    if !searched.over {
        return Ok(ControlFlow::Continue(()));
    }
    tell_answer(out, err, searched)?;
    Ok(ControlFlow::Break(()))
}

fn run<R: Read, W: Write, E: Write>(
    input: &mut R,
    out: &mut W,
    err: &mut E,
) -> Result<(), Stopped> {
    let mut blocks = 0u64;
    let mut buffer = io::large_buffer();
    streams::each_part(input, &mut buffer, |part| {
        let part = streams::told(err, b"standard input", part)?;
        search_part(out, err, part, &mut blocks)
    })?;
    Ok(())
}

fn main(rt: HostRuntime) -> ExitCode {
    let mut err = rt.stderr();
    if !streams::no_argument(&rt, &mut err, b"any_contact") {
        return ExitCode::SUCCESS;
    }
    streams::status(run(&mut rt.stdin(), &mut rt.stdout(), &mut err))
}
