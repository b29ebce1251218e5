// Prints, for each block of the batch on standard input, what holds of its whole move: CLEAR, TOUCH or OPEN. It reads in parts of 64 KiB, has each worked,
// and writes its text. A read or a write that fails is told on standard error and ends the run, with no TOTAL; that no block came is told there too, behind
// its TOTAL.
#![tactic(auto)]

use model::Totals;
use std::io::{Read, Write};
use std::ops::ControlFlow;
use std::process::ExitCode;
use streams::Stopped;

// Writes the text of a part, by room lent for it, and counts its blocks.
// The same as in `sheet`: one function for both would ask of its closure that the text ends within the room, which is proved here of this text.
fn work_part<W: Write, E: Write>(
    out: &mut W,
    err: &mut E,
    part: &[u8],
    text: &mut [u8],
    totals: &mut Totals,
) -> Result<ControlFlow<()>, Stopped> {
    let written = clearance_lines::write_part(part, text, *totals);
    *totals = written.totals;
    streams::write_to_output(out, err, &text[..written.at])?;
    if !written.last {
        return Ok(ControlFlow::Continue(()));
    }
    if totals.blocks == 0 {
        streams::write_to_error(err, b"standard input: no block came\n")?;
    }
    Ok(ControlFlow::Break(()))
}

// The whole run. What an earlier part left in the buffer, and in the text, is not looked at.
fn run<R: Read, W: Write, E: Write>(
    input: &mut R,
    out: &mut W,
    err: &mut E,
) -> Result<(), Stopped> {
    let mut totals = Totals {
        blocks: 0,
        clear: 0,
        contact: 0,
        undecided: 0,
        refused: 0,
    };
    let mut buffer = io::large_buffer();
    let mut text = io::large_buffer();
    streams::each_part(input, &mut buffer, |part| {
        let part = streams::told(err, b"standard input", part)?;
        work_part(out, err, part, &mut text, &mut totals)
    })?;
    Ok(())
}

fn main(rt: HostRuntime) -> ExitCode {
    let mut err = rt.stderr();
    if !streams::no_argument(&rt, &mut err, b"clearance") {
        return ExitCode::SUCCESS;
    }
    streams::status(run(&mut rt.stdin(), &mut rt.stdout(), &mut err))
}
