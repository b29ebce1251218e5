// Reads a route as text from standard input, looks at it as a whole and prints its answer, one line. A read that fails is told on standard error, and then
// nothing is printed.
#![tactic(auto)]

use model::PART_SIZE;
use route_read::Reader;
use std::io::{Read, Write};
use std::ops::ControlFlow;
use std::process::ExitCode;
use streams::Stopped;

// Numbers and lengths that can matter: a slop, 129 of the cart, four for each of 33 waypoints, 129 for each of 32 outlines; one outline more.
const NUMBERS: usize = 4390;

const LENGTHS: usize = 33;

fn tell<W: Write, E: Write>(
    out: &mut W,
    err: &mut E,
    reader: Reader,
    floats: &[f32],
    lengths: &[u32],
) -> Result<(), Stopped> {
    let mut text = [0u8; 128];
    let n = route_clearance_text::write_answer(reader, floats, lengths, &mut text);
    streams::write_to_output(out, err, &text[..n])
}

// Reads on. Less than a whole part is the last one, and the answer is told.
// The same as in `route`, with another answer: what both would share beyond `each_part` and `route_read` is shorter than a crate for it.
fn read_part<W: Write, E: Write>(
    out: &mut W,
    err: &mut E,
    part: &[u8],
    floats: &mut [f32],
    lengths: &mut [u32],
    reader: &mut Reader,
) -> Result<ControlFlow<()>, Stopped> {
    let after = route_read::read_part(part, *reader, floats, lengths);
    *reader = after;
    if part.len() == PART_SIZE {
        return Ok(ControlFlow::Continue(()));
    }
    tell(out, err, after, floats, lengths)?;
    Ok(ControlFlow::Break(()))
}

fn run<R: Read, W: Write, E: Write>(
    input: &mut R,
    out: &mut W,
    err: &mut E,
) -> Result<(), Stopped> {
    let mut buffer = io::large_buffer();
    let mut floats = [0.0f32; NUMBERS];
    let mut lengths = [0u32; LENGTHS];
    let mut reader = route_read::no_text();
    streams::each_part(input, &mut buffer, |part| {
        let part = streams::told(err, b"standard input", part)?;
        read_part(out, err, part, &mut floats, &mut lengths, &mut reader)
    })?;
    Ok(())
}

fn main(rt: HostRuntime) -> ExitCode {
    let mut err = rt.stderr();
    if !streams::no_argument(&rt, &mut err, b"route_clearance") {
        return ExitCode::SUCCESS;
    }
    streams::status(run(&mut rt.stdin(), &mut rt.stdout(), &mut err))
}
