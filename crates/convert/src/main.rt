// Writes each block of the batch on standard input in the other form to the file that its argument names, and prints the numbers of those that are
// refused with 9, 13, 10 or 11. The file is replaced only by a run that succeeded. It reads in parts of 64 KiB.
#![tactic(auto)]

use std::env::Env;
use std::io::{Read, Write};
use std::ops::ControlFlow;
use std::os::fd::AsFd;
use std::process::ExitCode;
use std::random::RandomSource;
use std::rt::Files;
use streams::Stopped;

// Converts a part, and writes what it comes to, by room lent for both.
fn write_part<W: Write, E: Write, F: Write>(
    out: &mut W,
    err: &mut E,
    name: &[u8],
    to: &mut F,
    part: &[u8],
    file: &mut [u8],
    text: &mut [u8],
    blocks: &mut u64,
) -> Result<ControlFlow<()>, Stopped> {
    let converted = convert_forms::convert_part(part, *blocks, file, text);
    *blocks = converted.blocks;
    streams::write_to(to, err, name, &file[..converted.file])?;
    streams::write_to_output(out, err, &text[..converted.text])?;
    if converted.last {
        return Ok(ControlFlow::Break(()));
    }
    Ok(ControlFlow::Continue(()))
}

// Converts all parts.
fn convert<R: Read, W: Write, E: Write, F: Write>(
    input: &mut R,
    out: &mut W,
    err: &mut E,
    name: &[u8],
    to: &mut F,
) -> Result<(), Stopped> {
    let mut blocks = 0u64;
    let mut buffer = io::large_buffer();
    let mut file = io::large_buffer();
    let mut text = io::buffer();
    let ended = streams::each_part(input, &mut buffer, |part| {
        let part = streams::told(err, b"standard input", part)?;
        write_part(out, err, name, to, part, &mut file, &mut text, &mut blocks)
    })?;
    ended.ok_or(Stopped::Told)
}

// Collects what is to be written, and puts it in the place of the file.
fn replace<R: Read, W: Write, E: Write, S: Files + RandomSource>(
    input: &mut R,
    out: &mut W,
    err: &mut E,
    rt: &S,
    name: &[u8],
) -> Result<(), Stopped> {
    outfile::may_be_replaced(rt, err, name)?;
    let mut room = io::buffer();
    let size = outfile::name_beside(name, &mut room);
    let beside = &mut room[..size];
    let mut file = outfile::begin(rt, err, name, beside)?;
    convert(input, out, err, name, &mut file)?;
    outfile::finish(rt, err, name, beside, &mut file)
}

fn run<R: Read + AsFd, W: Write + AsFd, E: Write, S: Env + Files + RandomSource>(
    input: &mut R,
    out: &mut W,
    err: &mut E,
    rt: &S,
) -> Result<(), Stopped> {
    let mut name = io::buffer();
    let n = outfile::argument(rt, err, b"convert", &mut name)?;
    streams::streams_open(input, out, err)?;
    replace(input, out, err, rt, &name[..n])
}

fn main(rt: HostRuntime) -> ExitCode {
    let mut err = rt.stderr();
    let (mut input, mut out) = (rt.stdin(), rt.stdout());
    streams::status(run(&mut input, &mut out, &mut err, &rt))
}
