// Copies the blocks of a damaged batch on standard input to the file that its argument names, and prints where bytes were skipped. The file is
// replaced only by a run that succeeded. It reads in parts of at most 64 KiB, each behind what the one before it left.
#![tactic(auto)]

use salvage_walk::Walk;
use std::env::Env;
use std::io::{Read, Write};
use std::ops::ControlFlow;
use std::os::fd::AsFd;
use std::process::ExitCode;
use std::random::RandomSource;
use std::rt::Files;
use streams::Stopped;

// How many bytes stand at the start of the buffer, and the walk so far.
#[derive(Clone, Copy)]
struct Turn {
    left: usize,
    walk: Walk,
}

// Walks so many bytes of the buffer, and writes what they come to.
fn write_part<W: Write, E: Write, F: Write>(
    out: &mut W,
    err: &mut E,
    name: &[u8],
    to: &mut F,
    buffer: &mut [u8],
    count: usize,
    walk: Walk,
) -> Result<ControlFlow<Turn, Turn>, Stopped> {
    let mut file = io::large_buffer();
    let mut text = io::large_buffer();
    let more = count == buffer.len();
    let salvaged = salvage_walk::salvage_part(buffer, count, walk, &mut file, &mut text);
    let walk = salvaged.walk;
    if !salvaged.done {
        return Err(Stopped::Told);
    }
    streams::write_to(to, err, name, &file[..salvaged.file])?;
    streams::write_to_output(out, err, &text[..salvaged.text])?;
    let turn = Turn {
        left: salvaged.left,
        walk,
    };
    if more {
        return Ok(ControlFlow::Continue(turn));
    }
    Ok(ControlFlow::Break(turn))
}

fn next_part<R: Read, W: Write, E: Write, F: Write>(
    input: &mut R,
    out: &mut W,
    err: &mut E,
    name: &[u8],
    to: &mut F,
    buffer: &mut [u8],
    turn: Turn,
) -> Result<ControlFlow<Turn, Turn>, Stopped> {
    let left = turn.left;
    if left > buffer.len() {
        return Err(Stopped::Told);
    }
    let filled = streams::fill_from_input(input, err, &mut buffer[left..]);
    if filled.failed.is_some() {
        return Err(Stopped::Told);
    }
    let count = left + filled.count;
    write_part(out, err, name, to, buffer, count, turn.walk)
}

// The turn that the run ends with. No `each_part`: a part stands behind what the one before it left at the start of the buffer, so the buffer is the walk's too.
// A proved loop has to end, and nothing says that the input does: so the reads are counted, to a number that no run reaches.
fn walk_all<R: Read, W: Write, E: Write, F: Write>(
    input: &mut R,
    out: &mut W,
    err: &mut E,
    name: &[u8],
    to: &mut F,
) -> Result<Turn, Stopped> {
    let mut buffer = io::large_buffer();
    let walk = Walk {
        kept: 0,
        skipped: 0,
        run: 0,
    };
    let mut turn = Turn { left: 0, walk };
    for reads in 0..u64::MAX {
        match next_part(input, out, err, name, to, &mut buffer, turn)? {
            ControlFlow::Continue(next) => turn = next,
            ControlFlow::Break(last) => return Ok(last),
        }
    }
    Err(Stopped::Told)
}

fn tell_last_run<W: Write, E: Write>(
    out: &mut W,
    err: &mut E,
    left: usize,
    walk: Walk,
) -> Result<(), Stopped> {
    let mut text = io::buffer();
    let n = salvage_walk::tell_last_run(left, walk, &mut text);
    streams::write_to_output(out, err, &text[..n])
}

fn tell_total<W: Write, E: Write>(
    out: &mut W,
    err: &mut E,
    left: usize,
    walk: Walk,
) -> Result<(), Stopped> {
    let mut text = io::buffer();
    let n = salvage_walk::tell_total(left, walk, &mut text);
    streams::write_to_output(out, err, &text[..n])
}

// Tells the totals of what was prepared, and then puts it in the place of the file; takes it back where they cannot be told.
fn finish<W: Write, E: Write, S: Files>(
    out: &mut W,
    err: &mut E,
    rt: &S,
    name: &[u8],
    beside: &[u8],
    file: &mut S::File,
    turned: Turn,
) -> Result<(), Stopped> {
    if let Err(stopped) = tell_total(out, err, turned.left, turned.walk) {
        outfile::abandon(rt, beside);
        return Err(stopped);
    }
    outfile::put_in_place(rt, err, name, beside, file)
}

// Walks the input and tells the runs. The totals come when all is written, and then the file takes its place.
fn salvage<R: Read, W: Write, E: Write, S: Files>(
    input: &mut R,
    out: &mut W,
    err: &mut E,
    rt: &S,
    name: &[u8],
    beside: &[u8],
    file: &mut S::File,
) -> Result<(), Stopped> {
    let turned = walk_all(input, out, err, name, file)?;
    tell_last_run(out, err, turned.left, turned.walk)?;
    outfile::prepare(rt, err, name, beside, file)?;
    finish(out, err, rt, name, beside, file, turned)
}

// Collects what is to be written, and puts it in the place of the file.
fn replace<R: Read, W: Write, E: Write, S: Files + RandomSource>(
    input: &mut R,
    out: &mut W,
    err: &mut E,
    rt: &S,
    name: &[u8],
) -> Result<(), Stopped> {
    outfile::may_be_replaced(rt, err, name)?;
    let mut room = io::buffer();
    let size = outfile::name_beside(name, &mut room);
    let beside = &mut room[..size];
    let mut file = outfile::begin(rt, err, name, beside)?;
    salvage(input, out, err, rt, name, beside, &mut file)
}

fn run<R: Read + AsFd, W: Write + AsFd, E: Write, S: Env + Files + RandomSource>(
    input: &mut R,
    out: &mut W,
    err: &mut E,
    rt: &S,
) -> Result<(), Stopped> {
    let mut name = io::buffer();
    let n = outfile::argument(rt, err, b"salvage", &mut name)?;
    streams::streams_open(input, out, err)?;
    replace(input, out, err, rt, &name[..n])
}

fn main(rt: HostRuntime) -> ExitCode {
    let mut err = rt.stderr();
    let (mut input, mut out) = (rt.stdin(), rt.stdout());
    streams::status(run(&mut input, &mut out, &mut err, &rt))
}
