// Prints the monthly report over the batches in the files that its arguments name, in their order; without an argument standard input is the one
// batch. A file that cannot be read is told on standard error under its name, and then nothing is printed. It reads in parts of 64 KiB.
#![tactic(auto)]

use report_counts::Report;
use std::env::{Env, FillError};
use std::fs;
use std::io::{Error, ErrorKind, Read, Write};
use std::ops::ControlFlow;
use std::process::ExitCode;
use std::rt::Files;
use std::str::from_utf8;
use streams::{Stopped, tell_failure};

// Linux's numbers of errors: a name that is too long, and one that is no text.
const NAME_TOO_LONG: i32 = 36;

const NO_TEXT: i32 = 84;

// The report of an open batch.
fn batch<R: Read>(input: &mut R) -> std::io::Result<Report> {
    let mut so_far = report_counts::opened();
    let mut buffer = io::large_buffer();
    let ended = streams::each_part(
        input,
        &mut buffer,
        |part| -> std::io::Result<ControlFlow<Report>> {
            let added = report_batches::add_part(so_far, part?);
            so_far = added.report;
            if added.last {
                return Ok(ControlFlow::Break(so_far));
            }
            Ok(ControlFlow::Continue(()))
        },
    )?;
    ended.ok_or(Error::from(ErrorKind::FileTooLarge))
}

// A path as the system's calls take it here: text alone.
fn path(name: &[u8]) -> std::io::Result<&str> {
    from_utf8(name).map_err(|_| Error::from_raw_os_error(NO_TEXT))
}

// The batch that a file holds.
fn file<F: Files>(files: &F, name: &[u8]) -> std::io::Result<Report> {
    let mut opened = fs::open(files, path(name)?)?;
    batch(&mut opened)
}

// The report of a file; an error, and told, where it cannot be read.
fn told<F: Files, E: Write>(files: &F, err: &mut E, name: &[u8]) -> Result<Report, Stopped> {
    streams::told(err, name, file(files, name))
}

// The batch that an argument names, or nothing, where there is no such argument.
fn named<S: Files + Env, E: Write>(
    rt: &S,
    err: &mut E,
    i: usize,
) -> Result<Option<Report>, Stopped> {
    let mut name = io::buffer();
    match rt.arg(i, &mut name) {
        Ok(n) => Ok(Some(told(rt, err, &name[..n])?)),
        Err(FillError::TooLong) => {
            tell_failure(err, &name, Error::from_raw_os_error(NAME_TOO_LONG));
            Err(Stopped::Told)
        }
        Err(FillError::NotPresent) => Ok(None),
    }
}

fn print<W: Write, E: Write>(out: &mut W, err: &mut E, report: Report) -> Result<(), Stopped> {
    let mut text = io::buffer();
    let n = report_lines::write_report(report, &mut text);
    streams::write_to_output(out, err, &text[..n])
}

// Prints the report of the files that the arguments name.
fn print_files<S: Files + Env, W: Write, E: Write>(
    rt: &S,
    out: &mut W,
    err: &mut E,
) -> Result<(), Stopped> {
    let mut whole = report_counts::empty();
    for i in 1..usize::MAX {
        match named(rt, err, i)? {
            Some(one) => whole = report_counts::merge(whole, one),
            None => break,
        }
    }
    print(out, err, whole)
}

// Prints the report of standard input as the one batch.
fn print_input<R: Read, W: Write, E: Write>(
    input: &mut R,
    out: &mut W,
    err: &mut E,
) -> Result<(), Stopped> {
    let one = streams::told(err, b"standard input", batch(input))?;
    print(out, err, report_counts::merge(report_counts::empty(), one))
}

// Whether there is no argument.
fn is_bare<A: Env>(arguments: &A) -> bool {
    let mut text = [0u8; 1];
    match arguments.arg(1, &mut text) {
        Err(FillError::NotPresent) => true,
        _ => false,
    }
}

fn main(rt: HostRuntime) -> ExitCode {
    let mut err = rt.stderr();
    if is_bare(&rt) {
        streams::status(print_input(&mut rt.stdin(), &mut rt.stdout(), &mut err))
    } else {
        streams::status(print_files(&rt, &mut rt.stdout(), &mut err))
    }
}
