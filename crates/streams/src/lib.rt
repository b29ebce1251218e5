// What the programs share: reading until a buffer is full, writing, and taking no arguments, with every fault told on standard error.
#![tactic(auto)]

ghost use Rattle.std.specs.Prelude.{◌≤◌, ◌<◌, ◌≡◌, length, take, IsNone, IsTrue, OnOk, MatchResult, Ok, Err};
ghost use Rattle.std.specs.Process.{exit_status};
ghost use Rattle.io.specs.Counts.{IsPrefixLen};
ghost use Rattle.std.specs.Io.KnownBytes.{Appends, Consumes, IsAtEnd};
ghost use Rattle.streams.specs.Parts.{IsNextPart, Runs};

use std::env::{Env, FillError};
use std::io::{Cursor, Error, ErrorKind, Read, Write};
use std::ops::ControlFlow;
use std::os::fd::AsFd;
use std::process::ExitCode;
use std::str::from_utf8;

// How many bytes stand at the start of the buffer, and the error of a read that failed. No Result: the bytes before a failure are taken from the reader, and so
// they are counted with it too.
#[derive(Clone, Copy)]
pub struct Filled {
    pub count: usize,
    pub failed: Option<Error>,
}

// Fills buf from its start on, by as many reads as it takes: until it is full, the input ends or a read fails, the two last told apart.
pub fn fill<R: Read>(reader: &mut R, buf: &mut [u8]) -> Filled
    ensures count { IsPrefixLen result.count buf.new }
    ensures bytes { Consumes (R.remaining reader.old) (R.remaining reader.new) (take result.count buf.new) }
    ensures end { IsNone result.failed → result.count < length buf.new → IsAtEnd (R.remaining reader.new) }
{
    let mut count: usize = 0;
    // a read says itself how far it came: nothing to iterate over
    while count < buf.len() {
        match reader.read(&mut buf[count..]) {
            Ok(0) => {
                return Filled {
                    count,
                    failed: None,
                };
            }
            Ok(n) => count += n,
            Err(e) => {
                return Filled {
                    count,
                    failed: Some(e),
                };
            }
        }
    }
    Filled {
        count,
        failed: None,
    }
}

// The same from standard input, a failed read told; the bytes before it stand in the buffer.
pub fn fill_from_input<R: Read, E: Write>(input: &mut R, err: &mut E, buf: &mut [u8]) -> Filled
    ensures count { IsPrefixLen result.count buf.new }
    ensures bytes { Consumes (R.remaining input.old) (R.remaining input.new) (take result.count buf.new) }
    ensures end { IsNone result.failed → result.count < length buf.new → IsAtEnd (R.remaining input.new) }
    ensures quiet { IsNone result.failed → err.new ≡ err.old }
{
    let filled = fill(input, buf);
    if let Some(failure) = filled.failed {
        tell_failure(err, b"standard input", failure);
    }
    filled
}

// Reads the next part into the buffer, as much as there is room for, or less at the input's end.
pub fn read_part<'a, R: Read>(input: &mut R, buffer: &'a mut [u8]) -> std::io::Result<&'a [u8]>
    ensures { IsNextPart (length buffer.old) (R.remaining input.old) (R.remaining input.new) result }
{
    let filled = fill(input, buffer);
    match filled.failed {
        None => Ok(&buffer[..filled.count]),
        Some(failure) => Err(failure),
    }
}

// Reads part after part into the buffer, and calls work at each, or at the error of a read that failed, until it breaks off or gives an error. A proved loop
// has to end, and nothing says that the input does: so the reads are counted, to a number that no run reaches; there the answer is None.
pub fn each_part<
    R: Read,
    B,
    X,
    F: FnMut(std::io::Result<&[u8]>) -> Result<ControlFlow<B>, X> + Drop,
>(input: &mut R, buffer: &mut [u8], mut work: F) -> Result<Option<B>, X>
    requires { F.IsAlwaysCallable work }
    ensures { Runs F.FnMut (length buffer.old) (work, R.remaining input.old) (R.remaining input.new) result }
{
    for reads in 0..u64::MAX {
        if let ControlFlow::Break(end) = work(read_part(input, buffer))? {
            return Ok(Some(end));
        }
    }
    Ok(None)
}

// Tells a text. Where standard error takes none of it, there is nobody to tell that to.
pub fn tell<E: Write>(err: &mut E, text: &[u8]) {
    let _ = err.write_all(text);
}

// The text before a mark, where it has that mark.
fn before<'a>(text: &'a str, mark: &str) -> &'a str {
    match text.split_once(mark) {
        Some((front, _)) => front,
        None => text,
    }
}

// Tells an error by the system's words for it, which its text has before the error's number.
fn tell_words<E: Write>(err: &mut E, failure: Error) {
    let mut text = Cursor::new([0u8; 256]);
    let _ = write!(text, "{failure}");
    if let Ok(text) = from_utf8(text.get_ref()) {
        let words = before(before(text, "\0"), " (os error ");
        tell(err, words.as_bytes());
    }
}

// Tells that something failed: what, as the caller names it, a colon and the system's words for the error.
pub fn tell_failure<E: Write>(err: &mut E, what: &[u8], failure: Error) {
    tell(err, what);
    tell(err, b": ");
    tell_words(err, failure);
    tell(err, b"\n");
}

// Why a run ends early: of a fault, which is told, or since the reader of a pipe is gone, and then nobody is told.
#[derive(Clone, Copy, PartialEq, Eq)]
pub enum Stopped {
    Told,
    PipeClosed,
}

// What a program that the system ends for a closed pipe has as its exit status.
const PIPE_STATUS: u8 = 141;

// The exit status of a run: 0, also where a fault was told; of a closed pipe that which the system would give.
pub fn status(run: Result<(), Stopped>) -> ExitCode
    ensures closed { run ≡ Err Stopped.PipeClosed → exit_status result ≡ 141 }
    ensures open { (run ≡ Err Stopped.PipeClosed → ⊥) → exit_status result ≡ 0 }
{
    match run {
        Err(Stopped::PipeClosed) => ExitCode::from(PIPE_STATUS),
        _ => ExitCode::SUCCESS,
    }
}

// What was done; where it failed that is told under a name. No map_err: of a closure that was not called nothing says that it left `err` as it was.
pub fn told<T, E: Write>(err: &mut E, name: &[u8], done: std::io::Result<T>) -> Result<T, Stopped>
    ensures { MatchResult done (λ x. (result ≡ Ok x) × (err.new ≡ err.old)) (λ _. result ≡ Err Stopped.Told) }
{
    match done {
        Ok(x) => Ok(x),
        Err(failure) => {
            tell_failure(err, name, failure);
            Err(Stopped::Told)
        }
    }
}

// A failed write is told under a name, but for that to a closed pipe.
fn told_if_open<E: Write>(
    err: &mut E,
    name: &[u8],
    written: std::io::Result<()>,
) -> Result<(), Stopped>
    ensures written { OnOk result (written ≡ Ok tt) }
    ensures quiet { OnOk result (err.new ≡ err.old) }
{
    match written {
        Err(failure) if failure.kind() == ErrorKind::BrokenPipe => Err(Stopped::PipeClosed),
        _ => told(err, name, written),
    }
}

// Writes a text; an error, and told under a name, where it could not all be written.
pub fn write_to<W: Write, E: Write>(
    to: &mut W,
    err: &mut E,
    name: &[u8],
    text: &[u8],
) -> Result<(), Stopped>
    ensures written { OnOk result (Appends (W.contents to.old) (W.contents to.new) text.now) }
    ensures quiet { OnOk result (err.new ≡ err.old) }
{
    told_if_open(err, name, to.write_all(text))
}

// The same to standard output.
pub fn write_to_output<W: Write, E: Write>(
    out: &mut W,
    err: &mut E,
    text: &[u8],
) -> Result<(), Stopped>
    ensures written { OnOk result (Appends (W.contents out.old) (W.contents out.new) text.now) }
    ensures quiet { OnOk result (err.new ≡ err.old) }
{
    write_to(out, err, b"standard output", text)
}

// The same to standard error.
pub fn write_to_error<E: Write>(err: &mut E, text: &[u8]) -> Result<(), Stopped>
    ensures { OnOk result (Appends (E.contents err.old) (E.contents err.new) text.now) }
{
    let written = err.write_all(text);
    told_if_open(err, b"standard error", written)
}

// Writes one text to standard output, and the other to standard error.
pub fn write_both<W: Write, E: Write>(
    out: &mut W,
    err: &mut E,
    text: &[u8],
    told: &[u8],
) -> Result<(), Stopped>
    ensures written { OnOk result (Appends (W.contents out.old) (W.contents out.new) text.now) }
    ensures told { OnOk result (Appends (E.contents err.old) (E.contents err.new) told.now) }
{
    write_to_output(out, err, text)?;
    write_to_error(err, told)
}

// Linux's number of the error that a call on a closed descriptor ends with.
const BAD_DESCRIPTOR: i32 = 9;

// A stream is open; else that is told under a name. The descriptor of an open one can be doubled.
fn must_be_open<S: AsFd, E: Write>(stream: &S, err: &mut E, name: &[u8]) -> Result<(), Stopped>
    ensures quiet { OnOk result (err.new ≡ err.old) }
{
    match stream.as_fd().try_clone_to_owned() {
        Err(failure) if failure.raw_os_error() == Some(BAD_DESCRIPTOR) => {
            told(err, name, Err(failure))
        }
        _ => Ok(()),
    }
}

// Standard input and output are open. A program that opens a file asks before, since the file would take the number of a closed one.
pub fn streams_open<R: AsFd, W: AsFd, E: Write>(
    input: &R,
    out: &W,
    err: &mut E,
) -> Result<(), Stopped>
    ensures quiet { OnOk result (err.new ≡ err.old) }
{
    must_be_open(input, err, b"standard input")?;
    must_be_open(out, err, b"standard output")
}

// Whether the program was started with no argument; else that is told, under the program's name.
pub fn no_argument<A: Env, E: Write>(arguments: &A, err: &mut E, program: &[u8]) -> bool
    ensures quiet { IsTrue result → err.new ≡ err.old }
{
    let mut text = [0u8; 1];
    if let Err(FillError::NotPresent) = arguments.arg(1, &mut text) {
        return true;
    }
    tell(err, program);
    tell(err, b": no argument is taken\n");
    false
}
