// A file that a program writes anew. What is written is collected beside it, in a file that has no name from the start on, so that nothing is left
// where the run fails or is ended; only a run that succeeded puts it under a name beside, and then in the place of the file. A run that has nothing to
// write empties no file by that: what the file held is kept as NAME.old.
#![tactic(auto)]

ghost use Rattle.std.specs.Prelude.{◌≤◌, ◌<◌, length, IfOk};
ghost use Rattle.io.specs.Counts.{IsPrefixLen};
ghost use Rattle.text.specs.Put.{Put};
ghost use Rattle.outfile.specs.Names.{AfterFolder, Beside, joined, kept};

use std::env::{Env, FillError};
use std::fs;
use std::fs::{Metadata, OpenFile, OpenOptions};
use std::io::{Error, ErrorKind, Seek, SeekFrom, Write};
use std::os::unix::fs::OpenOptionsExt;
use std::random::RandomSource;
use std::rt::Files;
use std::str::from_utf8;
use streams::{Stopped, tell_failure};

// Linux's numbers of errors: a file that is there already, what makes no sense, a name that is too long, and one that is no text.
const EXISTS: i32 = 17;

const INVALID: i32 = 22;

const NAME_TOO_LONG: i32 = 36;

const NO_TEXT: i32 = 84;

fn tell<E: Write>(err: &mut E, name: &[u8], what: &[u8]) {
    streams::tell(err, name);
    streams::tell(err, what);
}

// Whether a name looks like an option: nobody means a file by `--help`.
fn is_option(name: &[u8]) -> bool {
    name.starts_with(b"-")
}

fn tell_option<E: Write>(err: &mut E, program: &[u8], name: &[u8]) {
    tell(err, program, b": ");
    tell(err, name, b": a name that begins with - is not taken; ./");
    tell(err, name, b" names such a file\n");
}

// Whether there is no argument behind the first.
fn is_alone<A: Env>(arguments: &A) -> bool {
    let mut text = [0u8; 1];
    matches!(arguments.arg(2, &mut text), Err(FillError::NotPresent))
}

// The program's one argument at the start of name, and its length; an error, and told, where it has none or more, or it is empty, too long, or begins with -.
pub fn argument<A: Env, E: Write>(
    arguments: &A,
    err: &mut E,
    program: &[u8],
    name: &mut [u8],
) -> Result<usize, Stopped>
    ensures { IfOk result (λ n. IsPrefixLen n name.new) }
{
    let given = arguments.arg(1, name);
    if is_alone(arguments) {
        match given {
            Ok(0) => {}
            Ok(n) => {
                if is_option(&name[..n]) {
                    tell_option(err, program, &name[..n]);
                    return Err(Stopped::Told);
                }
                return Ok(n);
            }
            Err(FillError::TooLong) => {
                tell_failure(err, program, Error::from_raw_os_error(NAME_TOO_LONG));
                return Err(Stopped::Told);
            }
            Err(FillError::NotPresent) => {}
        }
    }
    tell(
        err,
        program,
        b": one argument is taken, the name of the file to write\n",
    );
    Err(Stopped::Told)
}

// A path as the system's calls take it here: text alone.
fn path(name: &[u8]) -> std::io::Result<&str> {
    from_utf8(name).map_err(|_| Error::from_raw_os_error(NO_TEXT))
}

// What has a name; a link is not followed.
fn look<F: Files>(files: &F, name: &[u8]) -> std::io::Result<Metadata> {
    fs::symlink_metadata(files, path(name)?)
}

// Opens a file that is there for reading and writing.
fn open_update<F: Files>(files: &F, name: &[u8]) -> std::io::Result<F::File> {
    OpenOptions::new()
        .read(true)
        .write(true)
        .open(files, path(name)?)
}

// Makes a file that is not there yet.
fn create<F: Files>(files: &F, name: &[u8]) -> std::io::Result<F::File> {
    OpenOptions::new()
        .write(true)
        .create_new(true)
        .open(files, path(name)?)
}

fn remove<F: Files>(files: &F, name: &[u8]) -> std::io::Result<()> {
    fs::remove_file(files, path(name)?)
}

fn rename<F: Files>(files: &F, from: &[u8], to: &[u8]) -> std::io::Result<()> {
    fs::rename(files, path(from)?, path(to)?)
}

// Whether what is there, and is no link, is a regular file that may be written.
fn is_regular<F: Files>(files: &F, name: &[u8]) -> std::io::Result<bool> {
    let file = open_update(files, name)?;
    Ok(file.metadata()?.is_file())
}

// Whether the file is regular and may be written, or there is none; a link is neither.
fn is_replaceable<F: Files>(files: &F, name: &[u8]) -> std::io::Result<bool> {
    match look(files, name) {
        Ok(found) => Ok(!found.is_symlink() && is_regular(files, name)?),
        Err(failure) if failure.kind() == ErrorKind::NotFound => Ok(true),
        Err(failure) => Err(failure),
    }
}

// The file may be written anew: it is regular and may be written, or there is none. Else that is told, and it is left alone.
pub fn may_be_replaced<F: Files, E: Write>(
    files: &F,
    err: &mut E,
    name: &[u8],
) -> Result<(), Stopped> {
    if streams::told(err, name, is_replaceable(files, name))? {
        return Ok(());
    }
    tell(err, name, b": not a regular file\n");
    Err(Stopped::Told)
}

// The place after the last slash.
fn after_folder(name: &[u8]) -> usize
    ensures { AfterFolder name.now result }
{
    match memchr::memrchr(b'/', name) {
        Some(i) => i + 1,
        None => 0,
    }
}

// A name beside the file, yet to be completed by `begin`, at the start of beside, and its length.
pub fn name_beside(name: &[u8], beside: &mut [u8]) -> usize
    ensures { IsPrefixLen result beside.new × Beside name.now beside.old beside.new result }
{
    let folder = after_folder(name);
    let at = text::put_text(beside, 0, &name[..folder]);
    text::put_text(beside, at, b".foldflake-XXXXXX")
}

// Puts letters at random in the place of the six at the end of a name.
fn complete<R: RandomSource>(random: &R, name: &mut [u8]) -> std::io::Result<()> {
    let at = name.len().saturating_sub(6);
    let letters = &mut name[at..];
    random.fill_bytes(letters)?;
    for letter in letters.iter_mut() {
        *letter = b'a' + *letter % 26;
    }
    Ok(())
}

// Makes a file that nobody else may open, under a name that is completed until no other file has it.
fn create_temp<R: Files + RandomSource>(rt: &R, name: &mut [u8]) -> std::io::Result<R::File> {
    if !name.ends_with(b"XXXXXX") {
        return Err(Error::from_raw_os_error(INVALID));
    }
    for tries in 0u32..100u32 {
        complete(rt, name)?;
        let made = OpenOptions::new()
            .read(true)
            .write(true)
            .create_new(true)
            .mode(0o600)
            .open(rt, path(name)?);
        match made {
            Ok(file) => return Ok(file),
            Err(failure) => {
                if failure.kind() != ErrorKind::AlreadyExists {
                    return Err(failure);
                }
            }
        }
    }
    Err(Error::from_raw_os_error(EXISTS))
}

// The same, and takes the name away from it.
fn create_unnamed<R: Files + RandomSource>(rt: &R, name: &mut [u8]) -> std::io::Result<R::File> {
    let file = create_temp(rt, name)?;
    remove(rt, name)?;
    Ok(file)
}

// Begins to collect: completes the name, and answers a file that had it and has none now; an error, and told, where there is none.
pub fn begin<R: Files + RandomSource, E: Write>(
    rt: &R,
    err: &mut E,
    name: &[u8],
    beside: &mut [u8],
) -> Result<R::File, Stopped> {
    streams::told(err, name, create_unnamed(rt, beside))
}

// Writes what was collected under the name beside, to the disk: a write that fails late is seen.
fn written<F: Files>(files: &F, file: &mut F::File, beside: &[u8]) -> std::io::Result<()> {
    let mut made = create(files, beside)?;
    file.seek(SeekFrom::Start(0))?;
    std::io::copy(file, &mut made)?;
    made.sync_all()
}

// NAME.old at the start of old, and its length.
fn name_of_old(name: &[u8], old: &mut [u8]) -> usize
    ensures { IsPrefixLen result old.new × Put old.old 0 (joined name.now kept (length old.old)) old.new result }
{
    let at = text::put_text(old, 0, name);
    text::put_text(old, at, b".old")
}

// Whether an open file is empty: that its end is its start.
fn is_empty<F: Seek>(file: &mut F) -> bool {
    matches!(file.seek(SeekFrom::End(0)), Ok(0))
}

// Whether the file has bytes; also where that cannot be seen, so that they are kept.
fn has_bytes<F: Files>(files: &F, name: &[u8]) -> bool {
    match open_update(files, name) {
        Ok(file) => {
            let mut file = file;
            !is_empty(&mut file)
        }
        Err(failure) => failure.kind() != ErrorKind::NotFound,
    }
}

// Whether nothing was collected while the file has bytes.
fn would_empty<F: Files>(files: &F, name: &[u8], file: &mut F::File) -> bool {
    is_empty(file) && has_bytes(files, name)
}

fn tell_taken<E: Write>(err: &mut E, name: &[u8], old: &[u8]) {
    tell(err, name, b": would become empty, and ");
    tell(err, old, b" is there already: nothing is replaced\n");
}

// Nothing, be it a link to nothing, has the name old; else that is told.
fn must_be_free<F: Files, E: Write>(
    files: &F,
    err: &mut E,
    name: &[u8],
    old: &[u8],
) -> Result<(), Stopped> {
    match look(files, old) {
        Ok(_) => tell_taken(err, name, old),
        Err(failure) if failure.kind() == ErrorKind::NotFound => return Ok(()),
        Err(failure) => tell_failure(err, old, failure),
    }
    Err(Stopped::Told)
}

// NAME.old can take what the file holds; else that is told.
fn old_must_be_free<F: Files, E: Write>(
    files: &F,
    err: &mut E,
    name: &[u8],
) -> Result<(), Stopped> {
    let mut old = io::buffer();
    let n = name_of_old(name, &mut old);
    must_be_free(files, err, name, &old[..n])
}

// What was done with what stands under a name; where it failed that is told, and nothing is left under that name.
fn done_or_abandoned<F: Files, E: Write>(
    files: &F,
    err: &mut E,
    name: &[u8],
    done: std::io::Result<()>,
    left: &[u8],
) -> Result<(), Stopped> {
    let done = streams::told(err, name, done);
    if done.is_err() {
        abandon(files, left);
    }
    done
}

// Writes what was collected under the name beside. Told where that fails, or where the file would become empty and its bytes could not be kept; then
// nothing is left there.
pub fn prepare<F: Files, E: Write>(
    files: &F,
    err: &mut E,
    name: &[u8],
    beside: &[u8],
    file: &mut F::File,
) -> Result<(), Stopped> {
    if would_empty(files, name, file) {
        old_must_be_free(files, err, name)?;
    }
    done_or_abandoned(files, err, name, written(files, file, beside), beside)
}

// Puts what was prepared in the place of the file. Told where that fails, and then the file is as it was, and nothing is left beside it.
fn replace<F: Files, E: Write>(
    files: &F,
    err: &mut E,
    name: &[u8],
    beside: &[u8],
) -> Result<(), Stopped> {
    done_or_abandoned(files, err, name, rename(files, beside, name), beside)
}

// Gives the file the name old, which nobody may have: it is taken first, by a new empty file, since a renaming alone would replace another's. Told where
// that fails, and then the file is as it was.
fn set_aside<F: Files, E: Write>(
    files: &F,
    err: &mut E,
    name: &[u8],
    old: &[u8],
) -> Result<(), Stopped> {
    if let Err(failure) = create(files, old) {
        if failure.kind() == ErrorKind::AlreadyExists {
            tell_taken(err, name, old);
        } else {
            tell_failure(err, old, failure);
        }
        return Err(Stopped::Told);
    }
    done_or_abandoned(files, err, name, rename(files, name, old), old)
}

// The same as `replace`, the file's bytes kept under the name old: at every step they have one of the two names.
fn replace_keeping<F: Files, E: Write>(
    files: &F,
    err: &mut E,
    name: &[u8],
    beside: &[u8],
    old: &[u8],
) -> Result<(), Stopped> {
    if let Err(stopped) = set_aside(files, err, name, old) {
        abandon(files, beside);
        return Err(stopped);
    }
    if let Err(stopped) = replace(files, err, name, beside) {
        let _ = rename(files, old, name);
        return Err(stopped);
    }
    tell(err, name, b": is empty now; what it held is kept as ");
    tell(err, old, b"\n");
    Ok(())
}

// Puts what was prepared in the place of the file, whose bytes are kept as NAME.old where it would become empty. Told where that fails, and then the
// file is as it was, and nothing is left beside it.
pub fn put_in_place<F: Files, E: Write>(
    files: &F,
    err: &mut E,
    name: &[u8],
    beside: &[u8],
    file: &mut F::File,
) -> Result<(), Stopped> {
    if would_empty(files, name, file) {
        let mut old = io::buffer();
        let n = name_of_old(name, &mut old);
        return replace_keeping(files, err, name, beside, &old[..n]);
    }
    replace(files, err, name, beside)
}

// Takes back what was prepared.
pub fn abandon<F: Files>(files: &F, beside: &[u8]) {
    let _ = remove(files, beside);
}

// Both at once.
pub fn finish<F: Files, E: Write>(
    files: &F,
    err: &mut E,
    name: &[u8],
    beside: &[u8],
    file: &mut F::File,
) -> Result<(), Stopped> {
    prepare(files, err, name, beside, file)?;
    put_in_place(files, err, name, beside, file)
}
