// Lines to blocks, part by part, with the line that a part ends in carried on.
#![tactic(auto)]

ghost use Rattle.std.specs.Prelude.{◌≡◌, ◌+◌, ◌≤◌, ◌<◌, [], length, take};
ghost use Rattle.text.specs.Put.{Put};
ghost use Rattle.job_text.specs.Job.{longest_line};
ghost use Rattle.job_text.specs.Room.{refusal_room};
ghost use Rattle.pack_lines.specs.Pack.{longer, held_of, held_after, run_in, last_for, Ends};

// What is kept of the line that a part ended in, and how many lines ended before it. There is no heap, so the line stands in an array with its size beside.
#[derive(Clone, Copy)]
pub struct Held {
    pub line: [u8; 855],
    pub size: usize,
    pub lines: u64,
}

// What is held after a part, and the places after both texts.
#[derive(Clone, Copy)]
pub struct Packed {
    pub held: Held,
    pub at: usize,
    pub told: usize,
}

// The places after both texts, the size of the line and how many have ended.
#[derive(Clone, Copy)]
struct Ended {
    at: usize,
    told: usize,
    size: usize,
    lines: u64,
}

// Where the input starts.
pub fn no_line() -> Held
    ensures { result ≡ held_of [] 0 }
{
    Held {
        line: [0; 855],
        size: 0,
        lines: 0,
    }
}

// One byte more of the line, where it can still be a job.
fn hold(line: &mut [u8], size: usize, x: u8) -> usize
    requires { (length line.old ≡ longest_line) × (size ≤ longest_line) }
    ensures { (take result line.new ≡ longer (take size line.old) x) × (result ≤ longest_line) }
{
    if size < 855 {
        line[size] = x;
        return size + 1;
    }
    size
}

// What a line that has got this byte comes to, where that ends it.
fn end_line(x: u8, line: &[u8], out: &mut [u8], err: &mut [u8], so_far: Ended) -> Ended
    requires { (so_far.at + 512 ≤ length out.old) × (so_far.told + refusal_room ≤ length err.old) × (so_far.lines < 0xffff_ffff_ffff_ffff) }
    ensures { Ends x line.now so_far.lines out.old so_far.at out.new result.at
        err.old so_far.told err.new result.told result.size result.lines }
{
    if x != b'\n' {
        return Ended {
            at: so_far.at,
            told: so_far.told,
            size: line.len(),
            lines: so_far.lines,
        };
    }
    let built = job_text::job_block(line);
    if built.job {
        let block = built.block;
        let end = text::put_text(out, so_far.at, &block);
        return Ended {
            at: end,
            told: so_far.told,
            size: 0,
            lines: so_far.lines + 1,
        };
    }
    let end = job_text::put_refusal(err, so_far.told, so_far.lines + 1, 14);
    Ended {
        at: so_far.at,
        told: end,
        size: 0,
        lines: so_far.lines + 1,
    }
}

// A line that was handed on, laid where it can grow.
fn lay(old: [u8; 855], size: usize, line: &mut [u8]) -> usize
    requires { length line.old ≡ longest_line }
    ensures { (take result line.new ≡ take size old) × (result ≤ longest_line) }
{
    let n = size.min(855);
    text::put_text(line, 0, &old[..n])
}

// A line as it is handed on, zeros after it.
fn kept(line: &[u8], lines: u64) -> Held
    requires { length line.now ≤ longest_line }
    ensures { result ≡ held_of line.now lines }
{
    let mut bytes = [0u8; 855];
    let size = text::put_text(&mut bytes, 0, line);
    Held {
        line: bytes,
        size,
        lines,
    }
}

// Packs as many bytes of a part as there is room for if each of them ended a line: blocks to the start of out, refusals to the start of err.
pub fn pack_part(part: &[u8], held: Held, out: &mut [u8], err: &mut [u8]) -> Packed
    ensures put { Put out.old 0 (run_in held part.now (length out.old) (length err.old)).out
        out.new result.at }
    ensures put_2 { Put err.old 0 (run_in held part.now (length out.old) (length err.old)).told
        err.new result.told
        × (result.held ≡ held_after (run_in held part.now (length out.old) (length err.old))) }
{
    let n = job_text::used_of(part.len(), out.len() / 512, err.len(), held.lines);
    let old = held.line;
    let mut line = [0u8; 855];
    let size = lay(old, held.size, &mut line);
    let mut ended = Ended {
        at: 0,
        told: 0,
        size,
        lines: held.lines,
    };
    for x in &part[..n] {
        let now = hold(&mut line, ended.size, *x);
        ended = end_line(*x, &line[..now], out, err, ended);
    }
    let after = kept(&line[..ended.size], ended.lines);
    Packed {
        held: after,
        at: ended.at,
        told: ended.told,
    }
}

// After the last part: a line without its newline is no job.
pub fn tell_last(held: Held, err: &mut [u8]) -> usize
    ensures { Put err.old 0 (last_for held (length err.old)) err.new result }
{
    if held.size == 0 {
        return 0;
    }
    job_text::tell_refusal(held.lines, 14, err)
}
