// Refusals as text, and how much of the input there is room for.
ghost use Rattle.std.specs.Prelude.{◌≡◌, ◌+◌, ◌≤◌, length};
ghost use Rattle.text.specs.Put.{Put, where_room};
ghost use Rattle.text.specs.Written.{Room, Wrote};
ghost use Rattle.job_text.specs.Room.{refusal, refusal_room, told_for, used_of};

use model::COUNT_LIMIT;
use text::Draft;

// What the longest refusal takes.
const REFUSAL_ROOM: usize = 42;

// A line or a block, by its number, and why it is refused.
fn put_both(draft: &mut Draft<'_>, n: u64, why: u64)
    requires { Room refusal_room draft.old }
    ensures { Wrote refusal_room draft.old (refusal n why) draft.new }
{
    draft.put_number(n, b' ');
    draft.put_number(why, b'\n');
}

// The same where there is room for the longest; else nothing is written, and the place stays.
pub fn put_refusal(err: &mut [u8], at: usize, n: u64, why: u64) -> usize
    ensures { Put err.old at (where_room (at + refusal_room) (length err.old) (refusal n why)) err.new result }
{
    if err.len() < REFUSAL_ROOM {
        return at;
    }
    if err.len() - REFUSAL_ROOM < at {
        return at;
    }
    let mut draft = Draft { bytes: err, at };
    put_both(&mut draft, n, why);
    draft.at
}

// The refusal of the one after so many, at the start, where there is room and it can be counted.
pub fn tell_refusal(before: u64, why: u64, err: &mut [u8]) -> usize
    ensures { Put err.old 0 (told_for before why (length err.old)) err.new result }
{
    if before >= COUNT_LIMIT {
        return 0;
    }
    put_refusal(err, 0, before + 1, why)
}

// Of so many bytes or blocks those that have room, if each of them were written and each refused.
pub fn used_of(size: usize, most: usize, told: usize, before: u64) -> usize
    ensures { result ≡ used_of size most told before }
{
    if before < COUNT_LIMIT {
        return size.min(most).min(told / REFUSAL_ROOM);
    }
    0
}
