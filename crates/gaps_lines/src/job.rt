// The line of a block: of one that is worked by its floats, of one that is refused by its number.
ghost use Rattle.std.specs.Prelude.{◌≡◌, ◌≤◌};
ghost use Rattle.std.specs.Float.{binary32};
ghost use Rattle.model.specs.Block.{most_points};
ghost use Rattle.model.specs.Sheet.{refused_line};
ghost use Rattle.model.specs.Wire.{byte};
ghost use Rattle.model.specs.Work as Work;
ghost use Rattle.text.specs.Written.{Room, Wrote};
ghost use Rattle.gaps_lines.specs.Gaps.{longest_line, worked_line};
ghost use Rattle.gaps_lines.specs.Pieces.{gaps_room, block_text};

use crate::fractions::{Moves, put_gaps};
use crate::put::put_two;
use block_floats::floats_at;
use model::Sweep;
use text::Draft;

// The move of the ten floats from a place on.
fn move_from(bytes: &[u8], from: usize) -> Sweep
    requires { from ≤ 512 }
    ensures { result ≡ Work.move_at (Work.floats_at bytes.now from 10) 0 }
{
    let numbers = floats_at(bytes, from, 10);
    sweep_numbers::move_of(&numbers[..10])
}

// The gaps of a block's outlines along its moves.
fn put_block(draft: &mut Draft<'_>, bytes: &[u8])
    requires { Room gaps_room draft.old × (byte bytes.now 4 ≤ most_points) × (byte bytes.now 5 ≤ most_points) }
    ensures { Wrote gaps_room draft.old (block_text bytes.now) draft.new }
{
    let move_a = move_from(bytes, 24);
    let move_b = move_from(bytes, 64);
    let most = ground::from_bits(wire::word(bytes, 16));
    let n_a = 2 * wire::byte(bytes, 4) as usize;
    let n_b = 2 * wire::byte(bytes, 5) as usize;
    let points_a = floats_at(bytes, 104, n_a);
    let points_b = floats_at(bytes, 232, n_b);
    let moves = Moves {
        points_a: &points_a[..n_a],
        sweep_a: move_a,
        points_b: &points_b[..n_b],
        sweep_b: move_b,
        most,
    };
    put_gaps(draft, moves);
}

// The line of block n, which is worked.
pub fn put_worked(draft: &mut Draft<'_>, n: u64, job: u32, bytes: &[u8])
    requires { Room longest_line draft.old × (byte bytes.now 4 ≤ most_points) × (byte bytes.now 5 ≤ most_points) }
    ensures { Wrote longest_line draft.old (worked_line binary32 n job bytes.now) draft.new }
{
    put_two(draft, n, job as u64, b' ');
    draft.put(b"0 ");
    put_block(draft, bytes);
}

// The line of block n, which is refused.
pub fn put_refused(draft: &mut Draft<'_>, n: u64, job: u32, number: u32)
    requires { Room longest_line draft.old }
    ensures { Wrote longest_line draft.old (refused_line n job number) draft.new }
{
    put_two(draft, n, job as u64, b' ');
    draft.put_number(number as u64, b'\n');
}
