// From a block to the room that its whole move keeps, and to what is proved of each of its 64 parts.
#![tactic(auto)]

mod cells;
mod look;
mod room;

ghost use Rattle.std.specs.Prelude.{◌≡◌, ◌≤◌, length};
ghost use Rattle.model.specs.Block.{most_points, checked_block};
ghost use Rattle.rooms_block.specs.Answer.{Numbered, Told, AnswerBy, AnswerOf};

use block_floats::floats_at;
use cells::cells_of;
use clearance_call::refusal_of;
use look::Move;
use model::{Block, BlockRefusal};
use outline::point;
use room::room_of;

// What is proved of a block's move: its job, the room that it keeps, if one was found, and a letter for each cell.
#[derive(Clone, Copy)]
pub struct Proved {
    pub job: u32,
    pub room: Option<f32>,
    pub cells: [u8; 64],
}

// What a block comes to; of a refused one the job, 0 where none can be told, and the number.
pub type BlockRooms = Result<Proved, BlockRefusal>;

// Of a move, under its job.
fn rooms_of(planned: Move<'_>, job: u32) -> BlockRooms
    requires { length planned.numbers.now ≡ 24 }
    ensures { Numbered planned.entry.points_a.now planned.entry.points_b.now planned.entry.numbers.now job result }
{
    let number = refusal_of(planned.points_a, planned.points_b, planned.numbers, 0.0);
    if number > 0 {
        return Err(BlockRefusal { job, number });
    }
    let radii = point(planned.numbers, 0);
    let limits = point(planned.numbers, 1);
    let first = ground::max(limits.y, radii.x + radii.y);
    let room = room_of(planned, limits.y, first);
    let cells = cells_of(planned, limits.x);
    Ok(Proved { job, room, cells })
}

fn rooms_along(part: &[u8], k: Block) -> BlockRooms
    requires { (k.count_a ≤ most_points) × (k.count_b ≤ most_points) }
    ensures { Told part.now k result }
{
    let n_a = 2 * k.count_a;
    let n_b = 2 * k.count_b;
    let points_a = floats_at(part, 104, n_a);
    let points_b = floats_at(part, 232, n_b);
    let numbers = floats_at(part, 8, 24);
    let planned = Move {
        points_a: &points_a[..n_a],
        points_b: &points_b[..n_b],
        numbers: &numbers[..24],
    };
    rooms_of(planned, k.job)
}

fn rooms_checked(part: &[u8]) -> BlockRooms
    ensures { AnswerBy part.now (checked_block part.now) result }
{
    let checked = block::check_block(part);
    match checked {
        Ok(k) => rooms_along(part, k),
        Err(refusal) => Err(refusal),
    }
}

// What the block that a part holds comes to; one that has not 512 bytes is refused by 9.
pub fn block_rooms(part: &[u8]) -> BlockRooms
    ensures { AnswerOf part.now result }
{
    if part.len() != 512 {
        return Err(BlockRefusal { job: 0, number: 9 });
    }
    rooms_checked(part)
}
