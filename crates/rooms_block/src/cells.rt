// The 64 cells of a move: what is proved of each part of it.
ghost use Rattle.std.specs.Prelude.{◌≡◌, ◌+◌, ◌≤◌, length};
ghost use Rattle.rooms_block.specs.Rooms.{touch_letter, letter_by, Cell, CellsTo};
ghost use Rattle.rooms_block.specs.Rooms as Rooms;

use crate::look::{Move, look};
use clearance_call::Cleared;

// Where cell k starts, and the one before it ends: k / 64 of the max fraction.
fn edge(end: f32, k: u64) -> f32
    requires { k ≤ 64 }
    ensures { result ≡ Rooms.edge end k }
{
    let share = ground::from_bits(places::place_bits(262144 * k));
    end * share
}

// A contact counts where it is not before the cell, but for less than one place on the way.
fn touch_letter(from: f32, place: u64) -> u8
    ensures { result ≡ touch_letter from place }
{
    if place > 16777216 {
        return b'O';
    }
    let next = ground::from_bits(places::place_bits(place + 1));
    if from <= next { b'T' } else { b'O' }
}

// C where it is clear, T where it touches, O where neither was settled.
fn letter_by(from: f32, answer: Cleared) -> u8
    ensures { result ≡ letter_by from answer }
{
    match answer {
        Cleared::Clear { .. } => b'C',
        Cleared::Touch { within_by, .. } => touch_letter(from, within_by),
        Cleared::Refused(_) | Cleared::Open { .. } => b'O',
    }
}

fn letter(planned: Move<'_>, from: f32, to: f32) -> u8
    requires { length planned.numbers.now ≡ 24 }
    ensures { Cell planned.entry.points_a.now planned.entry.points_b.now planned.entry.numbers.now from to result }
{
    let answer = look(planned, 2, to, from);
    letter_by(from, answer)
}

pub fn cells_of(planned: Move<'_>, end: f32) -> [u8; 64]
    requires { length planned.numbers.now ≡ 24 }
    ensures { (length result ≡ 64) × CellsTo planned.entry.points_a.now planned.entry.points_b.now planned.entry.numbers.now end result 64 }
{
    let mut cells = [b'O'; 64];
    for (k, cell) in cells.iter_mut().enumerate() {
        *cell = letter(planned, edge(end, k as u64), edge(end, k as u64 + 1));
    }
    cells
}
