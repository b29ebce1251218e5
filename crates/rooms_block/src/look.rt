// A look at a move with one of its numbers changed.
ghost use Rattle.std.specs.Prelude.{◌≡◌, ◌≤◌, set, length};
ghost use Rattle.clearance_call.specs.Call.{Told};

use clearance_call::{Cleared, clearance};

// A move as a caller has it: two outlines and 24 numbers, lent.
#[derive(Clone, Copy)]
pub struct Move<'a> {
    pub points_a: &'a [f32],
    pub points_b: &'a [f32],
    pub numbers: &'a [f32],
}

pub fn look(planned: Move<'_>, at: usize, value: f32, from: f32) -> Cleared
    requires { (length planned.numbers.now ≡ 24) × (at ≤ 3) }
    ensures { Told planned.entry.points_a.now planned.entry.points_b.now (set planned.entry.numbers.now at value) from result }
{
    let mut changed = [0.0f32; 24];
    changed.copy_from_slice(planned.numbers);
    changed[at] = value;
    clearance(planned.points_a, planned.points_b, &changed, from)
}
