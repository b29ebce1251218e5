// The gaps at 257 fractions of two moves.
ghost use Rattle.std.specs.Prelude.{◌≡◌};
ghost use Rattle.std.specs.Float.{binary32};
ghost use Rattle.text.specs.Written.{Room, Wrote};
ghost use Rattle.gaps_lines.specs.Gaps as Gaps;
ghost use Rattle.gaps_lines.specs.Pieces.{gap_room, gap_text, gaps_text, gaps_room};

use crate::put::put_float;
use at_fraction::gap;
use model::Sweep;
use text::Draft;

// Two outlines, their moves, and the max fraction of these.
#[derive(Clone, Copy)]
pub struct Moves<'a> {
    pub points_a: &'a [f32],
    pub sweep_a: Sweep,
    pub points_b: &'a [f32],
    pub sweep_b: Sweep,
    pub most: f32,
}

// The k-th of 256 steps from 0 to the max fraction.
fn fraction_at(most: f32, k: u16) -> f32
    ensures { result ≡ Gaps.fraction_at binary32 most k }
{
    most * (k as f32 / 256.0)
}

// The gap there, and a byte after it.
fn put_gap(draft: &mut Draft<'_>, moves: Moves, k: u16, end: u8)
    requires { Room gap_room draft.old }
    ensures { Wrote gap_room draft.old
        (gap_text moves.entry.points_a.now moves.entry.sweep_a moves.entry.points_b.now moves.entry.sweep_b moves.entry.most k end) draft.new }
{
    let fraction = fraction_at(moves.most, k);
    let apart = gap(
        moves.points_a,
        moves.sweep_a,
        moves.points_b,
        moves.sweep_b,
        fraction,
    );
    put_float(draft, apart, end);
}

// All of them, with a blank between and a newline.
pub fn put_gaps(draft: &mut Draft<'_>, moves: Moves)
    requires { Room gaps_room draft.old }
    ensures { Wrote gaps_room draft.old
        (gaps_text moves.entry.points_a.now moves.entry.sweep_a moves.entry.points_b.now moves.entry.sweep_b moves.entry.most) draft.new }
{
    for k in 0..256 {
        put_gap(draft, moves, k, b' ');
    }
    put_gap(draft, moves, 256, b'\n');
}
