// A look at a planned move over lists of numbers, as programs in C and Rust have them. Nothing is required of the caller.
#![tactic(auto)]

ghost use Rattle.std.specs.Prelude.{◌≡◌, [], ◌∷◌, ◌≤◌, length};
ghost use Rattle.std.specs.Float.{binary32};
ghost use Rattle.clearance_lists.specs.Entry.{cleared_number, fraction_at, fractions_after, pieces_after, Few, ClearanceTold};

use clearance_call::{Cleared, clearance};
use outline::point;
use places::place_bits;

// The place k of 2^24 as a fraction of the way.
pub fn fraction_at(k: u64) -> f32
    ensures { result ≡ fraction_at k }
{
    ground::from_bits(place_bits(k))
}

fn put_fractions(out: &mut [f32], first: f32, last: f32)
    requires { length out.old ≡ 2 }
    ensures { out.new ≡ first ∷ last ∷ [] }
{
    out[0] = first;
    out[1] = last;
}

fn put_pieces(out: &mut [u32], n: u64)
    requires { (length out.old ≡ 1) × (n ≤ 4096) }
    ensures { out.new ≡ n ∷ [] }
{
    out[0] = n as u32;
}

// Two fractions and the pieces, under a number.
fn put(number: u32, first: f32, last: f32, n: u64, out: &mut [f32], pieces: &mut [u32]) -> u32
    requires { (length out.old ≡ 2) × (length pieces.old ≡ 1) × (n ≤ 4096) }
    ensures { (result ≡ number) × (out.new ≡ first ∷ last ∷ []) × (pieces.new ≡ n ∷ []) }
{
    put_fractions(out, first, last);
    put_pieces(pieces, n);
    number
}

// A refusal writes nothing.
fn tell(answer: Cleared, end: f32, out: &mut [f32], pieces: &mut [u32]) -> u32
    requires { (length out.old ≡ 2) × (length pieces.old ≡ 1) × Few answer }
    ensures { (result ≡ cleared_number answer) × (out.new ≡ fractions_after end answer out.old)
        × (pieces.new ≡ pieces_after answer pieces.old) }
{
    match answer {
        Cleared::Refused(number) => number,
        Cleared::Clear { pieces: n } => put(32, end, end, n, out, pieces),
        Cleared::Touch {
            clear_up_to,
            within_by,
            pieces: n,
        } => put(
            33,
            fraction_at(clear_up_to),
            fraction_at(within_by),
            n,
            out,
            pieces,
        ),
        Cleared::Open {
            clear_up_to,
            pieces: n,
        } => put(34, fraction_at(clear_up_to), end, n, out, pieces),
    }
}

// What `foldflake_clearance` answers.
pub fn clearance_told(
    points_a: &[f32],
    points_b: &[f32],
    numbers: &[f32],
    from: f32,
    out: &mut [f32],
    pieces: &mut [u32],
) -> u32
    ensures { ClearanceTold points_a.now points_b.now numbers.now from out.old pieces.old
        out.new pieces.new result }
{
    if (numbers.len() == 24) & (out.len() == 2) & (pieces.len() == 1) {
        let answer = clearance(points_a, points_b, numbers, from);
        let limits = point(numbers, 1);
        tell(answer, limits.x, out, pieces)
    } else {
        255
    }
}
