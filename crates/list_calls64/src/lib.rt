// Written by tests/written/wide.py from list_calls, in f64.
// The sweep and the distance call over lists of numbers, as programs in C and Rust have them. Nothing is required of the caller.
#![tactic(auto)]

mod numbers;
mod tell;

ghost use Rattle.std.specs.Float.{binary64};
ghost use Rattle.list_calls64.specs.Entry.{SweepTold, DistanceTold};

pub use numbers::pose_of;
use numbers::{cache_of, distance_of};
pub use tell::put_contact;
use tell::{tell_distance, tell_sweep};

// What `foldflake_sweep` answers.
pub fn sweep_call(
    points_a: &[f64],
    points_b: &[f64],
    numbers: &[f64],
    out: &mut [f64],
    counts: &mut [u32],
) -> u32
    ensures { SweepTold binary64 points_a.now points_b.now numbers.now out.old counts.old
        out.new counts.new result }
{
    if (numbers.len() == 24) & (out.len() == 5) & (counts.len() == 7) {
        let swept = sweep_numbers64::sweep_of(points_a, points_b, numbers);
        tell_sweep(sweep_numbers64::told(swept), out, counts)
    } else {
        255
    }
}

// What `foldflake_distance` answers.
pub fn distance_call(
    points_a: &[f64],
    points_b: &[f64],
    numbers: &[f64],
    use_radii: u32,
    pair: u32,
    cache: &mut [u32],
    out: &mut [f64],
) -> u32
    ensures { DistanceTold binary64 points_a.now points_b.now numbers.now use_radii pair cache.old
        out.old cache.new out.new result }
{
    if (numbers.len() == 6) & (cache.len() == 8) & (out.len() == 7) {
        if cache[1] < 256 {
            let start = cache_of(cache);
            let measured = distance_of(points_a, points_b, numbers, use_radii > 0, pair, start);
            tell_distance(measured, cache, out)
        } else {
            255
        }
    } else {
        255
    }
}
