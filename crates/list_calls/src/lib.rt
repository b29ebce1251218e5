// The sweep and the distance call over lists of numbers, as programs in C and Rust have them. Nothing is required of the caller.
#![tactic(auto)]

mod numbers;
mod tell;

ghost use Rattle.std.specs.Float.{binary32};
ghost use Rattle.list_calls.specs.Entry.{SweepTold, DistanceTold};

pub use numbers::pose_of;
use numbers::{cache_of, distance_of};
pub use tell::put_contact;
use tell::{tell_distance, tell_sweep};

// What `foldflake_sweep` answers.
pub fn sweep_call(
    points_a: &[f32],
    points_b: &[f32],
    numbers: &[f32],
    out: &mut [f32],
    counts: &mut [u32],
) -> u32
    ensures { SweepTold binary32 points_a.now points_b.now numbers.now out.old counts.old
        out.new counts.new result }
{
    if (numbers.len() == 24) & (out.len() == 5) & (counts.len() == 7) {
        let swept = sweep_numbers::sweep_of(points_a, points_b, numbers);
        tell_sweep(sweep_numbers::told(swept), out, counts)
    } else {
        255
    }
}

// What `foldflake_distance` answers.
pub fn distance_call(
    points_a: &[f32],
    points_b: &[f32],
    numbers: &[f32],
    use_radii: u32,
    pair: u32,
    cache: &mut [u32],
    out: &mut [f32],
) -> u32
    ensures { DistanceTold binary32 points_a.now points_b.now numbers.now use_radii pair cache.old
        out.old cache.new out.new result }
{
    if (numbers.len() == 6) & (cache.len() == 8) & (out.len() == 7) {
        if cache[1] < 256 {
            let start = cache_of(cache);
            let measured = distance_of(points_a, points_b, numbers, use_radii > 0, pair, start);
            tell_distance(measured, cache, out)
        } else {
            255
        }
    } else {
        255
    }
}
