// The entry points for programs in C and Rust, over numbers and slices. Nothing is required of the caller.
#![tactic(auto)]

mod built;
mod tell_moment;
mod tell_route;

ghost use Rattle.std.specs.Prelude.{◌≡◌};
ghost use Rattle.std.specs.Float.{binary32, binary64};
ghost use Rattle.model.specs.Nearest.{Rooted};
ghost use Rattle.model.specs.Ground.{vector};
ghost use Rattle.shapes.specs.Shapes.{plate_told, plate_left, placed_plate_told, placed_plate_left, bar_told, bar_left, placed_bar_told, placed_bar_left};
ghost use Rattle.list_calls.specs.Entry.{SweepTold, DistanceTold};
ghost use Rattle.foldflake.specs.Entry.{LineTold, built_number, PlacedTold};
ghost use Rattle.foldflake.specs.Moment.{PoseTold, GapTold};
ghost use Rattle.foldflake.specs.Route.{RouteTold};
ghost use Rattle.clearance_lists.specs.Entry.{ClearanceTold};
ghost use Rattle.route_clearance_lists.specs.Entry.{RouteClearanceTold};

use built::built_number;
use list_calls::pose_of;
use model::{COUNT_LIMIT, Vector};
use tell_moment::{tell_gap, tell_pose};
use tell_route::tell_route;

// The square root of every f32.
pub fn foldflake_root(x: f32) -> f32
    ensures { Rooted binary32 x result }
{
    root::root(x)
}

// The line of a block as block `number` of a file, at the start of out, and its length. 0, and nothing written, where the block has not 512
// bytes, the number is 0 or above 2^63, or out has fewer than 240 bytes.
pub fn foldflake_line(number: u64, block: &[u8], out: &mut [u8]) -> usize
    ensures { LineTold number block.now out.old out.new result }
{
    if block.len() != 512 {
        return 0;
    }
    if (number == 0) | (number > COUNT_LIMIT) {
        return 0;
    }
    let answer = work::answer_block(block);
    sheet_lines::write_line(number, answer, out)
}

// The sweep of two outlines. Numbers: both radii, the max fraction, the slop, and two moves of ten as in a block. The answer: a refusal, 1 to 8;
// 16 overlapped, 17 hit, 18 separated, 19 failed; 255 where a list has the wrong length. From 16 to 19 the fraction, the point and the normal
// stand in out; in counts the three counts, then of the last search the first and the second corner of A, and of B, FFFFFFFF where there is none. Else
// nothing is written.
pub fn foldflake_sweep(
    points_a: &[f32],
    points_b: &[f32],
    numbers: &[f32],
    out: &mut [f32],
    counts: &mut [u32],
) -> u32
    ensures { SweepTold binary32 points_a.now points_b.now numbers.now out.old counts.old
        out.new counts.new result }
{
    list_calls::sweep_call(points_a, points_b, numbers, out, counts)
}

// The distance of two outlines. Numbers: the cosine, the sine and the translation of the pose of B in the frame of A, and both radii, which
// count where use_radii is not 0. Pair: the caller's number for the two outlines. Cache: the number of its pair, the count and six indices, those of A
// first. The answer: a refusal, 1 to 6 or 12; 16 touching, 17 settled, 18 round limit, plus 256 times the rounds; 255 where a list has the wrong length
// or the count is above 255. From 16 on the point of A, the point of B, the normal and the distance stand in out, and the cache is as the call leaves it;
// else nothing is written.
pub fn foldflake_distance(
    points_a: &[f32],
    points_b: &[f32],
    numbers: &[f32],
    use_radii: u32,
    pair: u32,
    cache: &mut [u32],
    out: &mut [f32],
) -> u32
    ensures { DistanceTold binary32 points_a.now points_b.now numbers.now use_radii pair cache.old
        out.old cache.new out.new result }
{
    list_calls::distance_call(points_a, points_b, numbers, use_radii, pair, cache, out)
}

// The square root of every f64.
pub fn foldflake_root64(x: f64) -> f64
    ensures { Rooted binary64 x result }
{
    root64::root(x)
}

// What `foldflake_sweep` is for f32, in f64.
pub fn foldflake_sweep64(
    points_a: &[f64],
    points_b: &[f64],
    numbers: &[f64],
    out: &mut [f64],
    counts: &mut [u32],
) -> u32
    ensures { SweepTold binary64 points_a.now points_b.now numbers.now out.old counts.old
        out.new counts.new result }
{
    list_calls64::sweep_call(points_a, points_b, numbers, out, counts)
}

// What `foldflake_distance` is for f32, in f64.
pub fn foldflake_distance64(
    points_a: &[f64],
    points_b: &[f64],
    numbers: &[f64],
    use_radii: u32,
    pair: u32,
    cache: &mut [u32],
    out: &mut [f64],
) -> u32
    ensures { DistanceTold binary64 points_a.now points_b.now numbers.now use_radii pair cache.old
        out.old cache.new out.new result }
{
    list_calls64::distance_call(points_a, points_b, numbers, use_radii, pair, cache, out)
}

// The corners of a plate, by its half sizes, at the front of out: x y each, x negated at corners 1 and 3, y at 2 and 3. The answer: 32 built; 3 for
// a half size, 15 where out has fewer than 8 numbers. Refused, nothing is written.
pub fn foldflake_plate(half_x: f32, half_y: f32, out: &mut [f32]) -> u32
    ensures { (result ≡ built_number (plate_told binary32 half_x half_y out.old))
        × (out.new ≡ plate_left binary32 half_x half_y out.old) }
{
    built_number(shapes::plate(half_x, half_y, out))
}

// The corners of a bar, its ends a and b, in the same way: 3 for an end, 15 where out has fewer than 4 numbers.
pub fn foldflake_bar(ax: f32, ay: f32, bx: f32, by: f32, out: &mut [f32]) -> u32
    ensures { (result ≡ built_number (bar_told binary32 (vector ax ay) (vector bx by) out.old))
        × (out.new ≡ bar_left binary32 (vector ax ay) (vector bx by) out.old) }
{
    let a = Vector { x: ax, y: ay };
    let b = Vector { x: bx, y: by };
    built_number(shapes::bar(a, b, out))
}

// The plate, each corner moved by a pose: its cosine, its sine and its translation. First of all 255 where the pose has not four numbers; 5 and 6 for
// the pose come between 3 and 15.
pub fn foldflake_placed_plate(half_x: f32, half_y: f32, pose: &[f32], out: &mut [f32]) -> u32
    ensures { PlacedTold (placed_plate_told binary32 half_x half_y) (placed_plate_left binary32 half_x half_y) pose.now
        out.old out.new result }
{
    if pose.len() != 4 {
        return 255;
    }
    let placement = pose_of(pose);
    built_number(shapes::placed_plate(half_x, half_y, placement, out))
}

// The bar, moved by a pose in the same way.
pub fn foldflake_placed_bar(
    ax: f32,
    ay: f32,
    bx: f32,
    by: f32,
    pose: &[f32],
    out: &mut [f32],
) -> u32
    ensures { PlacedTold (placed_bar_told binary32 (vector ax ay) (vector bx by)) (placed_bar_left binary32 (vector ax ay) (vector bx by))
        pose.now out.old out.new result }
{
    if pose.len() != 4 {
        return 255;
    }
    let a = Vector { x: ax, y: ay };
    let b = Vector { x: bx, y: by };
    let placement = pose_of(pose);
    built_number(shapes::placed_bar(a, b, placement, out))
}

// The pose of a body at a fraction of its move, whose ten numbers are those of a block. The answer: a refusal, 5 to 7; 32, and then the cosine, the
// sine and the translation stand in out; 255 where a list has the wrong length. Else nothing is written.
pub fn foldflake_pose(planned: &[f32], fraction: f32, out: &mut [f32]) -> u32
    ensures { PoseTold planned.now fraction out.old out.new result }
{
    if (planned.len() == 10) & (out.len() == 4) {
        let pose = at_fraction::pose_at(sweep_numbers::move_of(planned), fraction);
        tell_pose(pose, out)
    } else {
        255
    }
}

// How far apart two outlines are, without radii, at a fraction of their moves, ten numbers each. The answer: a refusal, 1 to 3 or 5 to 7; 32, and
// then the distance stands in out; 255 where a list has the wrong length. Else nothing is written.
pub fn foldflake_gap(
    points_a: &[f32],
    move_a: &[f32],
    points_b: &[f32],
    move_b: &[f32],
    fraction: f32,
    out: &mut [f32],
) -> u32
    ensures { GapTold points_a.now move_a.now points_b.now move_b.now fraction out.old
        out.new result }
{
    if (move_a.len() == 10) & (move_b.len() == 10) & (out.len() == 1) {
        let sweep_a = sweep_numbers::move_of(move_a);
        let sweep_b = sweep_numbers::move_of(move_b);
        let apart = at_fraction::gap_at(points_a, sweep_a, points_b, sweep_b, fraction);
        tell_gap(apart, out)
    } else {
        255
    }
}

// The route of a cart past still outlines: waypoints of four numbers (centre, cosine and sine), the outlines in one list with the length of each in
// numbers beside it. The answer: 32 clear, 33 overlapped, 34 hit, 35 failed; a refusal, 1 to 8 of the sweep in hand, 16 for fewer than 2 or more than
// 33 waypoints, 17 for no outline or more than 32; 255 where a list has the wrong length. From 33 to 35 the fraction, the point and the normal stand in
// out. In place the leg and the outline, both from 1, and the distance calls of all sweeps run; for 32 two zeros and the calls; for 16, 17 and 255
// nothing is written.
pub fn foldflake_route(
    cart: &[f32],
    waypoints: &[f32],
    stills: &[f32],
    lengths: &[u32],
    slop: f32,
    out: &mut [f32],
    place: &mut [u32],
) -> u32
    ensures { RouteTold cart.now waypoints.now stills.now lengths.now slop out.old
        place.old out.new place.new result }
{
    if (out.len() == 5) & (place.len() == 3) {
        let answer = route_legs::route(cart, waypoints, stills, lengths, slop);
        tell_route(answer, out, place)
    } else {
        255
    }
}

// What holds at every fraction from `from` to the max fraction. Numbers as a sweep has them; the distance to keep is the larger of the slop and the sum of
// the radii. The answer: 32 clear, 33 touch, 34 open; a refusal, 1 to 8, 7 also for a `from` that is not from 0 to the max fraction; 255 where a list has
// the wrong length. From 32 to 34 two fractions stand in out: the end twice of clear; of touch up to where the way is clear, and where they are no farther
// apart; of open up to where the way is clear, and the end. In pieces how many pieces of the way were tried. Else nothing is written.
pub fn foldflake_clearance(
    points_a: &[f32],
    points_b: &[f32],
    numbers: &[f32],
    from: f32,
    out: &mut [f32],
    pieces: &mut [u32],
) -> u32
    ensures { ClearanceTold points_a.now points_b.now numbers.now from out.old pieces.old
        out.new pieces.new result }
{
    clearance_lists::clearance_told(points_a, points_b, numbers, from, out, pieces)
}

// The same route looked at as a whole: each leg past each still outline, in that order, up to the first pair that is not clear at every moment of the leg. The
// distance to keep is the slop. The answer: 32 clear, 33 touch, 34 open; refusals as of the route; 255 where a list has the wrong length. From 32 to 34 two
// fractions stand in out: 1 twice of clear; of touch up to where the leg is clear, and where they are no farther apart; of open up to where the leg is clear,
// and 1. In place the leg and the outline, both from 1, and the pieces of all pairs looked at; for 32 two zeros and the pieces; for 16, 17 and 255 nothing is
// written.
pub fn foldflake_route_clearance(
    cart: &[f32],
    waypoints: &[f32],
    stills: &[f32],
    lengths: &[u32],
    slop: f32,
    out: &mut [f32],
    place: &mut [u32],
) -> u32
    ensures { RouteClearanceTold cart.now waypoints.now stills.now lengths.now slop out.old
        place.old out.new place.new result }
{
    route_clearance_lists::route_clearance_told(cart, waypoints, stills, lengths, slop, out, place)
}
