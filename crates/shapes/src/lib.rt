// Outlines without typing corners: a plate from two half sizes, a bar from two ends, and both placed by a pose. The corners go to the front of a
// lent list, x y each, and the rest of it stays. A build answers how many corners it wrote; a refused one writes nothing.
#![tactic(auto)]

ghost use Rattle.std.specs.Prelude.{◌≡◌};
ghost use Rattle.std.specs.Float.{binary32};
ghost use Rattle.model.specs.Domain.{checked};
ghost use Rattle.shapes.specs.Shapes as Shapes;

use domain::{bad_vector, check_pose, pose_refusal};
use ground::transform_point;
use model::{BAD_PART, NO_ROOM, Pose, Refusal, Vector};

// 3 for a half size that is no part of a point, or below 0.
fn check_plate(half_x: f32, half_y: f32) -> Result<(), Refusal>
    ensures { result ≡ checked (Shapes.plate_refusal binary32 half_x half_y) }
{
    let half = Vector {
        x: half_x,
        y: half_y,
    };
    if bad_vector(half) | (half_x < 0.0) | (half_y < 0.0) {
        Err(BAD_PART)
    } else {
        Ok(())
    }
}

// 3 for an end that is no point.
fn check_bar(a: Vector, b: Vector) -> Result<(), Refusal>
    ensures { result ≡ checked (Shapes.bar_refusal binary32 a b) }
{
    if bad_vector(a) | bad_vector(b) {
        Err(BAD_PART)
    } else {
        Ok(())
    }
}

// The corners; 15 where there is no room.
fn build(corners: &[Vector], out: &mut [f32]) -> Result<usize, Refusal>
    ensures { (result ≡ Shapes.told 0 corners.now out.old) × (out.new ≡ Shapes.left 0 corners.now out.old) }
{
    if out.len() / 2 < corners.len() {
        return Err(NO_ROOM);
    }
    for (i, p) in corners.iter().enumerate() {
        out[2 * i] = p.x;
        out[2 * i + 1] = p.y;
    }
    Ok(corners.len())
}

// Corner k has the half sizes, x negated where bit 0 of k is set and y where bit 1 is.
fn plate_corners(half_x: f32, half_y: f32) -> [Vector; 4]
    ensures { result ≡ Shapes.plate_corners half_x half_y }
{
    [
        Vector {
            x: half_x,
            y: half_y,
        },
        Vector {
            x: -half_x,
            y: half_y,
        },
        Vector {
            x: half_x,
            y: -half_y,
        },
        Vector {
            x: -half_x,
            y: -half_y,
        },
    ]
}

// Moves each corner by the pose.
fn place(pose: Pose, corners: &mut [Vector])
    ensures { corners.new ≡ Shapes.placed binary32 pose corners.old }
{
    for corner in corners.iter_mut() {
        *corner = transform_point(pose, *corner);
    }
}

// A plate about the origin.
pub fn plate(half_x: f32, half_y: f32, out: &mut [f32]) -> Result<usize, Refusal>
    ensures { (result ≡ Shapes.plate_told binary32 half_x half_y out.old)
        × (out.new ≡ Shapes.plate_left binary32 half_x half_y out.old) }
{
    check_plate(half_x, half_y)?;
    let corners = plate_corners(half_x, half_y);
    build(&corners, out)
}

// A bar from a to b.
pub fn bar(a: Vector, b: Vector, out: &mut [f32]) -> Result<usize, Refusal>
    ensures { (result ≡ Shapes.bar_told binary32 a b out.old) × (out.new ≡ Shapes.bar_left binary32 a b out.old) }
{
    check_bar(a, b)?;
    let corners = [a, b];
    build(&corners, out)
}

// The plate, each corner moved by the pose.
pub fn placed_plate(half_x: f32, half_y: f32, pose: Pose, out: &mut [f32]) -> Result<usize, Refusal>
    ensures { (result ≡ Shapes.placed_plate_told binary32 half_x half_y pose out.old)
        × (out.new ≡ Shapes.placed_plate_left binary32 half_x half_y pose out.old) }
{
    check_plate(half_x, half_y)?;
    let posed = check_pose(pose);
    let Ok(good) = posed else {
        let number = pose_refusal(posed);
        return Err(Refusal { number });
    };
    let mut corners = plate_corners(half_x, half_y);
    place(good, &mut corners);
    build(&corners, out)
}

// The bar, both ends moved by the pose.
pub fn placed_bar(a: Vector, b: Vector, pose: Pose, out: &mut [f32]) -> Result<usize, Refusal>
    ensures { (result ≡ Shapes.placed_bar_told binary32 a b pose out.old)
        × (out.new ≡ Shapes.placed_bar_left binary32 a b pose out.old) }
{
    check_bar(a, b)?;
    let posed = check_pose(pose);
    let Ok(good) = posed else {
        let number = pose_refusal(posed);
        return Err(Refusal { number });
    };
    let mut corners = [a, b];
    place(good, &mut corners);
    build(&corners, out)
}
