// The separation function: its axis from the cached corners, and the separation along it at a time, of given corners or of the deepest.
ghost use Rattle.std.specs.Prelude.{◌≡◌};
ghost use Rattle.std.specs.Float.{binary32};
ghost use Rattle.model.specs.Separation as Separation;
ghost use Rattle.model.specs.Corners.{no_corner, corners_a, corners_b};
ghost use Rattle.separation.specs.ByPoses as ByPoses;

use ground::{
    add, dot, inv_rotate_vec, neg, normalize_or_zero, rotate_vec, scale, sub, transform_point,
};
use model::{
    Corners, MinSeparation, NO_CORNER, Pose, Search, SeparationFunction, SeparationType,
    SimplexCache, SupportPair, Sweep, Vector,
};
use outline::{point, support_pair};

// The unit vector across the edge from u to w.
fn across(u: Vector, w: Vector) -> Vector
    ensures { result ≡ Separation.across binary32 u w }
{
    let e = sub(w, u);
    normalize_or_zero(Vector { x: e.y, y: -e.x })
}

fn middle(u: Vector, w: Vector) -> Vector
    ensures { result ≡ Separation.middle binary32 u w }
{
    scale(add(u, w), 0.5)
}

// The axis through the local point of a face, turned to the side of the other outline's point.
fn toward(xf: Pose, local_point: Vector, other: Vector, axis: Vector) -> Vector
    ensures { result ≡ Separation.toward binary32 xf local_point other axis }
{
    let side = dot(
        sub(other, transform_point(xf, local_point)),
        rotate_vec(xf.rotation, axis),
    );
    if side < 0.0 { neg(axis) } else { axis }
}

// Along the axis from a corner of A to a corner of B. Two bodies, each with its list, move and pose, are parameters of their own here and below, as the definitions
// have them and as the published functions do.
fn of_points(
    points_a: &[f32],
    sweep_a: Sweep,
    points_b: &[f32],
    sweep_b: Sweep,
    xf_a: Pose,
    xf_b: Pose,
    index_a: u32,
    index_b: u32,
) -> SeparationFunction
    ensures { result ≡ Separation.of_points binary32 sweep_a sweep_b points_a.now points_b.now xf_a xf_b index_a
        index_b }
{
    let point_a = transform_point(xf_a, point(points_a, index_a));
    let point_b = transform_point(xf_b, point(points_b, index_b));
    let local_point = Vector { x: 0.0, y: 0.0 };
    let axis = normalize_or_zero(sub(point_b, point_a));
    SeparationFunction {
        sweep_a,
        sweep_b,
        local_point,
        axis,
        ty: SeparationType::Points,
    }
}

// Along the normal of the edge of A between two corners, toward a corner of B.
fn of_face_a(
    points_a: &[f32],
    sweep_a: Sweep,
    points_b: &[f32],
    sweep_b: Sweep,
    xf_a: Pose,
    xf_b: Pose,
    index_a1: u32,
    index_a2: u32,
    index_b: u32,
) -> SeparationFunction
    ensures { result ≡ Separation.of_face_a binary32 sweep_a sweep_b points_a.now points_b.now xf_a xf_b index_a1
        index_a2 index_b }
{
    let local_point1 = point(points_a, index_a1);
    let local_point2 = point(points_a, index_a2);
    let local_point = middle(local_point1, local_point2);
    let point_b = transform_point(xf_b, point(points_b, index_b));
    let axis = toward(
        xf_a,
        local_point,
        point_b,
        across(local_point1, local_point2),
    );
    SeparationFunction {
        sweep_a,
        sweep_b,
        local_point,
        axis,
        ty: SeparationType::FaceA,
    }
}

// Along the normal of the edge of B between two corners, toward a corner of A.
fn of_face_b(
    points_a: &[f32],
    sweep_a: Sweep,
    points_b: &[f32],
    sweep_b: Sweep,
    xf_a: Pose,
    xf_b: Pose,
    index_a: u32,
    index_b1: u32,
    index_b2: u32,
) -> SeparationFunction
    ensures { result ≡ Separation.of_face_b binary32 sweep_a sweep_b points_a.now points_b.now xf_a xf_b index_a
        index_b1 index_b2 }
{
    let local_point1 = point(points_b, index_b1);
    let local_point2 = point(points_b, index_b2);
    let local_point = middle(local_point1, local_point2);
    let point_a = transform_point(xf_a, point(points_a, index_a));
    let axis = toward(
        xf_b,
        local_point,
        point_a,
        across(local_point1, local_point2),
    );
    SeparationFunction {
        sweep_a,
        sweep_b,
        local_point,
        axis,
        ty: SeparationType::FaceB,
    }
}

// The separation function by the poses at a time and the cached corners: one of each, or two of A or B. Three are treated as two.
pub fn new_separation(
    cache: SimplexCache,
    points_a: &[f32],
    sweep_a: Sweep,
    points_b: &[f32],
    sweep_b: Sweep,
    xf_a: Pose,
    xf_b: Pose,
) -> SeparationFunction
    ensures { result ≡ ByPoses.new_separation_by binary32 sweep_a sweep_b points_a.now points_b.now cache xf_a xf_b }
{
    let index_a = cache.index_a;
    let index_b = cache.index_b;
    let count = cache.count;
    if count == 1 {
        return of_points(
            points_a, sweep_a, points_b, sweep_b, xf_a, xf_b, index_a[0], index_b[0],
        );
    }
    if index_a[0] == index_a[1] {
        of_face_b(
            points_a, sweep_a, points_b, sweep_b, xf_a, xf_b, index_a[0], index_b[0], index_b[1],
        )
    } else {
        of_face_a(
            points_a, sweep_a, points_b, sweep_b, xf_a, xf_b, index_a[0], index_a[1], index_b[0],
        )
    }
}

// The point of A that a separation is measured from: a corner, or the own point of a face of A.
pub fn end_a(fcn: SeparationFunction, points_a: &[f32], index_a: u32) -> Vector
    ensures { result ≡ ByPoses.end_a binary32 points_a.now fcn fcn.ty index_a }
{
    let ty = fcn.ty;
    match ty {
        SeparationType::Points => point(points_a, index_a),
        SeparationType::FaceA => fcn.local_point,
        SeparationType::FaceB => point(points_a, index_a),
    }
}

// The point of B, likewise.
pub fn end_b(fcn: SeparationFunction, points_b: &[f32], index_b: u32) -> Vector
    ensures { result ≡ ByPoses.end_b binary32 points_b.now fcn fcn.ty index_b }
{
    let ty = fcn.ty;
    match ty {
        SeparationType::Points => point(points_b, index_b),
        SeparationType::FaceA => point(points_b, index_b),
        SeparationType::FaceB => fcn.local_point,
    }
}

// How far apart the two points are along the axis, by the poses at a time.
pub fn evaluate(fcn: SeparationFunction, a: Vector, b: Vector, xf_a: Pose, xf_b: Pose) -> f32
    ensures { result ≡ ByPoses.between binary32 a b fcn.axis xf_a xf_b fcn.ty }
{
    let point_a = transform_point(xf_a, a);
    let point_b = transform_point(xf_b, b);
    let ty = fcn.ty;
    match ty {
        SeparationType::Points => dot(sub(point_b, point_a), fcn.axis),
        SeparationType::FaceA => dot(sub(point_b, point_a), rotate_vec(xf_a.rotation, fcn.axis)),
        SeparationType::FaceB => dot(sub(point_a, point_b), rotate_vec(xf_b.rotation, fcn.axis)),
    }
}

// What a face side has.
fn no_corner() -> SupportPair
    ensures { result ≡ no_corner }
{
    SupportPair {
        first: NO_CORNER,
        second: NO_CORNER,
    }
}

// The corners of A that lie deepest along the axis.
fn deepest_a(fcn: SeparationFunction, points_a: &[f32], xf_a: Pose, xf_b: Pose) -> SupportPair
    ensures { result ≡ corners_a binary32 points_a.now fcn xf_a xf_b fcn.ty }
{
    let ty = fcn.ty;
    match ty {
        SeparationType::Points => support_pair(points_a, inv_rotate_vec(xf_a.rotation, fcn.axis)),
        SeparationType::FaceA => no_corner(),
        SeparationType::FaceB => {
            let axis = neg(rotate_vec(xf_b.rotation, fcn.axis));
            support_pair(points_a, inv_rotate_vec(xf_a.rotation, axis))
        }
    }
}

// The corners of B that lie deepest along the axis.
fn deepest_b(fcn: SeparationFunction, points_b: &[f32], xf_a: Pose, xf_b: Pose) -> SupportPair
    ensures { result ≡ corners_b binary32 points_b.now fcn xf_a xf_b fcn.ty }
{
    let ty = fcn.ty;
    match ty {
        SeparationType::Points => support_pair(
            points_b,
            inv_rotate_vec(xf_b.rotation, neg(fcn.axis)),
        ),
        SeparationType::FaceA => {
            let axis = neg(rotate_vec(xf_a.rotation, fcn.axis));
            support_pair(points_b, inv_rotate_vec(xf_b.rotation, axis))
        }
        SeparationType::FaceB => no_corner(),
    }
}

// The least separation by the poses at a time, with the corners that have it.
pub fn find_min_separation(
    fcn: SeparationFunction,
    points_a: &[f32],
    points_b: &[f32],
    xf_a: Pose,
    xf_b: Pose,
) -> Search
    ensures { result ≡ ByPoses.search_by binary32 points_a.now points_b.now fcn xf_a xf_b }
{
    let a = deepest_a(fcn, points_a, xf_a, xf_b);
    let b = deepest_b(fcn, points_b, xf_a, xf_b);
    let end_a = end_a(fcn, points_a, a.first);
    let end_b = end_b(fcn, points_b, b.first);
    let separation = evaluate(fcn, end_a, end_b, xf_a, xf_b);
    let least = MinSeparation {
        separation,
        index_a: a.first,
        index_b: b.first,
    };
    let corners = Corners { a, b };
    Search { least, corners }
}
