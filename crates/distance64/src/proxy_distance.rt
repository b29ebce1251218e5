// Written by tests/written/wide.py from distance, in f64.
// The distance call. Each round solves for the vertices nearest to the origin and adds the corner pair farthest against them, until a pair
// comes again or the outlines touch. All is done in the frame of A.
ghost use Rattle.std.specs.Prelude.{◌≡◌, ◌/◌, ◌≤◌, ◌<◌, length, set};
ghost use Rattle.std.specs.Float.{binary64};
ghost use Rattle.model64.specs.Ground as Ground;
ghost use Rattle.model64.specs.Simplex.{slot};
ghost use Rattle.model64.specs.Distance as Model;

use crate::cache::{cache_is_valid, write_cache};
use domain64::{check_cache, check_pair, check_pose, pose_refusal, refusal};
use ground64::{
    add, distance, dot, inv_rotate_vec, max, neg, normalize_or_zero, scale, sub, transform_point,
};
use model::{Ending, Refusal, SimplexCache};
use model64::{
    Distance, Measurement, Pose, ProxyDistanceOutput, Rounds, SimplexVertex, Vector, WitnessPoints,
};
use outline64::{point, support_index};
use simplex64::{solve, witness_points};

const MAX_ITERATIONS: u32 = 20;

const EPSILON: f64 = 2.220446049250313e-16;

fn zero() -> Vector
    ensures { result ≡ Ground.origin binary64 }
{
    Vector { x: 0.0, y: 0.0 }
}

// Corner index_a of A against the posed corner index_b of B, with the weight a.
fn vertex(
    pos12: Pose,
    points_a: &[f64],
    points_b: &[f64],
    index_a: u32,
    index_b: u32,
    a: f64,
) -> SimplexVertex
    ensures { result ≡ Model.vertex binary64 points_a.now points_b.now pos12 index_a index_b a }
{
    let wa = point(points_a, index_a);
    let wb = transform_point(pos12, point(points_b, index_b));
    let w = sub(wa, wb);
    SimplexVertex {
        wa,
        wb,
        w,
        a,
        index_a,
        index_b,
    }
}

fn blank() -> SimplexVertex
    ensures { result ≡ Model.blank binary64 }
{
    let o = zero();
    SimplexVertex {
        wa: o,
        wb: o,
        w: o,
        a: 0.0,
        index_a: 0,
        index_b: 0,
    }
}

// Slot i of a start from the cache; the weight -1 is set by the solvers.
fn cached(
    pos12: Pose,
    points_a: &[f64],
    points_b: &[f64],
    cache: SimplexCache,
    i: usize,
) -> SimplexVertex
    requires { i < 3 }
    ensures { result ≡ Model.cached binary64 points_a.now points_b.now pos12 cache i }
{
    if i < cache.count as usize {
        let index_a = cache.index_a[i];
        let index_b = cache.index_b[i];
        vertex(pos12, points_a, points_b, index_a, index_b, -1.0)
    } else {
        blank()
    }
}

// Whether a call starts from the cache: it is not empty, and it is valid.
fn from_cache(cache: SimplexCache, na: usize, nb: usize) -> bool
    ensures { result ≡ Model.from_cache cache na nb }
{
    let some = cache.count > 0;
    some & cache_is_valid(cache, na, nb)
}

// What the rounds start with: three slots, and how many of them count. The memory is fixed, so a simplex is an array of three with its count beside it.
#[derive(Clone, Copy)]
struct Slots {
    simplex: [SimplexVertex; 3],
    count: usize,
}

// The start, told by one look at the cache.
fn start(pos12: Pose, points_a: &[f64], points_b: &[f64], cache: SimplexCache) -> Slots
    ensures simplex_value { result.simplex ≡ Model.start_simplex binary64 points_a.now points_b.now pos12 cache }
    ensures count_value { result.count ≡ Model.start_count cache (length points_a.now / 2) (length points_b.now / 2) }
{
    if from_cache(cache, points_a.len() / 2, points_b.len() / 2) {
        let v1 = cached(pos12, points_a, points_b, cache, 0);
        let v2 = cached(pos12, points_a, points_b, cache, 1);
        let v3 = cached(pos12, points_a, points_b, cache, 2);
        Slots {
            simplex: [v1, v2, v3],
            count: cache.count as usize,
        }
    } else {
        let v1 = vertex(pos12, points_a, points_b, 0, 0, 1.0);
        let v2 = blank();
        let v3 = blank();
        Slots {
            simplex: [v1, v2, v3],
            count: 1,
        }
    }
}

// Whether the pair stands in the first count slots.
fn held(simplex: [SimplexVertex; 3], count: usize, index_a: u32, index_b: u32) -> bool
    requires { count ≤ 3 }
    ensures { result ≡ Model.held simplex count index_a index_b }
{
    let v1 = simplex[0];
    let v2 = simplex[1];
    let v3 = simplex[2];
    (count > 0) & (v1.index_a == index_a) & (v1.index_b == index_b)
        | (count > 1) & (v2.index_a == index_a) & (v2.index_b == index_b)
        | (count > 2) & (v3.index_a == index_a) & (v3.index_b == index_b)
}

// The weight in the slot behind one or two that are kept.
fn weight_behind(simplex: [SimplexVertex; 3], kept: usize) -> f64
    requires { (1 ≤ kept) × (kept ≤ 2) }
    ensures { result ≡ (slot simplex kept).a }
{
    if kept == 1 {
        simplex[1].a
    } else {
        simplex[2].a
    }
}

// The kept vertices, one or two, with the new one behind them. It leaves its slot's weight; two places that are known keep the slots out of memory.
fn grown(
    pos12: Pose,
    points_a: &[f64],
    points_b: &[f64],
    simplex: [SimplexVertex; 3],
    kept: usize,
    index_a: u32,
    index_b: u32,
) -> [SimplexVertex; 3]
    requires { (1 ≤ kept) × (kept ≤ 2) }
    ensures { result ≡ set simplex kept (Model.vertex binary64 points_a.now points_b.now pos12 index_a index_b
        (slot simplex kept).a) }
{
    let mut slots = simplex;
    let a = weight_behind(slots, kept);
    let new = vertex(pos12, points_a, points_b, index_a, index_b, a);
    if kept == 1 {
        slots[1] = new;
    } else {
        slots[2] = new;
    }
    slots
}

// The rounds, from the cache to one of the three endings.
fn rounds(pos12: Pose, points_a: &[f64], points_b: &[f64], cache: SimplexCache) -> Rounds
    ensures { result ≡ Model.rounds binary64 points_a.now points_b.now pos12 cache }
{
    let begin = start(pos12, points_a, points_b, cache);
    let mut simplex = begin.simplex;
    let mut count = begin.count;
    let mut direction = zero();
    for iterations in 0..MAX_ITERATIONS {
        let solved = solve(simplex, count);
        let d = solved.direction;
        let kept = solved.count;
        // three vertices hold the origin between them, and with a direction too small to search along two do
        if (kept == 3) | (dot(d, d) < EPSILON * EPSILON) {
            let simplex = solved.simplex;
            let direction = zero();
            return Rounds {
                ending: Ending::Touching,
                simplex,
                count: kept,
                direction,
                iterations,
            };
        }
        let index_a = support_index(points_a, d);
        let index_b = support_index(points_b, inv_rotate_vec(pos12.rotation, neg(d)));
        let again = held(simplex, count, index_a, index_b);
        // grown in each branch by itself: of a call that settles nobody reads the new vertex, and none need be made
        let slots = solved.simplex;
        if again {
            let simplex = grown(pos12, points_a, points_b, slots, kept, index_a, index_b);
            return Rounds {
                ending: Ending::Settled,
                simplex,
                count: kept,
                direction: d,
                iterations: iterations + 1,
            };
        }
        simplex = grown(pos12, points_a, points_b, slots, kept, index_a, index_b);
        direction = d;
        count = kept + 1;
    }
    Rounds {
        ending: Ending::RoundLimit,
        simplex,
        count,
        direction,
        iterations: MAX_ITERATIONS,
    }
}

// The measurement of outlines apart: the radii shorten the distance, not below 0, and move the points along the normal.
fn apart(
    use_radii: bool,
    radius_a: f64,
    radius_b: f64,
    w: WitnessPoints,
    ended: Rounds,
) -> ProxyDistanceOutput
    ensures { result ≡ Model.apart binary64 use_radii radius_a radius_b w ended }
{
    let normal = normalize_or_zero(ended.direction);
    let between = distance(w.a, w.b);
    let iterations = ended.iterations;
    let ending = ended.ending;
    if use_radii {
        let point_a = add(w.a, scale(normal, radius_a));
        let point_b = sub(w.b, scale(normal, radius_b));
        let shortened = max(between - radius_a - radius_b, 0.0);
        ProxyDistanceOutput {
            point_a,
            point_b,
            normal,
            distance: shortened,
            iterations,
            ending,
        }
    } else {
        let point_a = w.a;
        let point_b = w.b;
        ProxyDistanceOutput {
            point_a,
            point_b,
            normal,
            distance: between,
            iterations,
            ending,
        }
    }
}

// The distance of any two lists at any pose, with nothing checked, and the cache as the call leaves it: Touching does not write it, and what is
// written carries the pair's number. The parameters are the published call's own, in its order.
pub fn measure(
    pos12: Pose,
    points_a: &[f64],
    radius_a: f64,
    points_b: &[f64],
    radius_b: f64,
    use_radii: bool,
    pair: u32,
    cache: SimplexCache,
) -> Measurement
    ensures { result ≡ Model.measure binary64 pos12 points_a.now radius_a points_b.now radius_b use_radii pair cache }
{
    let ended = rounds(pos12, points_a, points_b, cache);
    let simplex = ended.simplex;
    let count = ended.count;
    let w = witness_points(simplex, count);
    let ending = ended.ending;
    if let Ending::Touching = ending {
        let point_a = w.a;
        let point_b = w.b;
        let normal = zero();
        let output = ProxyDistanceOutput {
            point_a,
            point_b,
            normal,
            distance: 0.0,
            iterations: ended.iterations,
            ending,
        };
        Measurement { output, cache }
    } else {
        let output = apart(use_radii, radius_a, radius_b, w, ended);
        let written = write_cache(pair, cache, simplex, count);
        Measurement {
            output,
            cache: written,
        }
    }
}

// The distance of two outlines that pass the checks, by a cache of their pair or an empty one; or the number of the refusal, with the cache then as
// it came.
pub fn proxy_distance(
    pos12: Pose,
    points_a: &[f64],
    radius_a: f64,
    points_b: &[f64],
    radius_b: f64,
    use_radii: bool,
    pair: u32,
    cache: SimplexCache,
) -> Distance
    ensures { result ≡ Model.proxy_distance binary64 pos12 points_a.now radius_a points_b.now radius_b use_radii pair cache }
{
    let outlines = check_pair(points_a, points_b, radius_a, radius_b);
    let Ok(()) = outlines else {
        let number = refusal(outlines);
        return Distance {
            answer: Err(Refusal { number }),
            cache,
        };
    };
    let pose = check_pose(pos12);
    let Ok(good) = pose else {
        let number = pose_refusal(pose);
        return Distance {
            answer: Err(Refusal { number }),
            cache,
        };
    };
    let owned = check_cache(pair, cache);
    let Ok(()) = owned else {
        let number = refusal(owned);
        return Distance {
            answer: Err(Refusal { number }),
            cache,
        };
    };
    let measured = measure(
        good, points_a, radius_a, points_b, radius_b, use_radii, pair, cache,
    );
    let output = measured.output;
    let cache = measured.cache;
    Distance {
        answer: Ok(output),
        cache,
    }
}
