// Written by tests/written/wide.py from sweep_toi, in f64.
// The sweep by conservative advancement: a distance call gives an axis, and a push-back along it brings the time closer to the first contact.
ghost use Rattle.std.specs.Prelude.{◌≡◌, true};
ghost use Rattle.std.specs.Float.{binary64};
ghost use Rattle.model64.specs.SweepToi as SweepToi;
ghost use Rattle.model64.specs.Corners.{swept, no_search, advanced, sweep};

use crate::bracket::{Bracket, narrowed, tried};
use crate::moment::{Moment, at_time, closest_at, same_time};
use crate::trail::{called, called_on, pushed_on, searched, stepped};
use domain64::{check_fraction, check_pair, check_slop, check_sweeps, refusal};
use ground64::{abs, max};
use model::{Corners, Counts, NO_CORNER, SimplexCache, SupportPair};
use model64::{Closest, Contact, Sweep, SweepAnswer, SweepTask, Swept, Vector};
use separation64::{end_a, end_b, evaluate, find_min_separation, new_separation, shifted};

const MAX_DISTANCE_ITERATIONS: u32 = 20;

const MAX_PUSH_BACK_ITERATIONS: u32 = 8;

const MAX_ROOT_ITERATIONS: u32 = 50;

// What the advancement carries: the time that it has reached, and the cache, the counts and the last corners so far.
#[derive(Clone, Copy)]
struct Reached {
    m1: Moment,
    cache: SimplexCache,
    counts: Counts,
    corners: Corners,
}

// What the push-backs carry: the end of the interval, the counts so far, and how many are left with this one.
#[derive(Clone, Copy)]
struct Push {
    m2: Moment,
    counts: Counts,
    left: u32,
}

// How a round of push-backs without a verdict ends: at which time, with which counts and corners, and whether t1 was held where it was.
#[derive(Clone, Copy)]
struct Round {
    at: Moment,
    counts: Counts,
    corners: Corners,
    held: bool,
}

// The exits: with no place, or with the one that the distance call found; and with the corners of the last search.
fn overlapped(counts: Counts, corners: Corners) -> Swept
    ensures { result ≡ swept (SweepToi.overlapped counts) corners }
{
    Swept {
        answer: SweepAnswer::Overlapped(counts),
        corners,
    }
}

fn contact_at(t: f64, closest: Closest) -> Contact
    ensures { result ≡ SweepToi.there t closest }
{
    let point = closest.point;
    let normal = closest.normal;
    Contact {
        fraction: t,
        point,
        normal,
    }
}

fn no_contact(t: f64) -> Contact
    ensures { result ≡ SweepToi.nowhere binary64 t }
{
    let nowhere = Vector { x: 0.0, y: 0.0 };
    Contact {
        fraction: t,
        point: nowhere,
        normal: nowhere,
    }
}

fn hit(t: f64, closest: Closest, counts: Counts, corners: Corners) -> Swept
    ensures { result ≡ swept (SweepToi.hit t closest counts) corners }
{
    Swept {
        answer: SweepAnswer::Hit(contact_at(t, closest), counts),
        corners,
    }
}

fn separated(t: f64, counts: Counts, corners: Corners) -> Swept
    ensures { result ≡ swept (SweepToi.separated binary64 t counts) corners }
{
    Swept {
        answer: SweepAnswer::Separated(no_contact(t), counts),
        corners,
    }
}

fn failed(t: f64, counts: Counts, corners: Corners) -> Swept
    ensures { result ≡ swept (SweepToi.failed binary64 t counts) corners }
{
    Swept {
        answer: SweepAnswer::Failed(no_contact(t), counts),
        corners,
    }
}

fn failed_at(t: f64, closest: Closest, counts: Counts, corners: Corners) -> Swept
    ensures { result ≡ swept (SweepToi.failed_at t closest counts) corners }
{
    Swept {
        answer: SweepAnswer::Failed(contact_at(t, closest), counts),
        corners,
    }
}

// Where no search ran.
fn no_search() -> Corners
    ensures { result ≡ no_search }
{
    let none = SupportPair {
        first: NO_CORNER,
        second: NO_CORNER,
    };
    Corners { a: none, b: none }
}

fn refused(number: u32) -> Swept
    ensures { result ≡ swept (SweepAnswer.Refused number) no_search }
{
    let corners = no_search();
    Swept {
        answer: SweepAnswer::Refused(number),
        corners,
    }
}

fn same_three(x: [u32; 3], y: [u32; 3]) -> bool
    ensures { result ≡ true → x ≡ y }
{
    (x[0] == y[0]) & (x[1] == y[1]) & (x[2] == y[2])
}

fn same_cache(x: SimplexCache, y: SimplexCache) -> bool
    ensures { result ≡ true → x ≡ y }
{
    let x_a = x.index_a;
    let x_b = x.index_b;
    let y_a = y.index_a;
    let y_b = y.index_b;
    let of_a = same_three(x_a, y_a);
    let of_b = same_three(x_b, y_b);
    (x.pair == y.pair) & (x.count == y.count) & of_a & of_b
}

// The answer of a task. Three loops inside one another: a distance call gives an axis, the push-backs along it look for the time at which the deepest
// corners reach the target, and the root search ends with the new t2. A state that comes again gives the same again, so only the counts of what is left
// are told: where a root search gives t2 back, and where a round leaves both the time and the cache as they were.
pub fn advance(task: SweepTask, points_a: &[f64], points_b: &[f64]) -> Swept
    ensures { result ≡ advanced binary64 task points_a.now points_b.now }
{
    let target = task.target;
    let tolerance = task.tolerance;
    let end = at_time(task, task.t_max);
    let mut reached = Reached {
        m1: at_time(task, 0.0),
        cache: SimplexCache {
            pair: 0,
            count: 0,
            index_a: [0; 3],
            index_b: [0; 3],
        },
        counts: Counts {
            distance_calls: 0,
            searches: 0,
            root_steps: 0,
        },
        corners: no_search(),
    };
    // the product's form of these loops: left by label, and the root search breaks with its value
    'advance: loop {
        let m1 = reached.m1;
        let closest = closest_at(task, points_a, points_b, m1, reached.cache);
        let one_more = called(reached.counts);
        if closest.distance <= 0.0 {
            break 'advance overlapped(one_more, reached.corners);
        }
        if closest.distance <= target + tolerance {
            break 'advance hit(m1.t, closest, one_more, reached.corners);
        }
        let cache = closest.cache;
        let fcn = new_separation(
            cache,
            points_a,
            task.sweep_a,
            points_b,
            task.sweep_b,
            m1.xf_a,
            m1.xf_b,
        );
        let mut push = Push {
            m2: end,
            counts: one_more,
            left: MAX_PUSH_BACK_ITERATIONS,
        };
        let round = 'push_back: loop {
            let m2 = push.m2;
            let found = find_min_separation(fcn, points_a, points_b, m2.xf_a, m2.xf_b);
            let corners = found.corners;
            let s2 = found.least.separation;
            let counts = searched(push.counts);
            if s2 - target > tolerance {
                break 'advance separated(task.t_max, counts, corners);
            }
            if s2 >= target - tolerance {
                break 'push_back Round {
                    at: m2,
                    counts,
                    corners,
                    held: false,
                };
            }
            let a = end_a(fcn, points_a, found.least.index_a);
            let b = end_b(fcn, points_b, found.least.index_b);
            let s1 = evaluate(fcn, a, b, m1.xf_a, m1.xf_b);
            // the root search before this one may have run out of steps
            if s1 < target - tolerance {
                break 'advance failed(m1.t, counts, corners);
            }
            if s1 <= target + tolerance {
                break 'advance hit(m1.t, closest, counts, corners);
            }
            let mut bracket = Bracket {
                low: m1.t,
                high: m2.t,
                at_low: s1,
                at_high: s2,
                steps: 0,
            };
            // the new t2: where a step lands within the tolerance; where none does, t2 as it was
            let next = loop {
                let m = at_time(task, tried(task, bracket));
                let s = evaluate(fcn, a, b, m.xf_a, m.xf_b);
                bracket = narrowed(task, bracket, m.t, s);
                if abs(s - target) <= tolerance {
                    break m;
                }
                if bracket.steps == MAX_ROOT_ITERATIONS {
                    break m2;
                }
            };
            let counts = stepped(counts, bracket.steps);
            let left = push.left - 1;
            if same_time(next.t, m2.t) | (left == 0) {
                break 'push_back Round {
                    at: m1,
                    counts: pushed_on(counts, left, bracket.steps),
                    corners,
                    held: true,
                };
            }
            push = Push {
                m2: next,
                counts,
                left,
            };
        };
        let at = round.at;
        let counts = round.counts;
        let corners = round.corners;
        if counts.distance_calls == MAX_DISTANCE_ITERATIONS {
            break 'advance failed_at(at.t, closest, counts, corners);
        }
        if round.held & same_cache(reached.cache, cache) {
            let left = MAX_DISTANCE_ITERATIONS - counts.distance_calls;
            break 'advance failed_at(
                m1.t,
                closest,
                called_on(counts, left, reached.counts),
                corners,
            );
        }
        reached = Reached {
            m1: at,
            cache,
            counts,
            corners,
        };
    }
}

// The task of two moves, both seen from the first centre of A.
fn sweep_task(
    radius_a: f64,
    sweep_a: Sweep,
    radius_b: f64,
    sweep_b: Sweep,
    max_fraction: f64,
    linear_slop: f64,
) -> SweepTask
    ensures { result ≡ SweepToi.sweep_task binary64 radius_a sweep_a radius_b sweep_b max_fraction linear_slop }
{
    let origin = sweep_a.c1;
    let sweep_a = shifted(sweep_a, origin);
    let sweep_b = shifted(sweep_b, origin);
    let target = max(linear_slop, radius_a + radius_b - linear_slop);
    SweepTask {
        sweep_a,
        sweep_b,
        origin,
        radius_a,
        radius_b,
        t_max: max_fraction,
        target,
        tolerance: 0.25 * linear_slop,
    }
}

// When the outlines, each within its radius and on its way, come within the target distance, with the corners of the last search; or the number of
// the first refusal. The parameters are the published call's own, in its order.
pub fn sweep_time_of_impact(
    points_a: &[f64],
    radius_a: f64,
    sweep_a: Sweep,
    points_b: &[f64],
    radius_b: f64,
    sweep_b: Sweep,
    max_fraction: f64,
    linear_slop: f64,
) -> Swept
    ensures { result ≡ sweep binary64 points_a.now radius_a sweep_a
        points_b.now radius_b sweep_b max_fraction linear_slop }
{
    let pair = check_pair(points_a, points_b, radius_a, radius_b);
    let Ok(()) = pair else {
        return refused(refusal(pair));
    };
    let sweeps = check_sweeps(sweep_a, sweep_b);
    let Ok(()) = sweeps else {
        return refused(refusal(sweeps));
    };
    let fraction = check_fraction(max_fraction);
    let Ok(()) = fraction else {
        return refused(refusal(fraction));
    };
    let slop = check_slop(linear_slop);
    let Ok(()) = slop else {
        return refused(refusal(slop));
    };
    let task = sweep_task(
        radius_a,
        sweep_a,
        radius_b,
        sweep_b,
        max_fraction,
        linear_slop,
    );
    advance(task, points_a, points_b)
}
