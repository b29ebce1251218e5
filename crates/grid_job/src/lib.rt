// The numbers of a job on a grid of whole numbers. No float operation: patterns are read.
#![tactic(auto)]

ghost use Rattle.std.specs.Prelude.{true, ◌≡◌, ℕ, ◌+◌, ◌*◌, ◌^◌, ◌≤◌, ◌<◌, length, MatchOption};
ghost use Rattle.std.specs.Float.{binary32};
ghost use Rattle.std.specs.Float.Ieee.{to_bits};
ghost use Rattle.model.specs.Support.{point};
ghost use Rattle.grid.specs.Grid.{unit};
ghost use Rattle.grid_job.specs.Placing.{Near, NearPair, UpTo, Suits, Ordinary, Fitting, Steady, Less, Offset, Span, Turned, Headed, Asked};
ghost use Rattle.grid_job.specs.Placing.{AllCornered, PlacedBody, Between, Limits, Joined, keep_of, OnBoard, FractionUp, FractionDown};

use board::{GridBody, GridJob, Pair, Vector, both_within, norm};
use grid::{Parts, grid, grid_down, grid_up};
use outline::point;

// The largest pattern from one place to another, signs dropped, and at least `least`.
fn largest(list: &[f32], from: usize, to: usize, least: u32) -> u32
    requires { to ≤ length list.now }
    ensures { (least ≤ result) × UpTo list.now from to result × ((m : ℕ) → least ≤ m → UpTo list.now from to m → result ≤ m) }
{
    let mut best = least;
    for i in from..to {
        best = best.max(ground::to_bits(list[i]) % 0x8000_0000);
    }
    best
}

// The exponent of a grid on which every place of the job is below 2^28.
fn exponent(points_a: &[f32], points_b: &[f32], numbers: &[f32]) -> Option<u32>
    requires { length numbers.now ≡ 24 }
    ensures { MatchOption result (Ordinary points_a.now points_b.now numbers.now → ⊥) (λ g. Suits points_a.now points_b.now numbers.now g) }
{
    let a = largest(points_a, 0, points_a.len(), 0);
    let b = largest(points_b, 0, points_b.len(), a);
    let c = largest(numbers, 0, 2, b);
    let d = largest(numbers, 3, 10, c);
    let e = largest(numbers, 14, 20, d);
    154u32.checked_sub(e / 8388608)
}

// x less c.
fn less(x: f32, c: f32, g: u32) -> Pair
    requires { Near x g × Near c g }
    ensures { Less x c g result }
{
    let a = grid(ground::to_bits(x), g);
    let b = grid(ground::to_bits(c), g);
    norm(Pair {
        p: a.plus + b.minus,
        m: a.minus + b.plus,
    })
}

fn offset(x: f32, c: f32, g: u32) -> u64
    requires { Near x g × Near c g }
    ensures { Offset x c g result }
{
    let d = less(x, c, g);
    536870912 + d.p - d.m
}

fn distance(x: u64) -> u64
    requires { x ≤ 1073741824 }
    ensures { (result ≤ 536870912) × (x ≤ 536870912 + result) × (536870912 ≤ x + result) }
{
    x.abs_diff(536870912)
}

// No less than the length of a corner, and at most an eighth more: the larger part and half of the smaller.
fn wide_span(x: u64, y: u64) -> u64
    requires { (x ≤ 1073741824) × (y ≤ 1073741824) }
    ensures { Span x y result }
{
    let a = distance(x);
    let b = distance(y);
    if a < b {
        b + (a + 1) / 2
    } else {
        a + (b + 1) / 2
    }
}

fn square(a: u64) -> u64
    requires { a ≤ 805306368 }
    ensures { (result ≡ a * a) × (result ≤ 648518346341351424) }
{
    a * a
}

// From above nearer to the root of n, by Newton's rule. Nothing rests on it: `span` looks at what comes out.
fn nearer(n: u64, r: u64) -> u64
    requires { r ≤ 805306368 }
    ensures { result ≤ 805306368 }
{
    if r < 1 {
        return r;
    }
    let q = n / r;
    if q >= r {
        return r;
    }
    (r + q) / 2 + 1
}

// No less than the length of a corner, and hardly more.
fn span(x: u64, y: u64) -> u64
    requires { (x ≤ 1073741824) × (y ≤ 1073741824) }
    ensures { Span x y result }
{
    let wide = wide_span(x, y);
    let n = square(distance(x)) + square(distance(y));
    let near = nearer(n, nearer(n, nearer(n, wide)));
    if square(near) < n {
        return wide;
    }
    near
}

// All corners to the lists, and how far the farthest lies.
fn corners(points: &[f32], centre: model::Vector, g: u32, xs: &mut [u64], ys: &mut [u64]) -> u64
    requires { Asked points.now centre g xs.old ys.old }
    ensures { AllCornered points.now centre g xs.new ys.new result }
{
    let mut best: u64 = 0;
    for i in 0..xs.len() {
        let x = offset(points[2 * i], centre.x, g);
        let y = offset(points[2 * i + 1], centre.y, g);
        xs[i] = x;
        ys[i] = y;
        best = best.max(span(x, y));
    }
    best
}

// A part of a rotation in 2^30-ths; 2^32 where it is above 1.
fn turned(x: f32) -> Pair
    ensures { Turned x result }
{
    let b = ground::to_bits(x);
    if b % 0x8000_0000 > 1065353216 {
        return Pair {
            p: 4294967296,
            m: 0,
        };
    }
    let a = grid(b, 30);
    Pair {
        p: a.plus,
        m: a.minus,
    }
}

fn headed(q: model::Vector) -> Vector
    ensures { Headed q result }
{
    Vector {
        x: turned(q.x),
        y: turned(q.y),
    }
}

// The body whose move stands in the five pairs from pair i on.
fn body_of(
    points: &[f32],
    numbers: &[f32],
    i: u32,
    g: u32,
    xs: &mut [u64],
    ys: &mut [u64],
) -> GridBody
    requires { (i ≤ 7) × Asked points.now (point numbers.now i) g xs.old ys.old }
    ensures { PlacedBody points.now numbers.now i g xs.new ys.new result }
{
    let q1 = headed(point(numbers, i + 3));
    let q2 = headed(point(numbers, i + 4));
    let reach = corners(points, point(numbers, i), g, xs, ys);
    GridBody { q1, q2, reach }
}

// Pair j less pair i.
fn between(numbers: &[f32], i: u32, j: u32, g: u32) -> Vector
    requires { NearPair numbers.now i g × NearPair numbers.now j g }
    ensures { Between numbers.now i j g result }
{
    let p = point(numbers, i);
    let q = point(numbers, j);
    Vector {
        x: less(q.x, p.x, g),
        y: less(q.y, p.y, g),
    }
}

// The distance to keep, rounded up and rounded down.
fn kept_up(numbers: &[f32], g: u32) -> u64
    requires { NearPair numbers.now 0 g × Near (point numbers.now 1).y g }
    ensures { (2 ^ g * keep_of numbers.now ≤ result * unit) × (result ≤ 805306368) }
{
    let radii = point(numbers, 0);
    let limits = point(numbers, 1);
    grid::keep_up(
        ground::to_bits(limits.y),
        ground::to_bits(radii.x),
        ground::to_bits(radii.y),
        g,
    )
}

fn kept_down(numbers: &[f32], g: u32) -> u64
    requires { NearPair numbers.now 0 g × Near (point numbers.now 1).y g }
    ensures { result * unit ≤ 2 ^ g * keep_of numbers.now }
{
    let radii = point(numbers, 0);
    let limits = point(numbers, 1);
    grid::keep_down(
        ground::to_bits(limits.y),
        ground::to_bits(radii.x),
        ground::to_bits(radii.y),
        g,
    )
}

// The headings are at most 1 in both parts.
fn headings_fit(o: GridBody) -> bool
    ensures { (result ≡ true → Steady o) × (Steady o → result ≡ true) }
{
    both_within(o.q1, 1073741824) && both_within(o.q2, 1073741824)
}

// The job's rest, once its bodies are placed.
fn job_of(numbers: &[f32], g: u32, a: GridBody, b: GridBody) -> Option<GridJob>
    requires { Limits numbers.now g }
    ensures { MatchOption result (Steady a → Steady b → ⊥) (λ job. Joined numbers.now g a b job) }
{
    if !headings_fit(a) || !headings_fit(b) {
        return None;
    }
    Some(GridJob {
        a,
        b,
        d1: between(numbers, 3, 8, g),
        d2: between(numbers, 4, 9, g),
        up: kept_up(numbers, g),
        down: kept_down(numbers, g),
    })
}

// A job on the grid: two outlines and 24 numbers as a sweep has them. The lists, as long as the outlines have points, get the corners. It is always found
// where the lengths are right and the numbers in their domain. The lists come one by one: a record of lists lent for writing would be taken apart at once, to
// lend each body's two on.
pub fn grid_job(
    points_a: &[f32],
    points_b: &[f32],
    numbers: &[f32],
    axs: &mut [u64],
    ays: &mut [u64],
    bxs: &mut [u64],
    bys: &mut [u64],
) -> Option<GridJob>
    ensures { MatchOption result (Fitting points_a.now points_b.now numbers.now axs.old ays.old bxs.old bys.old → ⊥)
        (λ job. OnBoard points_a.now points_b.now numbers.now job axs.new ays.new bxs.new bys.new) }
{
    if numbers.len() != 24
        || axs.len() != points_a.len() / 2
        || ays.len() != axs.len()
        || bxs.len() != points_b.len() / 2
        || bys.len() != bxs.len()
    {
        return None;
    }
    let g = exponent(points_a, points_b, numbers)?;
    let a = body_of(points_a, numbers, 2, g, axs, ays);
    let b = body_of(points_b, numbers, 7, g, bxs, bys);
    job_of(numbers, g, a, b)
}

// A number that is not below 0; 0 for one that is.
fn natural(a: Parts) -> u64
    ensures { (a.plus ≤ a.minus + result) × (result ≤ a.plus) × (a.minus ≤ a.plus → a.minus + result ≤ a.plus) × (a.plus ≤ a.minus → result ≡ 0) }
{
    a.plus.saturating_sub(a.minus)
}

// A fraction of the way in 2^24-ths, never below it and never above it.
pub fn fraction_up(x: f32) -> u64
    ensures { FractionUp x result }
{
    let b = ground::to_bits(x);
    if b > 1065353216 {
        return 16777216;
    }
    natural(grid_up(b, 24))
}

pub fn fraction_down(x: f32) -> u64
    ensures { FractionDown x result }
{
    let b = ground::to_bits(x);
    if b > 1065353216 {
        return 0;
    }
    natural(grid_down(b, 24))
}
