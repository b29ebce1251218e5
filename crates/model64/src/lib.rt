// Written by tests/written/wide.py from model, in f64.
// The records of model that hold floats, in f64. The others are model's.
#![tactic(auto)]

use model::{BlockRefusal, Corners, Counts, Ending, Refusal, SeparationType, SimplexCache, Status};

// A point or a direction of the plane.
#[derive(Clone, Copy)]
pub struct Vector {
    pub x: f64,
    pub y: f64,
}

// A rotation by its cosine and sine.
#[derive(Clone, Copy)]
pub struct Rotation {
    pub c: f64,
    pub s: f64,
}

// A rigid move: first the rotation, then the translation.
#[derive(Clone, Copy)]
pub struct Pose {
    pub rotation: Rotation,
    pub translation: Vector,
}

// A planned move: the centre goes straight from c1 to c2 while the rotation goes from q1 to q2.
#[derive(Clone, Copy)]
pub struct Sweep {
    pub local_center: Vector,
    pub c1: Vector,
    pub c2: Vector,
    pub q1: Rotation,
    pub q2: Rotation,
}

// One corner pair of a simplex: the corner of A, the posed corner of B, their difference, its weight and the two indices.
#[derive(Clone, Copy)]
pub struct SimplexVertex {
    pub wa: Vector,
    pub wb: Vector,
    pub w: Vector,
    pub a: f64,
    pub index_a: u32,
    pub index_b: u32,
}

// What a solver leaves: the simplex, how many of its slots count, and the direction to search next.
#[derive(Clone, Copy)]
pub struct Solved {
    pub simplex: [SimplexVertex; 3],
    pub count: usize,
    pub direction: Vector,
}

// The state in which the rounds of a distance call end.
#[derive(Clone, Copy)]
pub struct Rounds {
    pub ending: Ending,
    pub simplex: [SimplexVertex; 3],
    pub count: usize,
    pub direction: Vector,
    pub iterations: u32,
}

// The two points that a simplex names, by its weights.
#[derive(Clone, Copy)]
pub struct WitnessPoints {
    pub a: Vector,
    pub b: Vector,
}

// What a distance call measures, in the frame of A.
#[derive(Clone, Copy)]
pub struct ProxyDistanceOutput {
    pub point_a: Vector,
    pub point_b: Vector,
    pub normal: Vector,
    pub distance: f64,
    pub iterations: u32,
    pub ending: Ending,
}

// A measurement, and the cache as it leaves it.
#[derive(Clone, Copy)]
pub struct Measurement {
    pub output: ProxyDistanceOutput,
    pub cache: SimplexCache,
}

// A distance call's answer, and the cache as it leaves it.
#[derive(Clone, Copy)]
pub struct Distance {
    pub answer: Result<ProxyDistanceOutput, Refusal>,
    pub cache: SimplexCache,
}

// A separation function: two moves, and an axis with the point that it passes through.
#[derive(Clone, Copy)]
pub struct SeparationFunction {
    pub sweep_a: Sweep,
    pub sweep_b: Sweep,
    pub local_point: Vector,
    pub axis: Vector,
    pub ty: SeparationType,
}

// The least separation at a time, and the corners that have it.
#[derive(Clone, Copy)]
pub struct MinSeparation {
    pub separation: f64,
    pub index_a: u32,
    pub index_b: u32,
}

// What a separation search finds: the least separation, and the corners of both sides.
#[derive(Clone, Copy)]
pub struct Search {
    pub least: MinSeparation,
    pub corners: Corners,
}

// What a sweep keeps throughout: both moves and the origin that they were shifted by, the radii, the last time, and the target with its tolerance.
#[derive(Clone, Copy)]
pub struct SweepTask {
    pub sweep_a: Sweep,
    pub sweep_b: Sweep,
    pub origin: Vector,
    pub radius_a: f64,
    pub radius_b: f64,
    pub t_max: f64,
    pub target: f64,
    pub tolerance: f64,
}

// A distance call at some time, in the world: the distance, the averaged hit point, the normal, and the cache as the call left it.
#[derive(Clone, Copy)]
pub struct Closest {
    pub distance: f64,
    pub point: Vector,
    pub normal: Vector,
    pub cache: SimplexCache,
}

// Where a root search ends, and after how many steps.
#[derive(Clone, Copy)]
pub struct RootSearch {
    pub t: f64,
    pub steps: u32,
}

#[derive(Clone, Copy)]
pub struct Contact {
    pub fraction: f64,
    pub point: Vector,
    pub normal: Vector,
}

// How a sweep ends. No Result: a sweep has four endings, each with its own floats, beside the number of a refusal.
#[derive(Clone, Copy)]
pub enum SweepAnswer {
    Overlapped(Counts),
    Hit(Contact, Counts),
    Separated(Contact, Counts),
    Failed(Contact, Counts),
    Refused(u32),
}

// A sweep's answer, and the corners of its last separation search.
#[derive(Clone, Copy)]
pub struct Swept {
    pub answer: SweepAnswer,
    pub corners: Corners,
}

// What a worked block tells.
#[derive(Clone, Copy)]
pub struct Verdict {
    pub status: Status,
    pub contact: Contact,
    pub counts: Counts,
    pub corners: Corners,
}

// A worked block: its job, and what it tells.
#[derive(Clone, Copy)]
pub struct Worked {
    pub job: u32,
    pub verdict: Verdict,
}

// What a block comes to: its job with the verdict; or the job and the number of a refusal, whichever of 3 to 11 or 13 it is.
pub type BlockAnswer = Result<Worked, BlockRefusal>;
