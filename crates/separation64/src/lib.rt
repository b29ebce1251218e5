// Written by tests/written/wide.py from separation, in f64.
// Moves and the separation function: along which axis two moving outlines are held apart, and how far apart they are along it at a time.
#![tactic(auto)]

mod separation;
mod sweep;

pub use separation::{end_a, end_b, evaluate, find_min_separation, new_separation};
pub use sweep::{shifted, transform_at};
