// Written by tests/written/wide.py from simplex, in f64.
// The solvers: which vertices of a simplex are nearest to the origin, with which weights, and where to search next.
#![tactic(auto)]

mod solvers;
mod witness;

pub use solvers::{solve, solve_simplex2, solve_simplex3};
pub use witness::witness_points;
