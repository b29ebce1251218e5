// Written by tests/written/wide.py from ground, in f64.
// The ground operations in f64. Each contract is the definition of the same operation in model/specs, at binary64.
#![tactic(auto)]

mod bits;
mod pose;
mod rotation;
mod scalar;
mod vector;

pub use bits::{from_bits, to_bits};
pub use pose::{inv_mul, transform_point};
pub use rotation::{inv_rotate_vec, nlerp, rotate_vec};
pub use scalar::{abs, max};
pub use vector::{add, distance, dot, length, lerp, neg, normalize_or_zero, perp_dot, scale, sub};
