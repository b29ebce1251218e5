// The search behind the verdict on a whole move: where two outlines are nearest at a moment of it, and what the check of a piece is to be shown.
// Nothing rests on it: a poor proposal is refused by the check, and costs an answer. So it works in floats, and of it only that it ends is proved.
#![tactic(auto)]

mod gjk;
mod proposal;
mod vectors;

pub use gjk::{Near, Pose, Shape, Shapes, Vertex, nearest, nowhere};
pub use proposal::{Course, Stand, course_of, grip_of, propose, stand_at};
pub use vectors::{Place, floats};
