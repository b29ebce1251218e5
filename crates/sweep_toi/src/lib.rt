// The sweep: when, along two planned moves, two outlines come within the target distance.
#![tactic(auto)]

mod bracket;
mod moment;
mod sweep_toi;
mod trail;

pub use sweep_toi::{advance, sweep_time_of_impact};
