// Written by tests/written/wide.py from distance, in f64.
// The distance between two outlines, started from a cache of corner pairs.
#![tactic(auto)]

mod cache;
pub mod proxy_distance;
