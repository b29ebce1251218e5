// The distance between two outlines, started from a cache of corner pairs.
#![tactic(auto)]

mod cache;
pub mod proxy_distance;
