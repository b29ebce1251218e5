#![tactic(auto)]

// What the distance call of the f64 crates is worth on squared paper: no code.
