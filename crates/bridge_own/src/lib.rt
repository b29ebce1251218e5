#![tactic(auto)]

// What the f64 crates define of their own, beside `model64`, is what the f32 crates define: no code.
