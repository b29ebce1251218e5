// A planned move of two outlines and what can be said of every moment of it: away throughout, touching at a moment. Over the exact values of f32 numbers.
// The statement stands in specs/, its laws in proofs/. No code.
#![tactic(auto)]
