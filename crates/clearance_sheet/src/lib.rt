// The lines of `clearance` beside those of `sheet` for the same batch: the same blocks are refused, by the same lines, and so counted. No code.
#![tactic(auto)]
