// The plane on squared paper: points, fractions, outlines with their points by whole-number weights. Definitions in specs/, laws in proofs/. No code.
#![tactic(auto)]
