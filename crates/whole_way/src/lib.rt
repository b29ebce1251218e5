// Bodies on their planned way, piece by piece: a piece that passes its check is one at each of whose moments they are away from each other, and pieces join.
// The statement stands in specs/, its proof in proofs/. No code.
#![tactic(auto)]
