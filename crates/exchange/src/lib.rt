#![tactic(auto)]

// On squared paper either outline may be called A, and a shift may stand in the outline or in the pose. Statements in specs/, proofs in proofs/. No code.
