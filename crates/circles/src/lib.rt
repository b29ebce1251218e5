#![tactic(auto)]

// On squared paper the distance call never goes round in circles. The statement stands in specs/, its proof in proofs/. No code.
