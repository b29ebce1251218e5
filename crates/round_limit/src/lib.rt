#![tactic(auto)]

// On squared paper within 16 the round limit is never reached. The statement stands in specs/, its proof in proofs/. No code.
