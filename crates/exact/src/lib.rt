// On squared paper the distance call is exact (demand 3). The statement stands in specs/, its proof in proofs/. No code.
#![tactic(auto)]
