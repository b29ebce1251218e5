#![tactic(auto)]

// Either one may be called A, where the round limit is never reached: no "unless". No code.
