#![tactic(auto)]

// Slips of the port that a computed row tells from what is right: no code. Each public function admits one result, that of its definition; so where
// the definition at an input is not what the slip gives there, no code with the slip meets its contract.
