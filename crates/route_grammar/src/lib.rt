#![tactic(auto)]

// A route that is read is the route that was written: definitions and theorems, no code.
