// What a job's line is, by its grammar, and that it is what the reader takes for one: definitions and theorems, no code.
#![tactic(auto)]
