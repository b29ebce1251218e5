// Digits as a person reads them, and that they are those that are printed: definitions and theorems, no code.
#![tactic(auto)]
