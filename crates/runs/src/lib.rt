// What a run in parts comes to, for every program that reads its input part by part: definitions and one theorem, no code.
#![tactic(auto)]
