// What is promised, cited name by name: no code.
#![tactic(auto)]
