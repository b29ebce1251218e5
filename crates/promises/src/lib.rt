// What is promised of the public functions all together; no code.
#![tactic(auto)]
