// From the grid to the planned way, of a touch: where a job on the grid stands for two bodies on their way and its check finds two points near enough, those
// bodies touch. Proofs alone, no code.
#![tactic(auto)]
