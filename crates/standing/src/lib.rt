// From the grid to the planned way: where a job on the grid stands for two bodies on their way, a piece that the check lets pass is one at each of whose
// moments those bodies are away from each other. Proofs alone, no code.
#![tactic(auto)]
