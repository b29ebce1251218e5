#![tactic(auto)]

// A report's rows and largest counts, as a reader finds them on the printed lines of the sheets: definitions and theorems, no code.
