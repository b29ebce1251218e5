#![tactic(auto)]

// Sheets of squared paper, worked: instances that show that no theorem about them is empty. No code.
