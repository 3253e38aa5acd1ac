#![tactic(auto)]
// No code: what the comparison of two archives means is in specs/.
