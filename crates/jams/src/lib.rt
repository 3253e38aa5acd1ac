#![tactic(auto)]
// No code: that no message between ends that keep the rules is ever refused is in specs/.
