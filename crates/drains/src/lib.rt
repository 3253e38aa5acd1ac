#![tactic(auto)]
// No code: that deliveries come to an end, and waits with them, is in specs/.
