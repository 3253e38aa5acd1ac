#![tactic(auto)]
// No code: demand 3 over the bytes of states, messages and archive.
