#![tactic(auto)]
// No code: demand 3 of the functions that hosts call.
