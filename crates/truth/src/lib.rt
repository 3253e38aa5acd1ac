#![tactic(auto)]
// No code: demand 3 over the definitions of the line, for every list of calls, is in specs/.
