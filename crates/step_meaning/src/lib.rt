#![tactic(auto)]
// No code: the server's step over bytes means document 01's step.
