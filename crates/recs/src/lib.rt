#![tactic(auto)]
// No code: the line's records as document 01's.
