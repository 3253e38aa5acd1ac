#![tactic(auto)]
// No code: a record's entries as functions by address are in specs/.
