#![tactic(auto)]
// No code: what is true of every window of document 02's wish 5 is in specs/.
