#![tactic(auto)]
// No code: what is true of every run of document 02's turns is in specs/.
