#![tactic(auto)]
// No code: the laws of cells in a list of bytes, and of sets kept as bits, are in specs/.
