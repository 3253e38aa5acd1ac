#![tactic(auto)]
// No code: what a stuck line means, of the functions that hosts call, is in specs/.
