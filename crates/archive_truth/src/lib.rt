#![tactic(auto)]
// No code: the archive of every run, as bytes, is in specs/.
