#![tactic(auto)]
// No code: what holds while somebody waits, for every list of calls, is in specs/.
