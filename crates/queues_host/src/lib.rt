#![tactic(auto)]
// No code: how much longer one call of a host makes one line is in specs/.
