#![tactic(auto)]
// No code: the theorems that record check and record writer mean document 01's record are in specs/.
