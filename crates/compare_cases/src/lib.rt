#![tactic(auto)]
// No code: cases of the comparison of two archives as rows of one table, in specs/.
