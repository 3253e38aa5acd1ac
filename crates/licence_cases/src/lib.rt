#![tactic(auto)]
// No code: cases of the counting licence as rows of one table, in specs/.
