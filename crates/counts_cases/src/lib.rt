#![tactic(auto)]
// No code: cases of one archive's two readers as rows of one table, in specs/.
