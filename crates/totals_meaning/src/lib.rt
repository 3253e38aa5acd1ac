#![tactic(auto)]
// No code: the theorem that the table of counters means document 01's archive is in specs/.
