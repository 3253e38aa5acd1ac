#![tactic(auto)]
// No code: document 02, wish 14, on lists of records is in specs/.
