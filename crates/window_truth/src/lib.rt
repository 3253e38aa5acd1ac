#![tactic(auto)]
// No code: demand 3 of lines whose stations stand behind windows of document 02's wish 5 is in specs/.
