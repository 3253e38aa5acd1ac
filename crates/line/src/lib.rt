#![tactic(auto)]
// No code: document 01's line, as definitions and what is shown of them, is in specs/.
