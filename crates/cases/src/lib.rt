#![tactic(auto)]
// No code: document 01's cases, computed, are in specs/.
