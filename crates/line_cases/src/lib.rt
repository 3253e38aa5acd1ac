#![tactic(auto)]
// No code: document 01's cases C1 to C12, of the steps over bytes, are in specs/.
