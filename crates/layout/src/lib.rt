#![tactic(auto)]
// No code: document 01's record and archive, as definitions that the code's contracts and the theorems cite, are in specs/.
