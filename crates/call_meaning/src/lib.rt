#![tactic(auto)]
// No code: a station's calls mean document 01's steps.
