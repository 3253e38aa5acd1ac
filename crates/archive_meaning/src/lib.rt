#![tactic(auto)]
// No code: the theorems that the archive reader and the replay mean document 01's archive are in specs/.
