#![tactic(auto)]
// Blocks by column mean document 02: theorems alone, in specs/.
