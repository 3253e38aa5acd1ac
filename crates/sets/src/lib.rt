#![tactic(auto)]
// No code: sets and functions by index, and paths between eight nodes, are in specs/.
