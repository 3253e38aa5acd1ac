#![tactic(auto)]
// No code: how many messages one step of the server adds to one line is in specs/.
