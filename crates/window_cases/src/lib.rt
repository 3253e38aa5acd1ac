#![tactic(auto)]
// No code: wish 5's sentences as rows of one table are in specs/.
