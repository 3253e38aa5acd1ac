#![tactic(auto)]
// No code: document 02's counting licence (wish 7), as definitions in specs/.
