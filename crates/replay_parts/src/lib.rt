#![tactic(auto)]
// No code: what the play of a part of an archive tells of the play of the whole is in specs/.
