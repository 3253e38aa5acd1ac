#![tactic(auto)]
// Document 02, wish 8: what the counts reader shows of an archive (specs/), and that it shows nothing else.
