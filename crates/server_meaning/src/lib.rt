#![tactic(auto)]
// No code: the bytes of the server mean the server of document 01.
