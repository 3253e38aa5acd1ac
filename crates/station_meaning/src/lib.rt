#![tactic(auto)]
// No code: the bytes of a station mean the station of document 01.
