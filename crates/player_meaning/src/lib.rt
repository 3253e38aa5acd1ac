#![tactic(auto)]
// No code: what the playback program puts out is the text of the whole archive, however its reads cut it (specs/).
