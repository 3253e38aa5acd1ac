#![tactic(auto)]
// No code: what additions to one counter come to is in specs/.
