#![tactic(auto)]
// No code: the theorems that the bytes of messages mean the line's messages are in specs/.
