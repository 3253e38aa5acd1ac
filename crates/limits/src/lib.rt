#![tactic(auto)]
// Document 02, wish 1: "48 distinct reads and 48 distinct writes". The number is said here for all code and in specs/Limit.antt for the
// definitions; what follows from it, the room for a commit and for records, is in crate message.
pub const LIMIT: u32 = 48;
