#![tactic(auto)]
// The library for C: each function of include/waxwingrack.h under its C name, with the clauses of the crate's function that it calls.

mod archive_calls;
mod block_calls;
mod counts_calls;
mod record_calls;
mod server_calls;
mod station_calls;
mod turn_calls;
mod window_calls;
