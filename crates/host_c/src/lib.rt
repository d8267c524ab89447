// The session for a C host, as a static library: each export hands on to the call of the crate host that has its name.
#![tactic(auto)]

mod calls_out;
mod frames;
mod sends_out;
