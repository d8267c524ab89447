// A session that no run gives: one of its raw numbers overwritten.
#![tactic(auto)]

mod overwrite;

pub use overwrite::damage_session;
