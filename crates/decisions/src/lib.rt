// The second room, the application: what a session makes of an accept, a reject and a finish.
#![tactic(auto)]

mod decisions;

pub use decisions::{accept, finish, reject};
