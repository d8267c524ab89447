// The second room, messages: what a session makes of a wish. A desk and a wish in, a decision out.
#![tactic(auto)]

mod commands;
mod deciding;

pub use commands::{connect, play, publish};
pub use deciding::{decide, subject};
