// The calls of a trace, each with its fields read from an entry, and the text that is written for it.
#![tactic(auto)]

mod sends;
mod turns;

pub use sends::{play_media, play_metadata, play_ping};
pub use turns::{Turn, play_accept, play_finish, play_message, play_reject, play_start};
