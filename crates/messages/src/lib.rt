// The calls that take a message: the door, the three rooms, and the answer.
#![tactic(auto)]

mod messages;

pub use messages::{MediaKind, handle_media, handle_message};
