// Names and texts: a name of at most 128 bytes by value, fixed words, and the two numbers that are kept apart by type.
#![tactic(auto)]

mod ids;
mod names;
mod words;

pub use ids::{RequestId, StreamId};
pub use names::{Name, empty_name, name_is, part_of, read_name, text_of};
pub use words::{Command, PublishMode, command_of, is_word, mode_of};
