// The parts of an answer as numbers and bytes, for a host that has no enums.
#![tactic(auto)]

mod events;
mod metadatas;
mod outcomes;
mod shown;
mod told;

pub use events::event_numbers;
pub use metadatas::metadata_of;
pub use shown::show_media;
pub use told::{is_set, tell_decision, tell_plain, tell_quiet};
