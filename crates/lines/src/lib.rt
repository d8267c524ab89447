// What a trace writes of an answer: its code, and its event with the fields.
#![tactic(auto)]

mod events;
mod metadata_fields;
mod outcomes;

pub use events::put_event;
pub use outcomes::put_outcome;
