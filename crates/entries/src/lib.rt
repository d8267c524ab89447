// The entries of a trace: which call one is, where it ends, and whether it is good.
#![tactic(auto)]

mod entry;
mod kinds;

pub use entry::{begins_trace, entry_length, good_entry, room_of};
pub use kinds::{Kind, kind_of};
