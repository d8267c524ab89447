// How a trace writes a session down: a line for it, then one for each stream and one for each waiting request.
#![tactic(auto)]

mod order;
mod state;

pub use state::put_state;
