// One entry of a trace, played: the call that it is, and the text that is written for it. Or the line that ends the run.
#![tactic(auto)]

mod next;
mod play;

pub use next::{Next, next_entry};
