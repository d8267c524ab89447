// The third room: the records of a decision, all of them or none, and the answer of the call.
#![tactic(auto)]

mod answer;
mod replies;

pub use answer::{Answer, idle_answer, refuse};
pub use replies::{are_short, finish_call, write_reply};
