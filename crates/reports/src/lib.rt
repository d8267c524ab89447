// The line that a trace writes for a call.
#![tactic(auto)]

mod answer_lines;

pub use answer_lines::{put_answer, put_ping, put_sent};
