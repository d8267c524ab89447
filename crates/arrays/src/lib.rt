// The calls over the four arrays that hold a session and the three that take an answer.
//
// No session is made of the arrays: the decision is made of what it looks at (crate desks), its records are written, and
// what it changes is written into the arrays (crate written). Arrays that hold no session are refusal 15, and stay as
// they are.
#![tactic(auto)]

mod starts;
mod turns;

pub use starts::start_in;
pub use turns::{accept_in, finish_in, message_in, reject_in};
