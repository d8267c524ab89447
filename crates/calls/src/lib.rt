// The start of a session and the application's decisions, and the theorems over all calls that hand a session back.
//
// A call takes a session by value, what came in, a clock reading and a lent out buffer. It hands back one answer, with
// the next session in it where there is one, and has written the answer's records to the front of the buffer.
#![tactic(auto)]

mod application;
mod starts;

pub use application::{accept_request, finish_playing, reject_request};
pub use starts::{config_bad, start};
