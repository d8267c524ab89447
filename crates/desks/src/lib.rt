// The second room over the four arrays of a host (crate image): what a decision looks at is read from them, and nothing
// else of the session.
#![tactic(auto)]

mod asked;
mod desks;
mod frames;
mod seen;

pub use asked::{Asked, decision_in};
pub use frames::frame_in;
pub use seen::{connected_in, stream_in};
