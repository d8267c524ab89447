// A change made in the four arrays of a host (crate image): only what it is about is written.
#![tactic(auto)]

mod applied;
mod edits;

pub use applied::apply_in;
