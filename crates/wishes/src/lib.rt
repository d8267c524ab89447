// The first room: what a message wants, read from its bytes with no look at a session.
#![tactic(auto)]

mod commands;
mod connect;
mod control;
mod data_frame;
mod outcome;
mod play;
mod publish;
mod streams;
mod values;
mod wish;

pub use commands::command_wish;
pub use control::control_wish;
pub use data_frame::data_wish;
pub use outcome::{Action, Outcome, Refusal, number_of};
pub use wish::{PlayArguments, PlayFault, PublishArguments, PublishFault, Wish};
