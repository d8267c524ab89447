// The two tables of a session: streams and waiting requests, sixteen places each, by value.
//
// The entries in use stand first, as many as the count says. An append goes to the end, a removal moves the later
// ones up and leaves a blank place behind them. A count that is handed in may be any number: what lies past the
// last place is not there.
#![tactic(auto)]

mod requests;
mod streams;
mod table;

pub use requests::{Request, RequestKind, no_request};
pub use streams::{Stream, StreamState, no_stream};
pub use table::{Entry, append, change, find, is_sound, remove};
