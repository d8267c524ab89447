// The session by value: refusal 15, what a decision looks at and what it may change, and the shapes of a decision. No
// bytes of a message, and none of a record.
#![tactic(auto)]

mod changes;
mod decision;
mod desk;
mod names;
mod session;

pub use changes::{
    Change, Effect, apply, no_change, number_after, of_request, of_stream, one_more,
};
pub use decision::{
    CommandFault, Decision, Event, Reply, nothing_done, quiet, raised, refused, refused_with,
    replied,
};
pub use desk::{Desk, desk_of, request_at, stream_at};
pub use names::{action_name, event_name};
pub use session::{Session, SessionState, fresh_session, is_connected, session_sound};
