// What the decision of a message looks at: the session's facts, and the stream in question.
ghost use Rattle.std.specs.Prelude.{◌≡◌};
ghost use Rattle.session.specs.Desk.{desk_of};
ghost use Rattle.session.specs.State.{request_at, stream_at};

use crate::session::{Session, is_connected};
use tables::{Request, Stream, find};
use text::{Name, RequestId, StreamId};

#[derive(Clone, Copy)]
pub struct Desk {
    pub connected: bool,
    pub app: Name,
    pub next_stream: u32,
    pub next_request: u32,
    // What the tables hold, without the tables.
    pub stream_count: usize,
    pub request_count: usize,
    pub seen: Option<Stream>,
}

pub fn stream_at(session: Session, id: StreamId) -> Option<Stream>
    ensures { result ≡ stream_at session id }
{
    find(&session.streams, session.stream_count, id)
}

pub fn request_at(session: Session, id: RequestId) -> Option<Request>
    ensures { result ≡ request_at session id }
{
    find(&session.requests, session.request_count, id)
}

#[tactic(auto, unfolding(crate::specs::Desk::desk_of))]
pub fn desk_of(session: Session, id: StreamId) -> Desk
    ensures { result ≡ desk_of session id }
{
    Desk {
        connected: is_connected(session),
        app: session.app,
        next_stream: session.next_stream,
        next_request: session.next_request,
        stream_count: session.stream_count,
        request_count: session.request_count,
        seen: stream_at(session, id),
    }
}
