// What a decision changes of a session, and the session after it.
ghost use Rattle.std.specs.Prelude.{◌≡◌};
ghost use Rattle.session.specs.Changes.{applied, applied_by, no_change, of_request, of_stream};
ghost use Rattle.session.specs.State.{connected_to, following, one_more, with_changed, with_encoding, with_request, with_stream, without_request, without_stream};

use crate::session::{Session, SessionState};
use tables::{Request, Stream, append, change, no_request, no_stream, remove};
use text::{Name, RequestId, StreamId};

// The arrays are written by the effect alone (crates/written), so the stream and the request stand beside it.
#[derive(Clone, Copy, Debug, PartialEq, Eq)]
pub enum Effect {
    Nothing,
    StreamMade,
    StreamSet,
    StreamRemoved,
    RequestFiled,
    ConnectFiled { encoding: u64 },
    ConnectAccepted,
    StreamAccepted,
    RequestRemoved,
}

// What an effect does not use is blank.
#[derive(Clone, Copy)]
pub struct Change {
    pub effect: Effect,
    pub stream: Stream,
    pub request: Request,
}

pub fn no_change() -> Change
    ensures { result ≡ no_change }
{
    of_stream(Effect::Nothing, no_stream())
}

pub fn of_stream(effect: Effect, stream: Stream) -> Change
    ensures { result ≡ of_stream effect stream }
{
    Change {
        effect,
        stream,
        request: no_request(),
    }
}

pub fn of_request(effect: Effect, request: Request) -> Change
    ensures { result ≡ of_request effect request }
{
    Change {
        effect,
        stream: no_stream(),
        request,
    }
}

// The number after one that was given.
pub fn number_after(n: u32) -> u32
    ensures { result ≡ following n }
{
    n.saturating_add(1)
}

// A count after an append.
pub fn one_more(n: usize) -> usize
    ensures { result ≡ one_more n }
{
    if n < 16 { n + 1 } else { n }
}

// A new stream, under the next number.
#[tactic(auto, unfolding(crate::specs::State::with_stream))]
fn with_stream(mut session: Session, stream: Stream) -> Session
    ensures { result ≡ with_stream session stream }
{
    let count = session.stream_count;
    append(&mut session.streams, count, stream);
    session.next_stream = number_after(session.next_stream);
    session.stream_count = one_more(count);
    session
}

// A new request, under the next number.
#[tactic(auto, unfolding(crate::specs::State::with_request))]
fn with_request(mut session: Session, request: Request) -> Session
    ensures { result ≡ with_request session request }
{
    let count = session.request_count;
    append(&mut session.requests, count, request);
    session.next_request = number_after(session.next_request);
    session.request_count = one_more(count);
    session
}

// The stream of a number becomes this one.
#[tactic(auto, unfolding(crate::specs::State::with_changed))]
fn with_changed(mut session: Session, stream: Stream) -> Session
    ensures { result ≡ with_changed session stream }
{
    let count = session.stream_count;
    change(&mut session.streams, count, stream);
    session
}

#[tactic(auto, unfolding(crate::specs::State::without_stream))]
fn without_stream(mut session: Session, id: StreamId) -> Session
    ensures { result ≡ without_stream session id.0 }
{
    let count = session.stream_count;
    remove(&mut session.streams, count, id);
    session.stream_count = count.saturating_sub(1);
    session
}

#[tactic(auto, unfolding(crate::specs::State::without_request))]
fn without_request(mut session: Session, id: RequestId) -> Session
    ensures { result ≡ without_request session id.0 }
{
    let count = session.request_count;
    remove(&mut session.requests, count, id);
    session.request_count = count.saturating_sub(1);
    session
}

// Connected never ends.
fn connected_to(session: Session, app: Name) -> Session
    ensures { result ≡ connected_to session app }
{
    Session {
        state: SessionState::Connected,
        has_app: true,
        app,
        ..session
    }
}

fn apply_effect(effect: Effect, session: Session, stream: Stream, request: Request) -> Session
    ensures { result ≡ applied_by effect session stream request }
{
    match effect {
        Effect::Nothing => session,
        Effect::StreamMade => with_stream(session, stream),
        Effect::StreamSet => with_changed(session, stream),
        Effect::StreamRemoved => without_stream(session, stream.id),
        Effect::RequestFiled => with_request(session, request),
        Effect::ConnectFiled { encoding } => Session {
            encoding,
            ..with_request(session, request)
        },
        Effect::ConnectAccepted => {
            connected_to(without_request(session, request.id), request.name)
        }
        Effect::StreamAccepted => with_changed(without_request(session, request.id), stream),
        Effect::RequestRemoved => without_request(session, request.id),
    }
}

// The session after a change.
#[tactic(auto, unfolding(crate::specs::Changes::applied))]
pub fn apply(session: Session, change: Change) -> Session
    ensures { result ≡ applied session change }
{
    apply_effect(change.effect, session, change.stream, change.request)
}
