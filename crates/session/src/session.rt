// A session, by value.
ghost use Rattle.std.specs.Prelude.{◌≡◌};
ghost use Rattle.session.specs.State.{app_fits, connected, fresh_session, session_sound};

use tables::{Request, Stream, is_sound, no_request, no_stream};
use text::{Name, empty_name};

#[derive(Clone, Copy, Debug, PartialEq, Eq)]
pub enum SessionState {
    Started,
    Connected,
}

// The app counts where `has_app` is set. It is no `Option`, since a host gets back the bytes that stand there without the flag
// (`kept_at` of `written`). Of each table the first `.._count` places are in use: fixed memory, so counts and no `Vec`.
#[derive(Clone, Copy)]
pub struct Session {
    pub start: u64,
    pub version: Name,
    pub state: SessionState,
    pub has_app: bool,
    pub app: Name,
    pub encoding: u64,
    pub next_stream: u32,
    pub next_request: u32,
    pub stream_count: usize,
    pub request_count: usize,
    pub streams: [Stream; 16],
    pub requests: [Request; 16],
}

// The session of a start: no app, no stream, no request.
pub fn fresh_session(start: u64, version: Name) -> Session
    ensures { result ≡ fresh_session start version }
{
    Session {
        start,
        version,
        state: SessionState::Started,
        has_app: false,
        app: empty_name(),
        encoding: 0,
        next_stream: 1,
        next_request: 0,
        stream_count: 0,
        request_count: 0,
        streams: [no_stream(); 16],
        requests: [no_request(); 16],
    }
}

// The state is Connected and an app is set.
#[tactic(auto, unfolding(crate::specs::State::connected))]
pub fn is_connected(session: Session) -> bool
    ensures { result ≡ connected session }
{
    session.state == SessionState::Connected && session.has_app
}

// An app counts where one is set.
fn app_fits(has_app: bool, len: usize) -> bool
    ensures { result ≡ app_fits has_app len }
{
    !has_app || len <= 128
}

// Whether a session that is handed in passes the tests of refusal 15.
#[tactic(auto, unfolding(crate::specs::State::session_sound))]
pub fn session_sound(session: Session) -> bool
    ensures { result ≡ session_sound session }
{
    session.version.len <= 128
        && app_fits(session.has_app, session.app.len)
        && is_sound(&session.streams, session.stream_count, session.next_stream)
        && is_sound(
            &session.requests,
            session.request_count,
            session.next_request,
        )
}
