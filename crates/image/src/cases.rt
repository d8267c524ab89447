// The cases of a session's enums by number. Functions, since the enums and the numbers are both of other crates: no impl of
// `From` may stand here.
ghost use Rattle.std.specs.Prelude.{◌≡◌};
ghost use Rattle.image.specs.Cases.{flag_number, kind_of, mode_number, mode_of, session_state, state_of};

use session::SessionState;
use tables::{RequestKind, StreamState};
use text::PublishMode;

#[tactic(auto, unfolding(crate::specs::Cases::state_of))]
pub fn state_of(n: u64) -> StreamState
    ensures { result ≡ state_of n }
{
    match n {
        0 => StreamState::Created,
        1 => StreamState::Publishing,
        2 => StreamState::Playing,
        _ => StreamState::Completed,
    }
}

#[tactic(auto, unfolding(crate::specs::Cases::mode_of))]
pub fn mode_of(n: u64) -> PublishMode
    ensures { result ≡ mode_of n }
{
    match n {
        0 => PublishMode::Live,
        1 => PublishMode::Append,
        _ => PublishMode::Record,
    }
}

pub fn mode_number(mode: PublishMode) -> u64
    ensures { result ≡ mode_number mode }
{
    mode as u64
}

#[tactic(auto, unfolding(crate::specs::Cases::kind_of))]
pub fn kind_of(n: u64) -> RequestKind
    ensures { result ≡ kind_of n }
{
    match n {
        0 => RequestKind::Connect,
        1 => RequestKind::Publish,
        _ => RequestKind::Play,
    }
}

#[tactic(auto, unfolding(crate::specs::Cases::session_state))]
pub fn session_state(n: u64) -> SessionState
    ensures { result ≡ session_state n }
{
    match n {
        0 => SessionState::Started,
        _ => SessionState::Connected,
    }
}

pub fn flag_number(flag: bool) -> u64
    ensures { result ≡ flag_number flag }
{
    u64::from(flag)
}
