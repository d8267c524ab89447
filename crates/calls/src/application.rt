// The application's decisions.
ghost use Rattle.std.specs.Prelude.{◌≡◌};
ghost use Rattle.calls.specs.Calls.{accepting, finishes, rejecting};
ghost use Rattle.decisions.specs.Answers.{stream_stands};

use decisions::{accept, finish, reject};
use replies::{Answer, are_short, finish_call, refuse};
use session::{Session, request_at, session_sound, stream_at};
use tables::Request;
use text::{RequestId, StreamId};
use wishes::Refusal;

// Whether the stream of a waiting request is there.
fn stream_stands(session: Session, waiting: Option<Request>) -> bool
    ensures { result ≡ stream_stands session waiting }
{
    match waiting {
        Some(request) => stream_at(session, request.stream).is_some(),
        None => false,
    }
}

#[tactic(auto, unfolding(messages::specs::Messages::guarded))]
pub fn accept_request(session: Session, id: RequestId, clock: u64, out: &mut [u8]) -> Answer
    ensures { (result, out.new) ≡ accepting session id clock out.old }
{
    if !session_sound(session) {
        return refuse(Err(Refusal::BadSession), session);
    }
    let waiting = request_at(session, id);
    let decision = accept(waiting, stream_stands(session, waiting));
    finish_call(session, decision, b"", b"", clock, out)
}

#[tactic(auto, unfolding(messages::specs::Messages::guarded))]
pub fn reject_request(
    session: Session,
    id: RequestId,
    code: &[u8],
    description: &[u8],
    clock: u64,
    out: &mut [u8],
) -> Answer
    ensures { (result, out.new) ≡ rejecting session id code.now description.now clock out.old }
{
    if !session_sound(session) {
        return refuse(Err(Refusal::BadSession), session);
    }
    let waiting = request_at(session, id);
    let decision = reject(waiting, are_short(code, description));
    finish_call(session, decision, code, description, clock, out)
}

#[tactic(auto, unfolding(messages::specs::Messages::guarded))]
pub fn finish_playing(session: Session, id: StreamId, clock: u64, out: &mut [u8]) -> Answer
    ensures { (result, out.new) ≡ finishes session id clock out.old }
{
    if !session_sound(session) {
        return refuse(Err(Refusal::BadSession), session);
    }
    let decision = finish(stream_at(session, id), id);
    finish_call(session, decision, b"", b"", clock, out)
}
