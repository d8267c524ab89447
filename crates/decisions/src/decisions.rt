// The application's decisions: accept and reject a request, finish a play.
ghost use Rattle.std.specs.Prelude.{◌≡◌};
ghost use Rattle.decisions.specs.Answers.{accept_request, completed, finish_playing, finished, granted, playing, publishing, reject_request, rejection, settled};
ghost use Rattle.session.specs.Decisions.{refusing};
ghost use Rattle.wishes.specs.declared.outcome.Action.TheVariants.{Complete as Completes};
ghost use Rattle.wishes.specs.declared.outcome.Refusal.TheVariants.{WrongStream};

use session::{
    Change, Decision, Effect, Reply, of_request, of_stream, refused, refused_with, replied,
};
use tables::{Request, RequestKind, Stream, StreamState};
use text::{PublishMode, StreamId, empty_name};
use wishes::{Action, Refusal};

// The request's stream becomes this one; where it is missing, the request is gone all the same.
fn settle(found: bool, action: Action, request: Request, reply: Reply, stream: Stream) -> Decision
    ensures { result ≡ settled found action request reply stream }
{
    if found {
        let change = Change {
            effect: Effect::StreamAccepted,
            stream,
            request,
        };
        return replied(reply, request.name, change);
    }
    let refusal = Refusal::WrongStream {
        action,
        stream: request.stream,
    };
    refused_with(Err(refusal), of_request(Effect::RequestRemoved, request))
}

fn publishing_stream(request: Request) -> Stream
    ensures { result ≡ publishing request }
{
    Stream {
        id: request.stream,
        state: StreamState::Publishing,
        mode: request.mode,
        key: request.name,
    }
}

fn playing_stream(request: Request) -> Stream
    ensures { result ≡ playing request }
{
    Stream {
        id: request.stream,
        state: StreamState::Playing,
        mode: PublishMode::Live,
        key: request.name,
    }
}

// What an accepted request brings about.
fn grant(kind: RequestKind, request: Request, found: bool) -> Decision
    ensures { result ≡ granted kind request found }
{
    match kind {
        RequestKind::Connect => replied(
            Reply::ConnectAccepted {
                transaction: request.transaction,
            },
            request.name,
            of_request(Effect::ConnectAccepted, request),
        ),
        RequestKind::Publish => settle(
            found,
            Action::Publish,
            request,
            Reply::PublishAccepted(request.stream),
            publishing_stream(request),
        ),
        RequestKind::Play => settle(
            found,
            Action::Play,
            request,
            Reply::PlayAccepted(request.stream),
            playing_stream(request),
        ),
    }
}

// `found`: whether the request's stream is there.
#[tactic(auto, unfolding(crate::specs::Answers::accept_request))]
pub fn accept(waiting: Option<Request>, found: bool) -> Decision
    ensures { result ≡ accept_request waiting found }
{
    match waiting {
        Some(request) => grant(request.kind, request, found),
        None => refused(Err(Refusal::NoSuchRequest)),
    }
}

fn reject_reply(kind: RequestKind, request: Request) -> Reply
    ensures { result ≡ rejection kind request }
{
    match kind {
        RequestKind::Connect => Reply::Rejected {
            transaction: request.transaction,
            stream: StreamId(0),
        },
        RequestKind::Publish | RequestKind::Play => Reply::Rejected {
            transaction: 0,
            stream: request.stream,
        },
    }
}

// `short`: neither the code nor the description is over 256 bytes.
#[tactic(auto, unfolding(crate::specs::Answers::reject_request))]
pub fn reject(waiting: Option<Request>, short: bool) -> Decision
    ensures { result ≡ reject_request waiting short }
{
    let Some(request) = waiting else {
        return refused(Err(Refusal::NoSuchRequest));
    };
    if !short {
        return refused(Err(Refusal::TextTooLong));
    }
    replied(
        reject_reply(request.kind, request),
        empty_name(),
        of_request(Effect::RequestRemoved, request),
    )
}

fn not_playing(id: StreamId) -> Decision
    ensures { result ≡ refusing (WrongStream Completes id) }
{
    refused(Err(Refusal::WrongStream {
        action: Action::Complete,
        stream: id,
    }))
}

fn completed_stream(id: StreamId) -> Stream
    ensures { result ≡ completed id }
{
    Stream {
        id,
        state: StreamState::Completed,
        mode: PublishMode::Live,
        key: empty_name(),
    }
}

fn complete(state: StreamState, id: StreamId, stream: Stream) -> Decision
    ensures { result ≡ finished state id stream }
{
    match state {
        StreamState::Playing => {
            let change = of_stream(Effect::StreamSet, completed_stream(id));
            replied(Reply::PlayFinished(id), stream.key, change)
        }
        _ => not_playing(id),
    }
}

#[tactic(auto, unfolding(crate::specs::Answers::finish_playing))]
pub fn finish(seen: Option<Stream>, id: StreamId) -> Decision
    ensures { result ≡ finish_playing seen id }
{
    match seen {
        Some(stream) => complete(stream.state, id, stream),
        None => not_playing(id),
    }
}
