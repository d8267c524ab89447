// The decisions.
ghost use Rattle.std.specs.Prelude.{◌≡◌};
ghost use Rattle.session.specs.Desk.{desk_of};
ghost use Rattle.steps.specs.Deciding.{decided};
ghost use Rattle.decisions.specs.Answers.{accepted, finished_on, rejected, stream_stands};
ghost use Rattle.image.specs.Image.{session_read};

use crate::seen::{connected_in, request_in, stream_in};
use decisions::{accept, finish, reject};
use image::{Image, short_number};
use session::{Decision, Desk};
use steps::{decide, subject};
use tables::Request;
use text::{Name, RequestId, StreamId};
use wishes::{Refusal, Wish};

#[tactic(auto, unfolding(session::specs::Desk::desk_of, session::specs::State::connected, image::specs::Image::session_at))]
fn desk_in(image: Image, id: StreamId) -> Desk
    ensures { result ≡ desk_of (session_read image.entry) id }
{
    Desk {
        connected: connected_in(image.facts),
        app: Name {
            bytes: image.names[1],
            len: image.facts[4] as usize,
        },
        next_stream: short_number(image.facts[6]),
        next_request: short_number(image.facts[7]),
        stream_count: image.facts[8] as usize,
        request_count: image.facts[9] as usize,
        seen: stream_in(image, id),
    }
}

// What a message makes of the session.
#[tactic(auto, unfolding(steps::specs::Deciding::decided))]
pub fn decided_in(image: Image, stream: StreamId, read: Result<Wish, Refusal>) -> Decision
    ensures { result ≡ decided (session_read image.entry) stream read }
{
    let desk = desk_in(image, subject(read, stream));
    decide(desk, stream, read)
}

// Whether the stream of a waiting request is there.
fn stands_in(image: Image, waiting: Option<Request>) -> bool
    ensures { result ≡ stream_stands (session_read image.entry) waiting }
{
    match waiting {
        Some(request) => stream_in(image, request.stream).is_some(),
        None => false,
    }
}

// What the application's answers make of it.
pub fn accepted_in(image: Image, id: RequestId) -> Decision
    ensures { result ≡ accepted (session_read image.entry) id }
{
    let waiting = request_in(image, id);
    let found = stands_in(image, waiting);
    accept(waiting, found)
}

pub fn rejected_in(image: Image, id: RequestId, short: bool) -> Decision
    ensures { result ≡ rejected (session_read image.entry) id short }
{
    reject(request_in(image, id), short)
}

pub fn finished_in(image: Image, id: StreamId) -> Decision
    ensures { result ≡ finished_on (session_read image.entry) id }
{
    finish(stream_in(image, id), id)
}
