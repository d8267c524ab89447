// What is asked of a session.
ghost use Rattle.std.specs.Prelude.{◌≡◌};
ghost use Rattle.image.specs.Image.{session_read};
ghost use Rattle.desks.specs.Asked.{decision_of, wish_of};

use crate::desks::{accepted_in, decided_in, finished_in, rejected_in};
use image::Image;
use replies::are_short;
use session::Decision;
use text::{RequestId, StreamId};
use wishes::{Refusal, Wish, command_wish, control_wish, data_wish};

// A message of a type and on a stream, or the application's answer.
#[derive(Clone, Copy)]
pub enum Asked {
    Said { kind: u8, stream: StreamId },
    Accept(RequestId),
    Reject(RequestId),
    Finish(StreamId),
}

// Of a type that is read: 4, 18 or 20. It is the wire's number, as in `messages`.
#[tactic(auto, unfolding(crate::specs::Asked::wish_of))]
fn wish_of(kind: u8, body: &[u8]) -> Result<Wish, Refusal>
    ensures { result ≡ wish_of kind body.now }
{
    match kind {
        4 => control_wish(body),
        18 => data_wish(body),
        _ => command_wish(body),
    }
}

// The body is a message's, the code and the description are a reject's.
pub fn decision_in(
    image: Image,
    asked: Asked,
    code: &[u8],
    description: &[u8],
    body: &[u8],
) -> Decision
    ensures { result ≡ decision_of asked (session_read image.entry) code.now description.now body.now }
{
    match asked {
        Asked::Said { kind, stream } => decided_in(image, stream, wish_of(kind, body)),
        Asked::Accept(id) => accepted_in(image, id),
        Asked::Reject(id) => rejected_in(image, id, are_short(code, description)),
        Asked::Finish(id) => finished_in(image, id),
    }
}
