// The stream and the request in question, and whether the session is connected.
ghost use Rattle.std.specs.Prelude.{◌≡◌, eqb};
ghost use Rattle.session.specs.State.{connected_in, request_at, stream_at};
ghost use Rattle.image.specs.Cases.{session_state};
ghost use Rattle.image.specs.Image.{cell, session_read};

use image::{Image, find_request_row, find_row, types_say};
use tables::{Request, Stream};
use text::{RequestId, StreamId};

#[tactic(auto, unfolding(image::specs::Cases::session_state))]
pub fn connected_in(facts: &[u64; 10]) -> bool
    ensures { result ≡ connected_in (session_state (cell facts.now 2)) (eqb (cell facts.now 3) 1) }
{
    facts[2] != 0 && facts[3] == 1
}

#[tactic(auto, using(crate::proofs::SeenLaws::stream_seen))]
pub fn stream_in(image: Image, id: StreamId) -> Option<Stream>
    ensures { result ≡ stream_at (session_read image.entry) id }
{
    types_say(image.facts, image.streams, image.requests, image.names);
    find_row(image.streams, image.names, image.facts[8], id)
}

#[tactic(auto, using(crate::proofs::SeenLaws::request_seen))]
pub fn request_in(image: Image, id: RequestId) -> Option<Request>
    ensures { result ≡ request_at (session_read image.entry) id }
{
    types_say(image.facts, image.streams, image.requests, image.names);
    find_request_row(image.requests, image.names, image.facts[9], id)
}
