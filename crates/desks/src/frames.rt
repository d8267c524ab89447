// Audio and video: what a frame shows.
ghost use Rattle.std.specs.Prelude.{◌≡◌};
ghost use Rattle.streams.specs.Streams.{frame_of};
ghost use Rattle.image.specs.Image.{session_read};

use crate::seen::{connected_in, stream_in};
use image::Image;
use session::Event;
use streams::{Frame, show_frame};
use text::{Name, StreamId};

#[tactic(auto, unfolding(streams::specs::Streams::frame_of, session::specs::State::connected, image::specs::Image::session_at))]
pub fn frame_in(image: Image, id: StreamId, event: Option<Event>) -> Option<Frame>
    ensures { result ≡ frame_of (session_read image.entry) id event }
{
    if !connected_in(image.facts) {
        return None;
    }
    let stream = stream_in(image, id)?;
    let app = Name {
        bytes: image.names[1],
        len: image.facts[4] as usize,
    };
    show_frame(stream.state, event, app, stream.key)
}
