// Audio and video messages. The session stays as it is.
ghost use Rattle.std.specs.Prelude.{◌≡◌, None, Some};
ghost use Rattle.streams.specs.Streams.{frame_of};
ghost use Rattle.image.specs.Image.{readable_at, session_at, session_read};
ghost use Rattle.host.specs.Frames.{frame_by, frame_shown, hosted_media, media_of};

use desks::{connected_in, stream_in};
use image::{Image, image_sound};
use parts::{event_numbers, show_media};
use session::Event;
use tables::StreamState;
use text::{Name, StreamId, empty_name};

fn show_nothing(media: &mut [u64; 4], words: &mut [[u8; 128]; 2])
    ensures { (media.new, words.new) ≡ frame_shown None }
{
    show_media(media, words, 0, 0, empty_name(), empty_name());
}

// An event only where the stream is publishing: from its row to the host's arrays, with no frame made between, which costs two copies.
#[tactic(auto, unfolding(streams::specs::Streams::frame_of, session::specs::State::connected, image::specs::Image::session_at))]
fn show_event(
    media: &mut [u64; 4],
    words: &mut [[u8; 128]; 2],
    image: Image,
    id: StreamId,
    event: Event,
)
    ensures { (media.new, words.new) ≡ frame_shown (frame_of (session_read image.entry) id (Some event)) }
{
    if !connected_in(image.facts) {
        show_nothing(media, words);
        return;
    }
    let Some(stream) = stream_in(image, id) else {
        show_nothing(media, words);
        return;
    };
    match stream.state {
        StreamState::Publishing => {
            let numbers = event_numbers(Some(event));
            let app = Name {
                bytes: image.names[1],
                len: image.facts[4] as usize,
            };
            show_media(media, words, numbers[0], numbers[9], app, stream.key);
        }
        _ => show_nothing(media, words),
    }
}

// The kind is the number that C hands in.
#[tactic(auto, unfolding(crate::specs::Frames::frame_by))]
fn show_frame(
    media: &mut [u64; 4],
    words: &mut [[u8; 128]; 2],
    image: Image,
    kind: u8,
    id: StreamId,
    timestamp: u32,
)
    ensures { (media.new, words.new) ≡ frame_shown (frame_by kind (session_read image.entry) id timestamp) }
{
    match kind {
        8 => show_event(
            media,
            words,
            image,
            id,
            Event::AudioDataReceived { timestamp },
        ),
        9 => show_event(
            media,
            words,
            image,
            id,
            Event::VideoDataReceived { timestamp },
        ),
        _ => show_nothing(media, words),
    }
}

// An audio (kind 8) or a video (kind 9) message.
pub fn chungvator_handle_media(
    facts: &[u64; 10],
    streams: &[[u64; 4]; 16],
    requests: &[[u64; 6]; 16],
    names: &[[u8; 128]; 34],
    kind: u8,
    stream: u32,
    timestamp: u32,
    media: &mut [u64; 4],
    words: &mut [[u8; 128]; 2],
) -> u32
    ensures { (result, (media.new, words.new)) ≡ hosted_media (readable_at facts.now streams.now requests.now) (media_of kind (session_at facts.now streams.now requests.now names.now) (record { 0 = stream }) timestamp) }
{
    if !image_sound(facts, streams, requests, names) {
        show_nothing(media, words);
        return 15;
    }
    let image = Image {
        facts,
        streams,
        requests,
        names,
    };
    show_frame(media, words, image, kind, StreamId(stream), timestamp);
    0
}
