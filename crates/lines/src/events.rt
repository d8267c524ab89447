// "[EVENT FIELD=VALUE ..]": an event's name is the Rust's.
ghost use Rattle.std.specs.Prelude.{◌≡◌};
ghost use Rattle.spelling.specs.Text.{put_all};
ghost use Rattle.lines.specs.Lines.{connect_text, described_text, event_line, finished_text, frame_text, names_text, play_text, publish_text, range_text};

use crate::metadata_fields::put_metadata;
use metadata::StreamMetadata;
use numbers::PlayStartValue;
use session::Event;
use spelling::{put_duration, put_field, put_flag, put_mode, put_name, put_start, put_word};
use text::{Name, PublishMode, RequestId, StreamId};

#[tactic(auto, using(spelling::proofs::TextLaws::put_more), unfolding(crate::specs::Lines::names_text))]
fn put_names(out: &mut [u8], at: usize, app: Name, key: Name) -> usize
    ensures { (result, out.new) ≡ put_all (names_text app key) (at, out.old) }
{
    let to = put_name(out, at, b" app=", app);
    put_name(out, to, b" key=", key)
}

#[tactic(auto, using(spelling::proofs::TextLaws::put_more), unfolding(crate::specs::Lines::connect_text))]
fn put_connect(out: &mut [u8], at: usize, request: RequestId, app: Name) -> usize
    ensures { (result, out.new) ≡ put_all (connect_text request app) (at, out.old) }
{
    let to = put_field(
        out,
        at,
        b" ConnectionRequested request=",
        u64::from(request.0),
    );
    put_name(out, to, b" app=", app)
}

#[tactic(auto, using(spelling::proofs::TextLaws::put_more), unfolding(crate::specs::Lines::publish_text))]
fn put_publish(
    out: &mut [u8],
    at: usize,
    request: RequestId,
    app: Name,
    key: Name,
    mode: PublishMode,
) -> usize
    ensures { (result, out.new) ≡ put_all (publish_text request app key mode) (at, out.old) }
{
    let a = put_field(
        out,
        at,
        b" PublishStreamRequested request=",
        u64::from(request.0),
    );
    let b = put_names(out, a, app, key);
    let c = put_word(out, b, b" mode=");
    put_mode(out, c, mode)
}

#[tactic(auto, using(spelling::proofs::TextLaws::put_more), unfolding(crate::specs::Lines::range_text))]
fn put_range(
    out: &mut [u8],
    at: usize,
    start: PlayStartValue,
    duration: Option<u32>,
    reset: bool,
) -> usize
    ensures { (result, out.new) ≡ put_all (range_text start duration reset) (at, out.old) }
{
    let a = put_word(out, at, b" start=");
    let b = put_start(out, a, start);
    let c = put_word(out, b, b" duration=");
    let d = put_duration(out, c, duration);
    let e = put_word(out, d, b" reset=");
    put_flag(out, e, reset)
}

#[tactic(auto, using(spelling::proofs::TextLaws::put_more), unfolding(crate::specs::Lines::play_text))]
fn put_play(
    out: &mut [u8],
    at: usize,
    request: RequestId,
    app: Name,
    key: Name,
    start: PlayStartValue,
    duration: Option<u32>,
    reset: bool,
    stream: StreamId,
) -> usize
    ensures { (result, out.new) ≡ put_all (play_text request app key start duration reset stream) (at, out.old) }
{
    let a = put_field(
        out,
        at,
        b" PlayStreamRequested request=",
        u64::from(request.0),
    );
    let b = put_names(out, a, app, key);
    let c = put_range(out, b, start, duration, reset);
    put_field(out, c, b" stream=", u64::from(stream.0))
}

#[tactic(auto, using(spelling::proofs::TextLaws::put_more), unfolding(crate::specs::Lines::finished_text))]
fn put_finished(out: &mut [u8], at: usize, name: &[u8], app: Name, key: Name) -> usize
    ensures { (result, out.new) ≡ put_all (finished_text name.now app key) (at, out.old) }
{
    let to = put_word(out, at, name);
    put_names(out, to, app, key)
}

#[tactic(auto, using(spelling::proofs::TextLaws::put_more), unfolding(crate::specs::Lines::described_text))]
fn put_described(out: &mut [u8], at: usize, app: Name, key: Name, m: StreamMetadata) -> usize
    ensures { (result, out.new) ≡ put_all (described_text app key m) (at, out.old) }
{
    let to = put_finished(out, at, b" StreamMetadataChanged", app, key);
    put_metadata(out, to, m)
}

#[tactic(auto, using(spelling::proofs::TextLaws::put_more), unfolding(crate::specs::Lines::frame_text))]
fn put_frame(
    out: &mut [u8],
    at: usize,
    name: &[u8],
    app: Name,
    key: Name,
    timestamp: u32,
    len: usize,
) -> usize
    ensures { (result, out.new) ≡ put_all (frame_text name.now app key timestamp len) (at, out.old) }
{
    let a = put_finished(out, at, name, app, key);
    let b = put_field(out, a, b" timestamp=", u64::from(timestamp));
    put_field(out, b, b" length=", len as u64)
}

// `len` is the length of the message's body.
#[tactic(auto, unfolding(spelling::specs::Text::put_all))]
pub fn put_event(
    out: &mut [u8],
    at: usize,
    event: Option<Event>,
    app: Name,
    key: Name,
    m: StreamMetadata,
    len: usize,
) -> usize
    ensures { (result, out.new) ≡ put_all (event_line event app key m len) (at, out.old) }
{
    let Some(event) = event else {
        return at;
    };
    match event {
        Event::ConnectionRequested(request) => put_connect(out, at, request, app),
        Event::PublishStreamRequested { request, mode } => {
            put_publish(out, at, request, app, key, mode)
        }
        Event::PlayStreamRequested {
            request,
            start,
            duration,
            reset,
            stream,
        } => put_play(out, at, request, app, key, start, duration, reset, stream),
        Event::PublishStreamFinished => put_finished(out, at, b" PublishStreamFinished", app, key),
        Event::PlayStreamFinished => put_finished(out, at, b" PlayStreamFinished", app, key),
        Event::StreamMetadataChanged => put_described(out, at, app, key, m),
        Event::AudioDataReceived { timestamp } => {
            put_frame(out, at, b" AudioDataReceived", app, key, timestamp, len)
        }
        Event::VideoDataReceived { timestamp } => {
            put_frame(out, at, b" VideoDataReceived", app, key, timestamp, len)
        }
        Event::PingResponseReceived { timestamp } => put_field(
            out,
            at,
            b" PingResponseReceived timestamp=",
            u64::from(timestamp),
        ),
    }
}
