// Steps that go by a stream: createStream, closeStream, deleteStream, metadata, audio and video.
ghost use Rattle.std.specs.Prelude.{◌≡◌};
ghost use Rattle.streams.specs.Streams.{change_metadata, close_stream, create_stream, created, delete_stream, described, ended, frame_of, known, shown};

use metadata::{LongEncoder, StreamMetadata, no_metadata};
use session::{
    Change, Decision, Desk, Effect, Event, Reply, Session, is_connected, no_change, nothing_done,
    of_stream, quiet, raised, refused, replied,
};
use tables::{Stream, StreamState, find};
use text::{Name, PublishMode, StreamId, empty_name};
use wishes::Refusal;

// An audio or a video event with its names; the session stays as it is.
#[derive(Clone, Copy)]
pub struct Frame {
    pub event: Option<Event>,
    pub app: Name,
    pub key: Name,
}

pub fn created_stream(id: StreamId) -> Stream
    ensures { result ≡ created id }
{
    Stream {
        id,
        state: StreamState::Created,
        mode: PublishMode::Live,
        key: empty_name(),
    }
}

#[tactic(auto, unfolding(crate::specs::Streams::create_stream))]
pub fn create_stream(desk: Desk, transaction: u64) -> Decision
    ensures { result ≡ create_stream desk transaction }
{
    if desk.next_stream == u32::MAX {
        return refused(Err(Refusal::NumbersUsedUp));
    }
    if 16 <= desk.stream_count {
        return refused(Err(Refusal::StreamsFull));
    }
    let stream = StreamId(desk.next_stream);
    replied(
        Reply::StreamCreated {
            transaction,
            stream,
        },
        empty_name(),
        of_stream(Effect::StreamMade, created_stream(stream)),
    )
}

// The stream in question, where the session is connected.
fn known(desk: Desk) -> Option<Stream>
    ensures { result ≡ known desk }
{
    if desk.connected { desk.seen } else { None }
}

// The event of a stream that ends, if it was in use.
fn end_stream(state: StreamState, app: Name, key: Name, change: Change) -> Decision
    ensures { result ≡ ended state app key change }
{
    match state {
        StreamState::Publishing => {
            raised(
                Some(Event::PublishStreamFinished),
                app,
                key,
                no_metadata(),
                change,
            )
        }
        StreamState::Playing => raised(
            Some(Event::PlayStreamFinished),
            app,
            key,
            no_metadata(),
            change,
        ),
        StreamState::Created | StreamState::Completed => quiet(change),
    }
}

#[tactic(auto, unfolding(crate::specs::Streams::on_stream))]
pub fn close_stream(desk: Desk) -> Decision
    ensures { result ≡ close_stream desk }
{
    let Some(stream) = known(desk) else {
        return nothing_done();
    };
    let change = of_stream(Effect::StreamSet, created_stream(stream.id));
    end_stream(stream.state, desk.app, stream.key, change)
}

#[tactic(auto, unfolding(crate::specs::Streams::on_stream))]
pub fn delete_stream(desk: Desk) -> Decision
    ensures { result ≡ delete_stream desk }
{
    let Some(stream) = known(desk) else {
        return nothing_done();
    };
    let change = of_stream(Effect::StreamRemoved, stream);
    end_stream(stream.state, desk.app, stream.key, change)
}

// The metadata of a publishing stream; an encoder that is too long is refused only here.
fn describe(
    state: StreamState,
    app: Name,
    key: Name,
    read: Result<StreamMetadata, LongEncoder>,
) -> Decision
    ensures { result ≡ described state app key read }
{
    match (state, read) {
        (StreamState::Publishing, Ok(m)) => {
            raised(Some(Event::StreamMetadataChanged), app, key, m, no_change())
        }
        (StreamState::Publishing, Err(_)) => refused(Err(Refusal::NameTooLong)),
        _ => nothing_done(),
    }
}

#[tactic(auto, unfolding(crate::specs::Streams::on_stream))]
pub fn change_metadata(desk: Desk, read: Result<StreamMetadata, LongEncoder>) -> Decision
    ensures { result ≡ change_metadata desk read }
{
    let Some(stream) = known(desk) else {
        return nothing_done();
    };
    describe(stream.state, desk.app, stream.key, read)
}

// An event only where the stream is publishing.
pub fn show_frame(state: StreamState, event: Option<Event>, app: Name, key: Name) -> Option<Frame>
    ensures { result ≡ shown state event app key }
{
    match state {
        StreamState::Publishing => Some(Frame { event, app, key }),
        _ => None,
    }
}

// The event under the key of a publishing stream. The session goes in by value and does not come back: no copy is made.
#[tactic(auto, unfolding(crate::specs::Streams::frame_of))]
pub fn frame_of(session: Session, id: StreamId, event: Option<Event>) -> Option<Frame>
    ensures { result ≡ frame_of session id event }
{
    if !is_connected(session) {
        return None;
    }
    let stream = find(&session.streams, session.stream_count, id)?;
    show_frame(stream.state, event, session.app, stream.key)
}
