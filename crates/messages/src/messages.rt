// Messages that come in.
ghost use Rattle.std.specs.Prelude.{◌≡◌};
ghost use Rattle.messages.specs.Messages.{by_type, frame_answer, handle_media, handle_message, media_event, wished};
ghost use Rattle.steps.specs.Deciding.{decided};

use replies::{Answer, finish_call, idle_answer, refuse};
use session::{Decision, Event, Session, desk_of, session_sound};
use steps::{decide, subject};
use streams::{Frame, frame_of};
use text::StreamId;
use wishes::{Refusal, Wish, command_wish, control_wish, data_wish};

#[derive(Clone, Copy, Debug, PartialEq, Eq)]
pub enum MediaKind {
    Audio,
    Video,
}

#[tactic(auto, unfolding(steps::specs::Deciding::decided))]
fn decide_read(session: Session, stream: StreamId, read: Result<Wish, Refusal>) -> Decision
    ensures { result ≡ decided session stream read }
{
    let desk = desk_of(session, subject(read, stream));
    decide(desk, stream, read)
}

fn by_wish(
    session: Session,
    stream: StreamId,
    clock: u64,
    out: &mut [u8],
    read: Result<Wish, Refusal>,
) -> Answer
    ensures { (result, out.new) ≡ wished session stream clock out.old read }
{
    let decision = decide_read(session, stream, read);
    finish_call(session, decision, b"", b"", clock, out)
}

fn frame_answer(session: Session, frame: Option<Frame>) -> Answer
    ensures { result ≡ frame_answer session frame }
{
    match frame {
        Some(frame) => Answer {
            event: frame.event,
            app: frame.app,
            key: frame.key,
            ..idle_answer(session, 0)
        },
        None => idle_answer(session, 0),
    }
}

// The type alone picks the treatment. It is the wire's number: an enum of types would be matched a second time.
#[tactic(auto, unfolding(crate::specs::Messages::by_type))]
fn by_type(
    session: Session,
    kind: u8,
    stream: StreamId,
    timestamp: u32,
    clock: u64,
    body: &[u8],
    out: &mut [u8],
) -> Answer
    ensures { (result, out.new) ≡ by_type session kind stream timestamp clock body.now out.old }
{
    match kind {
        4 => by_wish(session, stream, clock, out, control_wish(body)),
        8 => frame_answer(
            session,
            frame_of(
                session,
                stream,
                Some(Event::AudioDataReceived { timestamp }),
            ),
        ),
        9 => frame_answer(
            session,
            frame_of(
                session,
                stream,
                Some(Event::VideoDataReceived { timestamp }),
            ),
        ),
        18 => by_wish(session, stream, clock, out, data_wish(body)),
        20 => by_wish(session, stream, clock, out, command_wish(body)),
        _ => idle_answer(session, 0),
    }
}

#[tactic(auto, unfolding(crate::specs::Messages::guarded))]
pub fn handle_message(
    session: Session,
    kind: u8,
    stream: StreamId,
    timestamp: u32,
    clock: u64,
    body: &[u8],
    out: &mut [u8],
) -> Answer
    ensures { (result, out.new) ≡ handle_message session kind stream timestamp clock body.now out.old }
{
    if !session_sound(session) {
        return refuse(Err(Refusal::BadSession), session);
    }
    by_type(session, kind, stream, timestamp, clock, body, out)
}

fn media_event(kind: MediaKind, timestamp: u32) -> Event
    ensures { result ≡ media_event kind timestamp }
{
    match kind {
        MediaKind::Audio => Event::AudioDataReceived { timestamp },
        MediaKind::Video => Event::VideoDataReceived { timestamp },
    }
}

// An audio or a video message. The session stays as it is and is not handed back, so no copy of it is made, and nothing
// is written.
#[tactic(auto, unfolding(crate::specs::Messages::handle_media))]
pub fn handle_media(
    session: Session,
    kind: MediaKind,
    stream: StreamId,
    timestamp: u32,
) -> Result<Option<Frame>, Refusal>
    ensures { result ≡ handle_media session kind stream timestamp }
{
    if !session_sound(session) {
        return Err(Refusal::BadSession);
    }
    let event = media_event(kind, timestamp);
    Ok(frame_of(session, stream, Some(event)))
}
