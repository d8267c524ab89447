// What the application sends: how many bytes were written, or why none. The session stays as it is and is not handed back.
ghost use Rattle.std.specs.Prelude.{◌≡◌};
ghost use Rattle.sending.specs.Sends.{encoder_fits, media_sent, metadata_sent, pinged, sends_media, sends_metadata, sends_ping};

use answers::{media_record, ping_request};
use metadata::{StreamMetadata, metadata_record};
use record::time_of;
use session::{Session, session_sound};
use text::{Name, StreamId};
use wishes::Refusal;

// Of a ping request: the number that was sent, beside the count.
#[derive(Clone, Copy, Debug, PartialEq, Eq)]
pub struct PingSent {
    pub count: usize,
    pub timestamp: u32,
}

// An encoder counts where one is set.
fn encoder_fits(encoder: Option<Name>) -> bool
    ensures { result ≡ encoder_fits encoder }
{
    match encoder {
        Some(name) => name.len <= 128,
        None => true,
    }
}

// Behind the door: 6, then the record.
#[tactic(auto, unfolding(crate::specs::Sends::metadata_sent, crate::specs::Answers::sending))]
pub fn write_metadata(
    stream: StreamId,
    m: StreamMetadata,
    time: u32,
    out: &mut [u8],
) -> Result<usize, Refusal>
    ensures { (result, out.new) ≡ metadata_sent stream m time out.old }
{
    if !encoder_fits(m.encoder) {
        return Err(Refusal::NameTooLong);
    }
    metadata_record(out, m, time, stream).ok_or(Refusal::NoRoom)
}

#[tactic(auto, unfolding(crate::specs::Sends::guarded_send))]
pub fn send_metadata(
    session: Session,
    stream: StreamId,
    m: StreamMetadata,
    clock: u64,
    out: &mut [u8],
) -> Result<usize, Refusal>
    ensures { (result, out.new) ≡ sends_metadata session stream m clock out.old }
{
    if !session_sound(session) {
        return Err(Refusal::BadSession);
    }
    write_metadata(stream, m, time_of(session.start, clock), out)
}

// Behind the door: 1, then the record.
#[tactic(auto, unfolding(crate::specs::Sends::media_sent, crate::specs::Answers::sending))]
pub fn write_media(
    kind: u8,
    stream: StreamId,
    timestamp: u32,
    droppable: bool,
    body: &[u8],
    out: &mut [u8],
) -> Result<usize, Refusal>
    ensures { (result, out.new) ≡ media_sent kind stream timestamp droppable body.now out.old }
{
    if 16777215 < body.len() {
        return Err(Refusal::BodyTooLong);
    }
    media_record(out, kind, timestamp, stream, droppable, body).ok_or(Refusal::NoRoom)
}

// The audio send is this one with type 8, the video send with type 9.
#[tactic(auto, unfolding(crate::specs::Sends::guarded_send))]
fn send_media(
    kind: u8,
    session: Session,
    stream: StreamId,
    timestamp: u32,
    droppable: bool,
    body: &[u8],
    out: &mut [u8],
) -> Result<usize, Refusal>
    ensures { (result, out.new) ≡ sends_media kind session stream timestamp droppable body.now out.old }
{
    if !session_sound(session) {
        return Err(Refusal::BadSession);
    }
    write_media(kind, stream, timestamp, droppable, body, out)
}

pub fn send_audio_data(
    session: Session,
    stream: StreamId,
    timestamp: u32,
    droppable: bool,
    body: &[u8],
    out: &mut [u8],
) -> Result<usize, Refusal>
    ensures { (result, out.new) ≡ sends_media 8 session stream timestamp droppable body.now out.old }
{
    send_media(8, session, stream, timestamp, droppable, body, out)
}

pub fn send_video_data(
    session: Session,
    stream: StreamId,
    timestamp: u32,
    droppable: bool,
    body: &[u8],
    out: &mut [u8],
) -> Result<usize, Refusal>
    ensures { (result, out.new) ≡ sends_media 9 session stream timestamp droppable body.now out.old }
{
    send_media(9, session, stream, timestamp, droppable, body, out)
}

pub fn write_ping(time: u32, out: &mut [u8]) -> Result<PingSent, Refusal>
    ensures { (result, out.new) ≡ pinged time out.old }
{
    let count = ping_request(out, time).ok_or(Refusal::NoRoom)?;
    Ok(PingSent {
        count,
        timestamp: time,
    })
}

#[tactic(auto, unfolding(crate::specs::Sends::sends_ping))]
pub fn send_ping_request(session: Session, clock: u64, out: &mut [u8]) -> Result<PingSent, Refusal>
    ensures { (result, out.new) ≡ sends_ping session clock out.old }
{
    if !session_sound(session) {
        return Err(Refusal::BadSession);
    }
    write_ping(time_of(session.start, clock), out)
}
