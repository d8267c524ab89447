// The sends. No session is made of the arrays, and none is handed back.
ghost use Rattle.std.specs.Prelude.{◌≡◌, [], get_or};
ghost use Rattle.image.specs.Image.{readable_at, session_at};
ghost use Rattle.parts.specs.Parts.{metadata_of};
ghost use Rattle.sending.specs.Sends.{sends_media, sends_metadata, sends_ping};
ghost use Rattle.parts.specs.Told.{is_set};
ghost use Rattle.host.specs.Sends.{hosted_ping, hosted_send, ping_told, send_numbers};

use image::image_sound;
use parts::{is_set, metadata_of};
use record::time_of;
use sending::{PingSent, write_media, write_metadata, write_ping};
use text::StreamId;
use wishes::{Refusal, number_of};

// The number of a send, and how many bytes it wrote.
fn tell_sent(written: &mut u64, sent: Result<usize, Refusal>) -> u32
    ensures { (result, written.new) ≡ send_numbers sent }
{
    match sent {
        Ok(count) => {
            *written = count as u64;
            0
        }
        Err(refusal) => {
            *written = 0;
            number_of(Err(refusal))
        }
    }
}

fn tell_ping(written: &mut u64, timestamp: &mut u32, sent: Result<PingSent, Refusal>) -> u32
    ensures { (result, (written.new, timestamp.new)) ≡ ping_told sent }
{
    match sent {
        Ok(ping) => {
            *written = ping.count as u64;
            *timestamp = ping.timestamp;
            0
        }
        Err(refusal) => {
            *written = 0;
            *timestamp = 0;
            number_of(Err(refusal))
        }
    }
}

// Type 8 is audio, 9 video.
#[tactic(auto, using(crate::proofs::SendsLaws::send_shut, crate::proofs::SendsLaws::send_open))]
fn send_media(
    facts: &[u64; 10],
    streams: &[[u64; 4]; 16],
    requests: &[[u64; 6]; 16],
    names: &[[u8; 128]; 34],
    kind: u8,
    stream: u32,
    timestamp: u32,
    droppable: u32,
    body: &[u8],
    out: &mut [u8],
    written: &mut u64,
) -> u32
    ensures { ((result, written.new), out.new) ≡ hosted_send (readable_at facts.now streams.now requests.now) out.old (sends_media kind (session_at facts.now streams.now requests.now names.now) (record { 0 = stream }) timestamp (is_set droppable) body.now out.old) }
{
    if !image_sound(facts, streams, requests, names) {
        return tell_sent(written, Err(Refusal::BadSession));
    }
    let droppable = is_set(droppable);
    let sent = write_media(kind, StreamId(stream), timestamp, droppable, body, out);
    tell_sent(written, sent)
}

pub fn chungvator_send_audio_data(
    facts: &[u64; 10],
    streams: &[[u64; 4]; 16],
    requests: &[[u64; 6]; 16],
    names: &[[u8; 128]; 34],
    stream: u32,
    timestamp: u32,
    droppable: u32,
    body: &[u8],
    out: &mut [u8],
    written: &mut u64,
) -> u32
    ensures { ((result, written.new), out.new) ≡ hosted_send (readable_at facts.now streams.now requests.now) out.old (sends_media 8 (session_at facts.now streams.now requests.now names.now) (record { 0 = stream }) timestamp (is_set droppable) body.now out.old) }
{
    send_media(
        facts, streams, requests, names, 8, stream, timestamp, droppable, body, out, written,
    )
}

pub fn chungvator_send_video_data(
    facts: &[u64; 10],
    streams: &[[u64; 4]; 16],
    requests: &[[u64; 6]; 16],
    names: &[[u8; 128]; 34],
    stream: u32,
    timestamp: u32,
    droppable: u32,
    body: &[u8],
    out: &mut [u8],
    written: &mut u64,
) -> u32
    ensures { ((result, written.new), out.new) ≡ hosted_send (readable_at facts.now streams.now requests.now) out.old (sends_media 9 (session_at facts.now streams.now requests.now names.now) (record { 0 = stream }) timestamp (is_set droppable) body.now out.old) }
{
    send_media(
        facts, streams, requests, names, 9, stream, timestamp, droppable, body, out, written,
    )
}

// `described` is a row of which are set and a row of values, as in an answer.
#[tactic(auto, using(crate::proofs::SendsLaws::metadata_shut, crate::proofs::SendsLaws::metadata_open))]
pub fn chungvator_send_metadata(
    facts: &[u64; 10],
    streams: &[[u64; 4]; 16],
    requests: &[[u64; 6]; 16],
    names: &[[u8; 128]; 34],
    stream: u32,
    described: &[[u64; 11]; 2],
    encoder: &[u8; 128],
    clock: u64,
    out: &mut [u8],
    written: &mut u64,
) -> u32
    ensures { ((result, written.new), out.new) ≡ hosted_send (readable_at facts.now streams.now requests.now) out.old (sends_metadata (session_at facts.now streams.now requests.now names.now) (record { 0 = stream }) (metadata_of (get_or described.now 0 []) (get_or described.now 1 []) encoder.now) clock out.old) }
{
    if !image_sound(facts, streams, requests, names) {
        return tell_sent(written, Err(Refusal::BadSession));
    }
    let metadata = metadata_of(described[0], described[1], *encoder);
    let time = time_of(facts[0], clock);
    tell_sent(
        written,
        write_metadata(StreamId(stream), metadata, time, out),
    )
}

#[tactic(auto, using(crate::proofs::SendsLaws::ping_shut, crate::proofs::SendsLaws::ping_open))]
pub fn chungvator_send_ping_request(
    facts: &[u64; 10],
    streams: &[[u64; 4]; 16],
    requests: &[[u64; 6]; 16],
    names: &[[u8; 128]; 34],
    clock: u64,
    out: &mut [u8],
    written: &mut u64,
    timestamp: &mut u32,
) -> u32
    ensures { ((result, (written.new, timestamp.new)), out.new) ≡ hosted_ping (readable_at facts.now streams.now requests.now) out.old (sends_ping (session_at facts.now streams.now requests.now names.now) clock out.old) }
{
    if !image_sound(facts, streams, requests, names) {
        return tell_ping(written, timestamp, Err(Refusal::BadSession));
    }
    let time = time_of(facts[0], clock);
    tell_ping(written, timestamp, write_ping(time, out))
}
