// The calls that leave the session: metadata, audio and video sends, and a ping request. Each hands back the line's length.
ghost use Rattle.std.specs.Prelude.{◌≡◌, ◌<◌};
ghost use Rattle.spelling.specs.Text.{put_all};
ghost use Rattle.plays.specs.Plays.{bit, encoder_in, media_line, metadata_in, metadata_line, number_in, pinged_line, rate_in};

use metadata::StreamMetadata;
use numbers::{byte_at, double_of_single, f32_of, u16_at, u32_at, u64_at};
use reports::{put_ping, put_sent};
use sending::{send_audio_data, send_metadata, send_ping_request, send_video_data};
use session::Session;
use text::{Name, StreamId, empty_name, part_of, read_name, text_of};

// "bit i: field i of document 01's list is set, bit 0 width"
#[tactic(auto, unfolding(crate::specs::Plays::bit))]
fn is_set(e: &[u8], power: u16) -> bool
    requires { 0 < power }
    ensures { result ≡ bit e.now power }
{
    u16_at(e, 17) / power % 2 == 1
}

// "An encoder of more than 128 bytes is handed over as its first 128 bytes with the length n."
#[tactic(auto, unfolding(crate::specs::Plays::encoder_in))]
fn encoder_in(e: &[u8]) -> Name
    ensures { result ≡ encoder_in e.now }
{
    let len = u16_at(e, 56) as usize;
    let first = read_name(text_of(part_of(e, 58, len), 128)).unwrap_or(empty_name());
    Name { len, ..first }
}

#[tactic(auto, unfolding(crate::specs::Plays::rate_in))]
fn rate_in(e: &[u8]) -> f32
    ensures { result ≡ rate_in e.now }
{
    f32_of(double_of_single(u32_at(e, 35)))
}

fn number_in(e: &[u8], power: u16, at: usize) -> Option<u32>
    requires { 0 < power }
    ensures { result ≡ number_in e.now power at }
{
    if is_set(e, power) {
        Some(u32_at(e, at))
    } else {
        None
    }
}

#[tactic(auto, unfolding(crate::specs::Plays::metadata_in))]
fn metadata_in(e: &[u8]) -> StreamMetadata
    ensures { result ≡ metadata_in e.now }
{
    StreamMetadata {
        video_width: number_in(e, 1, 19),
        video_height: number_in(e, 2, 23),
        video_codec_id: number_in(e, 4, 27),
        video_bitrate_kbps: number_in(e, 8, 31),
        video_frame_rate: if is_set(e, 16) {
            Some(rate_in(e))
        } else {
            None
        },
        audio_codec_id: number_in(e, 32, 39),
        audio_bitrate_kbps: number_in(e, 64, 43),
        audio_sample_rate: number_in(e, 128, 47),
        audio_channels: number_in(e, 256, 51),
        audio_is_stereo: if is_set(e, 512) {
            Some(byte_at(e, 55) == 1)
        } else {
            None
        },
        encoder: if is_set(e, 1024) {
            Some(encoder_in(e))
        } else {
            None
        },
    }
}

#[tactic(auto, unfolding(crate::specs::Plays::metadata_line))]
pub fn play_metadata(s: Session, e: &[u8], out: &mut [u8], line: &mut [u8]) -> usize
    ensures { (result, line.new) ≡ put_all (metadata_line s e.now out.old) (0, line.old) }
{
    let stream = StreamId(u32_at(e, 1));
    let sent = send_metadata(s, stream, metadata_in(e), u64_at(e, 5), out);
    put_sent(line, b"metadata", sent, out)
}

#[tactic(auto, unfolding(crate::specs::Plays::media_line))]
pub fn play_media(s: Session, e: &[u8], out: &mut [u8], line: &mut [u8]) -> usize
    ensures { (result, line.new) ≡ put_all (media_line s e.now out.old) (0, line.old) }
{
    let stream = StreamId(u32_at(e, 2));
    let timestamp = u32_at(e, 6);
    let droppable = byte_at(e, 10) == 1;
    let body = part_of(e, 19, u32_at(e, 15) as usize);
    let sent = if byte_at(e, 1) == 8 {
        send_audio_data(s, stream, timestamp, droppable, body, out)
    } else {
        send_video_data(s, stream, timestamp, droppable, body, out)
    };
    put_sent(line, b"media", sent, out)
}

#[tactic(auto, unfolding(crate::specs::Plays::pinged_line))]
pub fn play_ping(s: Session, e: &[u8], out: &mut [u8], line: &mut [u8]) -> usize
    ensures { (result, line.new) ≡ put_all (pinged_line s e.now out.old) (0, line.old) }
{
    match send_ping_request(s, u64_at(e, 1), out) {
        Ok(sent) => put_ping(line, Ok(sent.count), sent.timestamp, out),
        Err(refusal) => put_ping(line, Err(refusal), 0, out),
    }
}
