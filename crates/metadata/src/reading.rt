// The metadata of an object in a body. A wrong type leaves the field unset.
ghost use Rattle.std.specs.Prelude.{◌≡◌};
ghost use Rattle.amf0.specs.Plain.{property_at};
ghost use Rattle.metadata.specs.Reading.{flag_in, metadata_at, rate_in, rest_at, whole_in};

use crate::metadata::StreamMetadata;
use amf0::{Plain, plain_property};
use numbers::{f32_of, u32_of};
use text::{part_of, read_name};

// The encoder is over 128 bytes; the rest has none.
#[derive(Clone, Copy)]
pub struct LongEncoder {
    pub rest: StreamMetadata,
}

fn whole_property(body: &[u8], at: usize, word: &[u8]) -> Option<u32>
    ensures { result ≡ whole_in (property_at body.now at word.now) }
{
    match plain_property(body, at, word) {
        Some(Plain::Bits(bits)) => Some(u32_of(bits)),
        _ => None,
    }
}

fn rate_property(body: &[u8], at: usize, word: &[u8]) -> Option<f32>
    ensures { result ≡ rate_in (property_at body.now at word.now) }
{
    match plain_property(body, at, word) {
        Some(Plain::Bits(bits)) => Some(f32_of(bits)),
        _ => None,
    }
}

fn flag_property(body: &[u8], at: usize, word: &[u8]) -> Option<bool>
    ensures { result ≡ flag_in (property_at body.now at word.now) }
{
    match plain_property(body, at, word) {
        Some(Plain::Boolean(b)) => Some(b),
        _ => None,
    }
}

// All but the encoder.
fn read_rest(body: &[u8], at: usize) -> StreamMetadata
    ensures { result ≡ rest_at body.now at }
{
    StreamMetadata {
        video_width: whole_property(body, at, b"width"),
        video_height: whole_property(body, at, b"height"),
        video_codec_id: whole_property(body, at, b"videocodecid"),
        video_bitrate_kbps: whole_property(body, at, b"videodatarate"),
        video_frame_rate: rate_property(body, at, b"framerate"),
        audio_codec_id: whole_property(body, at, b"audiocodecid"),
        audio_bitrate_kbps: whole_property(body, at, b"audiodatarate"),
        audio_sample_rate: whole_property(body, at, b"audiosamplerate"),
        audio_channels: whole_property(body, at, b"audiochannels"),
        audio_is_stereo: flag_property(body, at, b"stereo"),
        encoder: None,
    }
}

// Of the value at `at`; one that is no object has no property.
#[tactic(auto, unfolding(crate::specs::Reading::metadata_at))]
pub fn read_metadata(body: &[u8], at: usize) -> Result<StreamMetadata, LongEncoder>
    ensures { result ≡ metadata_at body.now at }
{
    let rest = read_rest(body, at);
    let Some(Plain::Text { start, len }) = plain_property(body, at, b"encoder") else {
        return Ok(rest);
    };
    let encoder = read_name(part_of(body, start, len)).ok_or(LongEncoder { rest })?;
    Ok(StreamMetadata {
        encoder: Some(encoder),
        ..rest
    })
}
