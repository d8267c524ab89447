// Metadata as two rows: which of the eleven are set, and their values, of the encoder its length.
ghost use Rattle.std.specs.Prelude.{◌≡◌, option_map};
ghost use Rattle.text.specs.declared.names.Name.{Name};
ghost use Rattle.image.specs.Cases.{flag_number};
ghost use Rattle.parts.specs.Parts.{encoder_bytes, field_numbers, given, metadata_of, metadata_rows, rate_number, rate_of};

use image::{flag_number, short_number};
use metadata::StreamMetadata;
use numbers::{bits_of_f32, double_of_single, f32_of, single_of};
use text::{Name, empty_name};

fn wide(n: Option<u32>) -> Option<u64>
    ensures { result ≡ n }
{
    Some(u64::from(n?))
}

fn rate_bits(rate: Option<f32>) -> Option<u64>
    ensures { result ≡ option_map rate_number rate }
{
    Some(u64::from(single_of(bits_of_f32(rate?))))
}

fn flag(flag: Option<bool>) -> Option<u64>
    ensures { result ≡ option_map flag_number flag }
{
    Some(flag_number(flag?))
}

fn text_length(name: Option<Name>) -> Option<u64>
    ensures { result ≡ option_map (λ (n : Name). n.len) name }
{
    Some(name?.len as u64)
}

// The eleven, in the order of both rows.
#[tactic(auto, unfolding(crate::specs::Parts::field_numbers))]
fn field_numbers(m: StreamMetadata) -> [Option<u64>; 11]
    ensures { result ≡ field_numbers m }
{
    [
        wide(m.video_width),
        wide(m.video_height),
        wide(m.video_codec_id),
        wide(m.video_bitrate_kbps),
        rate_bits(m.video_frame_rate),
        wide(m.audio_codec_id),
        wide(m.audio_bitrate_kbps),
        wide(m.audio_sample_rate),
        wide(m.audio_channels),
        flag(m.audio_is_stereo),
        text_length(m.encoder),
    ]
}

#[tactic(auto, unfolding(crate::specs::Parts::metadata_rows))]
pub fn metadata_rows(m: StreamMetadata) -> [[u64; 11]; 2]
    ensures { result ≡ metadata_rows m }
{
    let fields = field_numbers(m);
    let mut set = [0; 11];
    let mut values = [0; 11];
    for i in 0..11 {
        set[i] = flag_number(fields[i].is_some());
        values[i] = fields[i].unwrap_or(0);
    }
    [set, values]
}

pub fn encoder_bytes(m: StreamMetadata) -> [u8; 128]
    ensures { result ≡ encoder_bytes m }
{
    m.encoder.unwrap_or(empty_name()).bytes
}

fn rate_of(n: u64) -> f32
    ensures { result ≡ rate_of n }
{
    f32_of(double_of_single(short_number(n)))
}

// A field is set where its flag is 1.
fn given<T: Copy>(set: u64, value: T) -> Option<T>
    ensures { result ≡ given set value }
{
    if set == 1 { Some(value) } else { None }
}

// A number is taken modulo 2^32; what stands beside a flag that is not 1 is not read.
#[tactic(auto, unfolding(crate::specs::Parts::metadata_of))]
pub fn metadata_of(set: [u64; 11], values: [u64; 11], bytes: [u8; 128]) -> StreamMetadata
    ensures { result ≡ metadata_of set values bytes }
{
    let encoder = Name {
        bytes,
        len: values[10] as usize,
    };
    StreamMetadata {
        video_width: given(set[0], short_number(values[0])),
        video_height: given(set[1], short_number(values[1])),
        video_codec_id: given(set[2], short_number(values[2])),
        video_bitrate_kbps: given(set[3], short_number(values[3])),
        video_frame_rate: given(set[4], rate_of(values[4])),
        audio_codec_id: given(set[5], short_number(values[5])),
        audio_bitrate_kbps: given(set[6], short_number(values[6])),
        audio_sample_rate: given(set[7], short_number(values[7])),
        audio_channels: given(set[8], short_number(values[8])),
        audio_is_stereo: given(set[9], values[9] == 1),
        encoder: given(set[10], encoder),
    }
}
