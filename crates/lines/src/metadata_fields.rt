// Each set property of a stream's metadata, in document 01's order.
ghost use Rattle.std.specs.Prelude.{◌≡◌};
ghost use Rattle.spelling.specs.Text.{put_all};
ghost use Rattle.lines.specs.Lines.{audio_text, encoder_text, metadata_text, number_text, rate_text, stereo_text, video_text};

use metadata::StreamMetadata;
use numbers::{bits_of_f32, single_of};
use spelling::{put_field, put_flag, put_name, put_single, put_word};
use text::Name;

#[tactic(auto, unfolding(spelling::specs::Text::put_all))]
fn put_number(out: &mut [u8], at: usize, name: &[u8], number: Option<u32>) -> usize
    ensures { (result, out.new) ≡ put_all (number_text name.now number) (at, out.old) }
{
    match number {
        Some(n) => put_field(out, at, name, u64::from(n)),
        None => at,
    }
}

// The single's eight digits; a NaN is 7fc00000.
#[tactic(auto, using(spelling::proofs::TextLaws::put_more), unfolding(spelling::specs::Text::put_all))]
fn put_rate(out: &mut [u8], at: usize, rate: Option<f32>) -> usize
    ensures { (result, out.new) ≡ put_all (rate_text rate) (at, out.old) }
{
    match rate {
        Some(x) => {
            let to = put_word(out, at, b" framerate=");
            put_single(out, to, single_of(bits_of_f32(x)))
        }
        None => at,
    }
}

#[tactic(auto, using(spelling::proofs::TextLaws::put_more), unfolding(spelling::specs::Text::put_all))]
fn put_stereo(out: &mut [u8], at: usize, stereo: Option<bool>) -> usize
    ensures { (result, out.new) ≡ put_all (stereo_text stereo) (at, out.old) }
{
    match stereo {
        Some(flag) => {
            let to = put_word(out, at, b" stereo=");
            put_flag(out, to, flag)
        }
        None => at,
    }
}

#[tactic(auto, unfolding(spelling::specs::Text::put_all))]
fn put_encoder(out: &mut [u8], at: usize, encoder: Option<Name>) -> usize
    ensures { (result, out.new) ≡ put_all (encoder_text encoder) (at, out.old) }
{
    match encoder {
        Some(name) => put_name(out, at, b" encoder=", name),
        None => at,
    }
}

#[tactic(auto, using(spelling::proofs::TextLaws::put_more), unfolding(crate::specs::Lines::video_text))]
fn put_video(out: &mut [u8], at: usize, m: StreamMetadata) -> usize
    ensures { (result, out.new) ≡ put_all (video_text m) (at, out.old) }
{
    let a = put_number(out, at, b" width=", m.video_width);
    let b = put_number(out, a, b" height=", m.video_height);
    let c = put_number(out, b, b" videocodecid=", m.video_codec_id);
    let d = put_number(out, c, b" videodatarate=", m.video_bitrate_kbps);
    put_rate(out, d, m.video_frame_rate)
}

// Alike to `put_video` in shape alone: no field is in both.
#[tactic(auto, using(spelling::proofs::TextLaws::put_more), unfolding(crate::specs::Lines::audio_text))]
fn put_audio(out: &mut [u8], at: usize, m: StreamMetadata) -> usize
    ensures { (result, out.new) ≡ put_all (audio_text m) (at, out.old) }
{
    let a = put_number(out, at, b" audiocodecid=", m.audio_codec_id);
    let b = put_number(out, a, b" audiodatarate=", m.audio_bitrate_kbps);
    let c = put_number(out, b, b" audiosamplerate=", m.audio_sample_rate);
    let d = put_number(out, c, b" audiochannels=", m.audio_channels);
    put_stereo(out, d, m.audio_is_stereo)
}

#[tactic(auto, using(spelling::proofs::TextLaws::put_more), unfolding(crate::specs::Lines::metadata_text))]
pub fn put_metadata(out: &mut [u8], at: usize, m: StreamMetadata) -> usize
    ensures { (result, out.new) ≡ put_all (metadata_text m) (at, out.old) }
{
    let to = put_video(out, at, m);
    let then = put_audio(out, to, m);
    put_encoder(out, then, m.encoder)
}
