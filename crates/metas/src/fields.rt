// The set fields, each with a blank behind it.
use crate::show::{bytes, number, say};
use metadata::StreamMetadata;
use std::io;
use std::io::Write;
use text::Name;

fn whole(output: &mut impl Write, name: &[u8], set: Option<u32>) -> io::Result<()> {
    if let Some(x) = set {
        say(output, name)?;
        number(output, x as u64)?;
        say(output, b" ")?;
    }
    Ok(())
}

// The single's own digits.
fn rate(output: &mut impl Write, set: Option<f32>) -> io::Result<()> {
    if let Some(x) = set {
        let single = numbers::single_of(numbers::bits_of_f32(x));
        say(output, b"framerate=")?;
        bytes(output, &single.to_be_bytes(), 4)?;
        say(output, b" ")?;
    }
    Ok(())
}

fn flag(output: &mut impl Write, set: Option<bool>) -> io::Result<()> {
    if let Some(b) = set {
        say(output, if b { b"stereo=1 " } else { b"stereo=0 " })?;
    }
    Ok(())
}

fn encoder(output: &mut impl Write, set: Option<Name>) -> io::Result<()> {
    if let Some(name) = set {
        say(output, b"encoder=")?;
        if name.len == 0 {
            say(output, b"-")?;
        }
        bytes(output, &name.bytes, name.len)?;
        say(output, b" ")?;
    }
    Ok(())
}

fn some_set(m: StreamMetadata) -> bool {
    m.video_width.is_some()
        || m.video_height.is_some()
        || m.video_codec_id.is_some()
        || m.video_bitrate_kbps.is_some()
        || m.video_frame_rate.is_some()
        || m.audio_codec_id.is_some()
        || m.audio_bitrate_kbps.is_some()
        || m.audio_sample_rate.is_some()
        || m.audio_channels.is_some()
        || m.audio_is_stereo.is_some()
        || m.encoder.is_some()
}

pub fn write_fields(output: &mut impl Write, m: StreamMetadata) -> io::Result<()> {
    if some_set(m) {
        whole(output, b"width=", m.video_width)?;
        whole(output, b"height=", m.video_height)?;
        whole(output, b"videocodecid=", m.video_codec_id)?;
        whole(output, b"videodatarate=", m.video_bitrate_kbps)?;
        rate(output, m.video_frame_rate)?;
        whole(output, b"audiocodecid=", m.audio_codec_id)?;
        whole(output, b"audiodatarate=", m.audio_bitrate_kbps)?;
        whole(output, b"audiosamplerate=", m.audio_sample_rate)?;
        whole(output, b"audiochannels=", m.audio_channels)?;
        flag(output, m.audio_is_stereo)?;
        encoder(output, m.encoder)
    } else {
        say(output, b"empty ")
    }
}
