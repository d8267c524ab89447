// The properties by value.
ghost use Rattle.std.specs.Prelude.{◌≡◌};
ghost use Rattle.metadata.specs.Metadata.{no_metadata};

use text::Name;

#[derive(Clone, Copy)]
pub struct StreamMetadata {
    pub video_width: Option<u32>,
    pub video_height: Option<u32>,
    pub video_codec_id: Option<u32>,
    pub video_bitrate_kbps: Option<u32>,
    pub video_frame_rate: Option<f32>,
    pub audio_codec_id: Option<u32>,
    pub audio_bitrate_kbps: Option<u32>,
    pub audio_sample_rate: Option<u32>,
    pub audio_channels: Option<u32>,
    pub audio_is_stereo: Option<bool>,
    pub encoder: Option<Name>,
}

pub fn no_metadata() -> StreamMetadata
    ensures { result ≡ no_metadata }
{
    StreamMetadata {
        video_width: None,
        video_height: None,
        video_codec_id: None,
        video_bitrate_kbps: None,
        video_frame_rate: None,
        audio_codec_id: None,
        audio_bitrate_kbps: None,
        audio_sample_rate: None,
        audio_channels: None,
        audio_is_stereo: None,
        encoder: None,
    }
}
