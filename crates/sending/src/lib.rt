// The sends of a session: metadata, audio, video and a ping request. Each takes a session by value and leaves it as it
// is: the door, and then the one record.
#![tactic(auto)]

mod sends;

pub use sends::{
    PingSent, send_audio_data, send_metadata, send_ping_request, send_video_data, write_media,
    write_metadata, write_ping,
};
