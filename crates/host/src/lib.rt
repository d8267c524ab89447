// The session for a C or a Rust host: the calls over arrays that the host lends, each under one name.
//
// A session is four arrays (crate image), an answer three (crate parts). Every call hands back document 01's number.
// Nothing that stands in the arrays is trusted: a session that a host damaged is refusal 15.
#![tactic(auto)]

mod calls_out;
mod frames;
mod sends_out;

pub use calls_out::{
    chungvator_accept_request, chungvator_finish_playing, chungvator_handle_message,
    chungvator_reject_request, chungvator_start,
};
pub use frames::chungvator_handle_media;
pub use sends_out::{
    chungvator_send_audio_data, chungvator_send_metadata, chungvator_send_ping_request,
    chungvator_send_video_data,
};
