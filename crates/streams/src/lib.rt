// The second room, steps that go by a stream: createStream, closeStream, deleteStream, metadata, audio and video.
#![tactic(auto)]

mod streams;

pub use streams::{
    Frame, change_metadata, close_stream, create_stream, delete_stream, frame_of, show_frame,
};
