// The records of each answer, written into the lent out buffer.
//
// One public function an answer: it knows the whole length before the first byte is written, and writes all of its
// records or nothing. It gives the count of bytes, or None where the buffer is too short. What it writes is a
// definition of the crate record, specs/Records.antt.
#![tactic(auto)]

mod answers;

pub use answers::{
    connect_accepted, error_record, media_record, ping_request, ping_response, play_accepted,
    play_finished, publish_accepted, start_records, stream_created,
};
