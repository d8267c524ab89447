// Outbound records: inner writers of the header, of control records, and of commands with status objects.
//
// Every record is a definition of specs/Records.antt. The writers ask their callers for room; the crate answers
// tests it once for all records of an answer.
#![tactic(auto)]

mod clock;
mod control;
mod header;
mod status;

pub use clock::time_of;
pub use control::{
    write_bandwidth, write_body, write_data_started, write_event, write_sample_access, write_size,
};
pub use header::write_header;
pub use status::{write_connected, write_number_answer, write_status};
