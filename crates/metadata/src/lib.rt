// The eleven properties that a stream may advertise: read from an object of a body, and written as one record.
#![tactic(auto)]

mod metadata;
mod reading;
mod writing;

pub use metadata::{StreamMetadata, no_metadata};
pub use reading::{LongEncoder, read_metadata};
pub use writing::metadata_record;
