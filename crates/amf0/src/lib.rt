// AMF0: values read, skipped, looked up and written, by their places in a body.
//
// A body is checked whole once (`check_body`), and read from then on by places. Every reader has an answer for
// every body and every place; the writers are inner ones, and ask their callers for room.
#![tactic(auto)]

mod body;
mod cursor;
mod error;
mod plain;
mod property;
mod skip;
mod value;
mod write;

pub use body::{check_body, place_of};
pub use cursor::Cursor;
pub use error::BodyError;
pub use plain::{Plain, plain_at, plain_property};
pub use property::last_property;
pub use skip::{NESTED, skip_value};
pub use value::{Amf0Value, Read, read_value};
pub use write::{
    write_boolean, write_boolean_at, write_name, write_name_at, write_null, write_null_at,
    write_number, write_number_at, write_object_begin, write_object_begin_at, write_object_end,
    write_object_end_at, write_string, write_string_at,
};
