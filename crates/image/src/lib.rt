// A session as a host holds it: four arrays of numbers and bytes, in memory of its own.
//
// A host has no enums, so each case has a number. Whatever stands in the arrays is some session, or is found not to be
// one: nothing that a host writes into them is trusted.
#![tactic(auto)]

mod cases;
mod reading;
mod rows;
mod shape;
mod sound;

pub use cases::{flag_number, mode_number};
pub use reading::{find_request_row, find_row, rows_in_use};
pub use rows::{Row, place, short_number};
pub use shape::{Image, types_say};
pub use sound::image_sound;
