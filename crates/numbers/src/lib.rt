// Numbers as AMF0 and RTMP carry them: doubles, singles and whole numbers by their bits, and big-endian fields of bytes.
//
// A number that is echoed stays the same 64 bits, so every conversion takes and gives bits; an `f64` or
// an `f32` is made only where a value is compared or held. Every conversion and every reader has an answer for
// every input; the writers are inner ones, and ask their callers for room.
#![tactic(auto)]

mod fields;
mod play;
mod single;
mod whole;

pub use fields::{
    byte_at, u16_at, u24_at, u32_at, u64_at, write_bytes, write_bytes_at, write_field,
    write_field_at,
};
pub use play::{PlayStartValue, duration_of, start_of};
pub use single::{bits_of_f32, double_of_single, f32_of, f64_of, single_of};
pub use whole::{double_of_u32, u32_of};
