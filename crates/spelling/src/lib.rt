// How a trace spells numbers, bytes, names and the cases of small enums.
#![tactic(auto)]

mod bytes;
mod words;

pub use bytes::{
    put, put_bits, put_decimal, put_field, put_hex, put_name, put_single, put_text, put_word,
};
pub use words::{put_action, put_duration, put_flag, put_mode, put_start};
