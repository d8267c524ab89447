// What a double says as the start and as the duration of a play.
ghost use Rattle.std.specs.Prelude.{◌≡◌};
ghost use Rattle.numbers.specs.Play.{duration_of, start_of};

use crate::single::f64_of;
use crate::whole::u32_of;

// The Rust's name and cases.
#[derive(Clone, Copy, Debug, PartialEq, Eq)]
pub enum PlayStartValue {
    LiveOrRecorded,
    LiveOnly,
    StartTimeInSeconds(u32),
}

// A NaN is equal to nothing and at least nothing, and minus zero is at least zero.
pub fn start_of(bits: u64) -> PlayStartValue
    ensures { result ≡ start_of bits }
{
    let x = f64_of(bits);
    if x == -2.0 {
        return PlayStartValue::LiveOrRecorded;
    }
    if x == -1.0 {
        return PlayStartValue::LiveOnly;
    }
    if 0.0 <= x {
        return PlayStartValue::StartTimeInSeconds(u32_of(bits));
    }
    PlayStartValue::LiveOrRecorded
}

// None is a play without an end.
pub fn duration_of(bits: u64) -> Option<u32>
    ensures { result ≡ duration_of bits }
{
    let x = f64_of(bits);
    if 0.0 <= x {
        return Some(u32_of(bits));
    }
    None
}
