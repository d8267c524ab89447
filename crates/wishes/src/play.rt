// What a play wants.
ghost use Rattle.std.specs.Prelude.{◌≡◌};
ghost use Rattle.wishes.specs.Play.{duration_in, play_of, play_wish, start_in};

use crate::values::{bits_in, text_in, truth_in, value_of};
use crate::wish::{PlayArguments, PlayFault, Wish};
use amf0::Plain;
use numbers::{PlayStartValue, duration_of, start_of};
use text::read_name;

fn start_in(value: Option<Plain>) -> PlayStartValue
    ensures { result ≡ start_in value }
{
    match bits_in(value) {
        Some(bits) => start_of(bits),
        None => PlayStartValue::LiveOrRecorded,
    }
}

fn duration_in(value: Option<Plain>) -> Option<u32>
    ensures { result ≡ duration_in value }
{
    duration_of(bits_in(value)?)
}

// The first test that fails decides, and the key of a play that fails one is not looked at.
fn play_of(body: &[u8], key: Option<Plain>) -> Result<PlayArguments, PlayFault>
    ensures { result ≡ play_of body.now key }
{
    if key.is_none() {
        return Err(PlayFault::TooFew);
    }
    let key = text_in(body, key).ok_or(PlayFault::KeyNoString)?;
    Ok(PlayArguments {
        start: start_in(value_of(body, 4)),
        duration: duration_in(value_of(body, 5)),
        reset: truth_in(value_of(body, 6)).unwrap_or(false),
        key: read_name(key),
    })
}

pub fn play_wish(body: &[u8], transaction: u64) -> Wish
    ensures { result ≡ play_wish body.now transaction }
{
    Wish::Play {
        transaction,
        arguments: play_of(body, value_of(body, 3)),
    }
}
