// A value as a step uses it. A number is its bits, since they may be echoed and the language leaves a NaN's open.
ghost use Rattle.std.specs.Prelude.{◌≡◌};
ghost use Rattle.amf0.specs.Plain.{plain, plain_at, property_at};

use crate::property::last_property;
use crate::value::{Amf0Value, read_value};
use numbers::u64_at;

#[derive(Clone, Copy, Debug, PartialEq, Eq)]
pub enum Plain {
    Bits(u64),
    Boolean(bool),
    Text { start: usize, len: usize },
    Object,
    Other,
}

fn plain_of(value: Amf0Value, bits: u64) -> Plain
    ensures { result ≡ plain value bits }
{
    match value {
        Amf0Value::Number(_) => Plain::Bits(bits),
        Amf0Value::Boolean(b) => Plain::Boolean(b),
        Amf0Value::Text { start, len } => Plain::Text { start, len },
        Amf0Value::Object { .. } => Plain::Object,
        _ => Plain::Other,
    }
}

#[tactic(auto, using(crate::proofs::SkippingLaws::read_inside), unfolding(crate::specs::Plain::plain_at))]
pub fn plain_at(body: &[u8], at: usize) -> Option<Plain>
    ensures { result ≡ plain_at body.now at }
{
    let read = read_value(body, at)?;
    Some(plain_of(read.value, u64_at(body, at + 1)))
}

// The last property of a name in the value at `at`.
#[tactic(auto, unfolding(crate::specs::Plain::property_at))]
pub fn plain_property(body: &[u8], at: usize, word: &[u8]) -> Option<Plain>
    ensures { result ≡ property_at body.now at word.now }
{
    plain_at(body, last_property(body, at, word)?)
}
