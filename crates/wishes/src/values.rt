// The values of a body by their number, and what each says.
ghost use Rattle.std.specs.Prelude.{◌≡◌, MatchOption, None, Some};
ghost use Rattle.wishes.specs.Values.{bits_in, is_object, says, text_in, truth_in, value_of};

use amf0::{Plain, place_of, plain_at};
use text::{is_word, part_of};

// The k-th value, counted from 0. Null and its like are values too.
#[tactic(auto, unfolding(crate::specs::Values::value_of))]
pub fn value_of(body: &[u8], k: usize) -> Option<Plain>
    ensures { result ≡ value_of body.now k }
{
    plain_at(body, place_of(body, k))
}

pub fn is_object(value: Option<Plain>) -> bool
    ensures { result ≡ is_object value }
{
    matches!(value, Some(Plain::Object))
}

// A number's bits.
pub fn bits_in(value: Option<Plain>) -> Option<u64>
    ensures { result ≡ bits_in value }
{
    match value {
        Some(Plain::Bits(bits)) => Some(bits),
        _ => None,
    }
}

pub fn truth_in(value: Option<Plain>) -> Option<bool>
    ensures { result ≡ truth_in value }
{
    match value {
        Some(Plain::Boolean(b)) => Some(b),
        _ => None,
    }
}

// A string's bytes.
pub fn text_in(body: &[u8], value: Option<Plain>) -> Option<&[u8]>
    ensures { MatchOption result (text_in body.now value ≡ None) (λ t. text_in body.now value ≡ Some t.now) }
{
    match value {
        Some(Plain::Text { start, len }) => Some(part_of(body, start, len)),
        _ => None,
    }
}

// A string, and this word.
pub fn says(body: &[u8], value: Option<Plain>, word: &[u8]) -> bool
    ensures { result ≡ says body.now value word.now }
{
    match text_in(body, value) {
        Some(t) => is_word(t, word),
        None => false,
    }
}
