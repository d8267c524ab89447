// The last property of a name in an object.
ghost use Rattle.std.specs.Prelude.{◌≡◌, None};
ghost use Rattle.amf0.specs.Properties.{last, last_property, pair_at};
ghost use Rattle.amf0.specs.Skipping.{skip_v};

use crate::skip::{NESTED, skip_value};
use crate::value::{Extent, NameAt, extent_at, read_name};
use text::is_word;

// The pair that begins at i: where its value stands, and the place behind it.
#[tactic(auto, unfolding(crate::specs::Properties::pair_at))]
fn pair_at(body: &[u8], i: usize) -> Option<(usize, usize)>
    ensures { result ≡ pair_at (skip_v body.now 8) body.now i }
{
    match read_name(body, i).ok()? {
        NameAt::Value(v) => Some((v, skip_value(body, v, NESTED).ok()?)),
        NameAt::End(_) => None,
    }
}

// Among the pairs from `at` on: where the value of the last one of that name stands.
#[tactic(auto, using(crate::proofs::PropertyLaws::lasts))]
fn last_pair(body: &[u8], word: &[u8], at: usize) -> Option<usize>
    ensures { result ≡ last body.now word.now at None }
{
    let mut i = at;
    let mut best = None;
    // Each pair says where the next one begins.
    while let Some((v, next)) = pair_at(body, i) {
        if is_word(&body[i + 2..v], word) {
            best = Some(v);
        }
        i = next;
    }
    best
}

// In the value at `at`, if that has properties: only an object has.
#[tactic(auto, unfolding(crate::specs::Properties::last_property))]
pub fn last_property(body: &[u8], at: usize, word: &[u8]) -> Option<usize>
    ensures { result ≡ last_property body.now at word.now }
{
    match extent_at(body, at) {
        Ok(Extent::Pairs(p)) => last_pair(body, word, p),
        _ => None,
    }
}
