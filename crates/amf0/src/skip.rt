// Where a value ends: containers are gone through, at most `left` deep.
#![tactic(auto, using(crate::proofs::SkippingLaws::skips), unfolding(crate::specs::Skipping::values_f))]

ghost use Rattle.std.specs.Prelude.{◌≡◌};
ghost use Rattle.amf0.specs.Skipping.{pairs, skip_v, values_f};

use crate::error::BodyError;
use crate::value::{Extent, NameAt, extent_at, past, read_name};
use numbers::u32_at;

// How deep containers may nest: one inside eight others is refused.
pub const NESTED: usize = 8;

// The place behind the pairs from `at` on, with their end mark.
#[cycle(skip)]
fn skip_pairs(body: &[u8], at: usize, left: usize) -> Result<usize, BodyError>
    ensures { result ≡ pairs (skip_v body.now left) body.now at }
{
    let mut i = at;
    // Each pair says where the next one begins.
    loop {
        match read_name(body, i)? {
            NameAt::End(n) => return Ok(n),
            NameAt::Value(v) => i = skip_value(body, v, left)?,
        }
    }
}

// Behind `count` values from `at` on. Each takes a byte at least, so a count past the body's end costs no more than the body.
#[cycle(skip)]
pub fn skip_values(body: &[u8], at: usize, count: usize, left: usize) -> Result<usize, BodyError>
    ensures { result ≡ values_f (skip_v body.now left) count at }
{
    let mut i = at;
    for _ in 0..count {
        i = skip_value(body, i, left)?;
    }
    Ok(i)
}

// Behind the value at `at`, in which containers may nest `left` deep. A container that may not is too deep, cut or not.
#[tactic(auto, using(crate::proofs::SkippingLaws::skips), unfolding(crate::specs::Skipping::skip_v))]
#[cycle(skip)]
pub fn skip_value(body: &[u8], at: usize, left: usize) -> Result<usize, BodyError>
    ensures { result ≡ skip_v body.now left at }
{
    match extent_at(body, at)? {
        Extent::Ends(n) => Ok(n),
        _ if left == 0 => Err(BodyError::TooDeep),
        Extent::Pairs(p) => skip_pairs(body, p, left - 1),
        Extent::CountedPairs(p) => {
            let q = past(body, p, 4).ok_or(BodyError::NotAmf0)?;
            skip_pairs(body, q, left - 1)
        }
        Extent::Values(p) => {
            let q = past(body, p, 4).ok_or(BodyError::NotAmf0)?;
            skip_values(body, q, u32_at(body, p) as usize, left - 1)
        }
    }
}
