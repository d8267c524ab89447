// A whole body: checked from end to end, and its values by their number.
ghost use Rattle.std.specs.Prelude.{◌≡◌};
ghost use Rattle.amf0.specs.Bodies.{checked, place_of};

use crate::error::BodyError;
use crate::skip::{NESTED, skip_value, skip_values};

#[tactic(auto, using(crate::proofs::BodiesLaws::checks), unfolding(crate::specs::Bodies::checked))]
pub fn check_body(body: &[u8]) -> Result<(), BodyError>
    ensures { result ≡ checked body.now }
{
    // Each value says where the next one begins, so nothing counts the places.
    let mut at = 0;
    while at < body.len() {
        at = skip_value(body, at, NESTED)?;
    }
    Ok(())
}

// Where the n-th value of a body begins, counted from 0; the body's end where there are not so many.
#[tactic(auto, unfolding(crate::specs::Bodies::place_of))]
pub fn place_of(body: &[u8], n: usize) -> usize
    ensures { result ≡ place_of body.now n }
{
    skip_values(body, 0, n, NESTED).unwrap_or(body.len())
}
