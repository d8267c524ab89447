// What a publish wants.
ghost use Rattle.std.specs.Prelude.{◌≡◌};
ghost use Rattle.wishes.specs.Publish.{publish_of, publish_wish};

use crate::values::{text_in, value_of};
use crate::wish::{PublishArguments, PublishFault, Wish};
use amf0::Plain;
use text::{mode_of, read_name};

// The first test that fails decides, and the key of a publish that fails one is not looked at.
fn publish_of(
    body: &[u8],
    key: Option<Plain>,
    mode: Option<Plain>,
) -> Result<PublishArguments, PublishFault>
    ensures { result ≡ publish_of body.now key mode }
{
    if mode.is_none() {
        return Err(PublishFault::TooFew);
    }
    let key = text_in(body, key).ok_or(PublishFault::KeyNoString)?;
    let word = text_in(body, mode).ok_or(PublishFault::ModeNoString)?;
    let mode = mode_of(word).ok_or(PublishFault::ModeUnknown)?;
    Ok(PublishArguments {
        mode,
        key: read_name(key),
    })
}

pub fn publish_wish(body: &[u8], transaction: u64) -> Wish
    ensures { result ≡ publish_wish body.now transaction }
{
    Wish::Publish {
        transaction,
        arguments: publish_of(body, value_of(body, 3), value_of(body, 4)),
    }
}
