// What a connect wants.
ghost use Rattle.std.specs.Prelude.{◌≡◌};
ghost use Rattle.wishes.specs.Connect.{connect_property, connect_to, connect_wish, without_slash};

use crate::outcome::Refusal;
use crate::values::{bits_in, is_object, text_in, value_of};
use crate::wish::Wish;
use amf0::{Plain, place_of, plain_property};
use text::read_name;

// One slash alone: "live//" gives "live/".
#[tactic(auto, using(text::proofs::WordsLaws::same_pointwise), unfolding(crate::specs::Connect::without_slash))]
fn without_slash(app: &[u8]) -> &[u8]
    ensures { result.now ≡ without_slash app.now }
{
    app.strip_suffix(b"/").unwrap_or(app)
}

// The last property of the third value.
fn connect_property(body: &[u8], word: &[u8]) -> Option<Plain>
    ensures { result ≡ connect_property body.now word.now }
{
    plain_property(body, place_of(body, 2), word)
}

// The bits of `objectEncoding` are kept as they are.
fn connect_to(body: &[u8], transaction: u64, app: &[u8]) -> Wish
    ensures { result ≡ connect_to body.now transaction app.now }
{
    Wish::Connect {
        transaction,
        encoding: bits_in(connect_property(body, b"objectEncoding")).unwrap_or(0),
        app: read_name(without_slash(app)),
    }
}

pub fn connect_wish(body: &[u8], transaction: u64) -> Result<Wish, Refusal>
    ensures { result ≡ connect_wish body.now transaction }
{
    if !is_object(value_of(body, 2)) {
        return Err(Refusal::NoApp);
    }
    let app = text_in(body, connect_property(body, b"app")).ok_or(Refusal::NoApp)?;
    Ok(connect_to(body, transaction, app))
}
