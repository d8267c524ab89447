// What a data message wants.
ghost use Rattle.std.specs.Prelude.{◌≡◌};
ghost use Rattle.wishes.specs.DataFrame.{data_wish, sets_metadata, whole_data};

use crate::outcome::Refusal;
use crate::values::{says, value_of};
use crate::wish::{Wish, check_whole};
use amf0::place_of;
use metadata::read_metadata;

#[tactic(auto, unfolding(crate::specs::DataFrame::sets_metadata))]
fn sets_metadata(body: &[u8]) -> bool
    ensures { result ≡ sets_metadata body.now }
{
    says(body, value_of(body, 0), b"@setDataFrame")
        && says(body, value_of(body, 1), b"onMetaData")
        && value_of(body, 2).is_some()
}

// The metadata of the third value; one that is no object has no property.
#[tactic(auto, unfolding(crate::specs::DataFrame::whole_data))]
fn whole_data(body: &[u8]) -> Wish
    ensures { result ≡ whole_data body.now }
{
    if sets_metadata(body) {
        return Wish::Metadata(read_metadata(body, place_of(body, 2)));
    }
    Wish::Nothing
}

#[tactic(auto, unfolding(crate::specs::DataFrame::data_wish))]
pub fn data_wish(body: &[u8]) -> Result<Wish, Refusal>
    ensures { result ≡ data_wish body.now }
{
    check_whole(body)?;
    Ok(whole_data(body))
}
