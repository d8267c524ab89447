// An entry stands at the front of the bytes. Whatever they are, each question has an answer.
ghost use Rattle.std.specs.Prelude.{◌≡◌};
ghost use Rattle.entries.specs.Entries.{begins_trace, entry_length, fields_good, good_entry, good_media, good_metadata, kind_in, length_of, reject_length, room_at, room_of};

use crate::kinds::{Kind, kind_of};
use numbers::{byte_at, u16_at, u32_at};

fn kind_in(e: &[u8]) -> Option<Kind>
    ensures { result ≡ kind_in e.now }
{
    kind_of(byte_at(e, 0))
}

// A reject has two texts, each behind its length.
#[tactic(auto, unfolding(crate::specs::Entries::reject_length))]
fn reject_length(e: &[u8]) -> usize
    ensures { result ≡ reject_length e.now }
{
    let n = u16_at(e, 17) as usize;
    21 + n + u16_at(e, 19 + n) as usize
}

fn length_of(kind: Kind, e: &[u8]) -> usize
    ensures { result ≡ length_of kind e.now }
{
    match kind {
        Kind::Start => 28 + u16_at(e, 26) as usize,
        Kind::Message => 26 + u32_at(e, 22) as usize,
        Kind::Accept | Kind::Finish => 17,
        Kind::Reject => reject_length(e),
        Kind::Metadata => 58 + u16_at(e, 56) as usize,
        Kind::Media => 19 + u32_at(e, 15) as usize,
        Kind::Ping => 13,
        Kind::State => 1,
        Kind::Damage => 7,
    }
}

// How long an entry of this kind is; 0 of no kind.
#[tactic(auto, unfolding(crate::specs::Entries::entry_length))]
pub fn entry_length(e: &[u8]) -> usize
    ensures { result ≡ entry_length e.now }
{
    kind_in(e).map_or(0, |kind| length_of(kind, e))
}

// "room is the length of the out buffer that is lent to the call"
fn room_at(kind: Kind, e: &[u8]) -> u32
    ensures { result ≡ room_at kind e.now }
{
    match kind {
        Kind::Start => u32_at(e, 22),
        Kind::Message => u32_at(e, 18),
        Kind::Accept | Kind::Reject | Kind::Finish | Kind::Metadata => u32_at(e, 13),
        Kind::Media => u32_at(e, 11),
        Kind::Ping => u32_at(e, 9),
        Kind::State | Kind::Damage => 0,
    }
}

#[tactic(auto, unfolding(crate::specs::Entries::room_of))]
pub fn room_of(e: &[u8]) -> u32
    ensures { result ≡ room_of e.now }
{
    kind_in(e).map_or(0, |kind| room_at(kind, e))
}

// "a bit of `set` above bit 10"
#[tactic(auto, unfolding(crate::specs::Entries::good_metadata))]
fn good_metadata(e: &[u8]) -> bool
    ensures { result ≡ good_metadata e.now }
{
    u16_at(e, 17) <= 2047 && byte_at(e, 55) <= 1
}

// "a media type other than 8 and 9"
#[tactic(auto, unfolding(crate::specs::Entries::good_media))]
fn good_media(e: &[u8]) -> bool
    ensures { result ≡ good_media e.now }
{
    let kind = byte_at(e, 1);
    8 <= kind && kind <= 9 && byte_at(e, 10) <= 1 && u32_at(e, 15) <= 65536
}

fn fields_good(kind: Kind, e: &[u8]) -> bool
    ensures { result ≡ fields_good kind e.now }
{
    match kind {
        Kind::Start => byte_at(e, 13) <= 1,
        Kind::Message => u32_at(e, 22) <= 65536,
        Kind::Metadata => good_metadata(e),
        Kind::Media => good_media(e),
        Kind::Damage => byte_at(e, 1) <= 9,
        Kind::Accept | Kind::Reject | Kind::Finish | Kind::Ping | Kind::State => true,
    }
}

// Whether an entry stands at the front, whole and with fields that may be.
#[tactic(auto, unfolding(crate::specs::Entries::good_entry))]
pub fn good_entry(e: &[u8]) -> bool
    ensures { result ≡ good_entry e.now }
{
    entry_length(e) <= e.len()
        && room_of(e) <= 66560
        && kind_in(e).is_some_and(|kind| fields_good(kind, e))
}

// "The first entry is a start"
pub fn begins_trace(e: &[u8]) -> bool
    ensures { result ≡ begins_trace e.now }
{
    byte_at(e, 0) == 1
}
