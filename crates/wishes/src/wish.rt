// What a message wants.
ghost use Rattle.std.specs.Prelude.{◌≡◌};
ghost use Rattle.wishes.specs.Wish.{whole_body};

use crate::outcome::Refusal;
use amf0::check_body;
use metadata::{LongEncoder, StreamMetadata};
use numbers::PlayStartValue;
use text::{Name, PublishMode, StreamId};

// The longest body of a command, a data message or a user control.
pub const LONGEST_BODY: usize = 4096;

// A name that is None is over 128 bytes, here as in the wishes.
#[derive(Clone, Copy)]
pub struct PublishArguments {
    pub mode: PublishMode,
    pub key: Option<Name>,
}

// The first test that an argument of a publish fails.
#[derive(Clone, Copy, Debug, PartialEq, Eq)]
pub enum PublishFault {
    TooFew,
    KeyNoString,
    ModeNoString,
    ModeUnknown,
}

#[derive(Clone, Copy)]
pub struct PlayArguments {
    pub start: PlayStartValue,
    pub duration: Option<u32>,
    pub reset: bool,
    pub key: Option<Name>,
}

#[derive(Clone, Copy, Debug, PartialEq, Eq)]
pub enum PlayFault {
    TooFew,
    KeyNoString,
}

#[derive(Clone, Copy)]
pub enum Wish {
    // A message may ask for nothing: in an `Option` every other case would be wrapped once more.
    Nothing,
    Connect {
        transaction: u64,
        encoding: u64,
        app: Option<Name>,
    },
    CreateStream {
        transaction: u64,
    },
    CloseStream(StreamId),
    DeleteStream(StreamId),
    Publish {
        transaction: u64,
        arguments: Result<PublishArguments, PublishFault>,
    },
    Play {
        transaction: u64,
        arguments: Result<PlayArguments, PlayFault>,
    },
    Metadata(Result<StreamMetadata, LongEncoder>),
    PingRequest(u32),
    PingResponse(u32),
}

// 1, then 2 or 3.
#[tactic(auto, unfolding(crate::specs::Wish::whole_body))]
pub fn check_whole(body: &[u8]) -> Result<(), Refusal>
    ensures { result ≡ whole_body body.now }
{
    if LONGEST_BODY < body.len() {
        return Err(Refusal::BodyTooLong);
    }
    check_body(body)?;
    Ok(())
}
