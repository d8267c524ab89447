// What became of a call. Document 01's number of each case is `number_of`, in specs/Outcome.antt.
ghost use Rattle.std.specs.Prelude.{◌≡◌};
ghost use Rattle.wishes.specs.Outcome.{number_of, refusal_of};

use amf0::BodyError;
use text::StreamId;

// What refusal 11 names.
#[derive(Clone, Copy, Debug, PartialEq, Eq)]
pub enum Action {
    Publish,
    Play,
    Complete,
}

#[derive(Clone, Copy, Debug, PartialEq, Eq)]
pub enum Refusal {
    BodyTooLong,
    NotAmf0,
    TooDeep,
    NoCommand,
    NoApp,
    NameTooLong,
    RequestsFull,
    NumbersUsedUp,
    StreamsFull,
    NoSuchRequest,
    WrongStream { action: Action, stream: StreamId },
    NoRoom,
    TextTooLong,
    BadConfig,
    BadSession,
}

// Done, or why not.
pub type Outcome = Result<(), Refusal>;

impl From<BodyError> for Refusal {
    ghost from_gives = { λ b r. r ≡ refusal_of b };

    fn from(b: BodyError) -> Refusal {
        match b {
            BodyError::NotAmf0 => Refusal::NotAmf0,
            BodyError::TooDeep => Refusal::TooDeep,
        }
    }
}

// Document 01's number.
pub fn number_of(outcome: Outcome) -> u32
    ensures { result ≡ number_of outcome }
{
    match outcome {
        Ok(()) => 0,
        Err(Refusal::BodyTooLong) => 1,
        Err(Refusal::NotAmf0) => 2,
        Err(Refusal::TooDeep) => 3,
        Err(Refusal::NoCommand) => 4,
        Err(Refusal::NoApp) => 5,
        Err(Refusal::NameTooLong) => 6,
        Err(Refusal::RequestsFull) => 7,
        Err(Refusal::NumbersUsedUp) => 8,
        Err(Refusal::StreamsFull) => 9,
        Err(Refusal::NoSuchRequest) => 10,
        Err(Refusal::WrongStream { .. }) => 11,
        Err(Refusal::NoRoom) => 12,
        Err(Refusal::TextTooLong) => 13,
        Err(Refusal::BadConfig) => 14,
        Err(Refusal::BadSession) => 15,
    }
}
