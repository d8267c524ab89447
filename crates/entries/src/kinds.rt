// "each is one byte of kind, then its fields"
ghost use Rattle.std.specs.Prelude.{◌≡◌};
ghost use Rattle.entries.specs.Entries.{kind_of};

#[derive(Clone, Copy, Debug, PartialEq, Eq)]
pub enum Kind {
    Start,
    Message,
    Accept,
    Reject,
    Finish,
    Metadata,
    Media,
    Ping,
    State,
    Damage,
}

// The trace's numbers, told apart here alone.
#[tactic(auto, unfolding(crate::specs::Entries::kind_of))]
pub fn kind_of(byte: u8) -> Option<Kind>
    ensures { result ≡ kind_of byte }
{
    match byte {
        1 => Some(Kind::Start),
        2 => Some(Kind::Message),
        3 => Some(Kind::Accept),
        4 => Some(Kind::Reject),
        5 => Some(Kind::Finish),
        6 => Some(Kind::Metadata),
        7 => Some(Kind::Media),
        8 => Some(Kind::Ping),
        9 => Some(Kind::State),
        10 => Some(Kind::Damage),
        _ => None,
    }
}
