// The names of events and of the actions that refusal 11 tells, as a host shows them.
ghost use Rattle.std.specs.Prelude.{◌≡◌};
ghost use Rattle.session.specs.Names.{action_text, event_text, word_of};

use crate::decision::Event;
use text::{Name, empty_name, read_name};
use wishes::Action;

fn word(part: &[u8]) -> Name
    ensures { result ≡ word_of part.now }
{
    read_name(part).unwrap_or(empty_name())
}

fn event_text(event: Option<Event>) -> &'static [u8]
    ensures { result.now ≡ event_text event }
{
    match event {
        None => b"",
        Some(Event::ConnectionRequested(_)) => b"ConnectionRequested",
        Some(Event::PublishStreamRequested { .. }) => b"PublishStreamRequested",
        Some(Event::PlayStreamRequested { .. }) => b"PlayStreamRequested",
        Some(Event::PublishStreamFinished) => b"PublishStreamFinished",
        Some(Event::PlayStreamFinished) => b"PlayStreamFinished",
        Some(Event::StreamMetadataChanged) => b"StreamMetadataChanged",
        Some(Event::AudioDataReceived { .. }) => b"AudioDataReceived",
        Some(Event::VideoDataReceived { .. }) => b"VideoDataReceived",
        Some(Event::PingResponseReceived { .. }) => b"PingResponseReceived",
    }
}

fn action_text(action: Action) -> &'static [u8]
    ensures { result.now ≡ action_text action }
{
    match action {
        Action::Publish => b"publish",
        Action::Play => b"play",
        Action::Complete => b"complete",
    }
}

// No event has the empty name.
pub fn event_name(event: Option<Event>) -> Name
    ensures { result ≡ word_of (event_text event) }
{
    word(event_text(event))
}

pub fn action_name(action: Action) -> Name
    ensures { result ≡ word_of (action_text action) }
{
    word(action_text(action))
}
