// What a session makes of a wish.
ghost use Rattle.std.specs.Prelude.{◌≡◌};
ghost use Rattle.steps.specs.Deciding.{decide_read, subject_read};

use crate::commands::{connect, play, publish};
use metadata::no_metadata;
use session::{Decision, Desk, Event, Reply, no_change, nothing_done, raised, refused, replied};
use streams::{change_metadata, close_stream, create_stream, delete_stream};
use text::{StreamId, empty_name};
use wishes::{Refusal, Wish};

// The stream in question: the argument's for a close or a delete, the message's else.
pub fn subject(read: Result<Wish, Refusal>, stream: StreamId) -> StreamId
    ensures { result ≡ subject_read read stream }
{
    match read {
        Ok(Wish::CloseStream(id) | Wish::DeleteStream(id)) => id,
        _ => stream,
    }
}

// What was read of a message that came on `stream`; the desk has the stream in question.
#[tactic(auto, unfolding(crate::specs::Deciding::decide))]
pub fn decide(desk: Desk, stream: StreamId, read: Result<Wish, Refusal>) -> Decision
    ensures { result ≡ decide_read desk stream read }
{
    match read {
        Ok(Wish::Nothing) => nothing_done(),
        Ok(
            Wish::Connect {
                transaction,
                encoding,
                app,
            },
        ) => connect(desk, transaction, encoding, app),
        Ok(Wish::CreateStream { transaction }) => create_stream(desk, transaction),
        Ok(Wish::CloseStream(_)) => close_stream(desk),
        Ok(Wish::DeleteStream(_)) => delete_stream(desk),
        Ok(
            Wish::Publish {
                transaction,
                arguments,
            },
        ) => publish(desk, stream, transaction, arguments),
        Ok(
            Wish::Play {
                transaction,
                arguments,
            },
        ) => play(desk, stream, transaction, arguments),
        Ok(Wish::Metadata(metadata)) => change_metadata(desk, metadata),
        Ok(Wish::PingRequest(x)) => replied(Reply::PingResponse(x), empty_name(), no_change()),
        Ok(Wish::PingResponse(x)) => raised(
            Some(Event::PingResponseReceived { timestamp: x }),
            empty_name(),
            empty_name(),
            no_metadata(),
            no_change(),
        ),
        Err(refusal) => refused(Err(refusal)),
    }
}
