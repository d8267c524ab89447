// What a call hands back.
ghost use Rattle.std.specs.Prelude.{◌≡◌};
ghost use Rattle.replies.specs.Answers.{answer_with, closed, concluded, idle};

use metadata::{StreamMetadata, no_metadata};
use session::{Decision, Event, Session, apply};
use text::{Name, empty_name};
use wishes::{Outcome, Refusal};

// The event's names and metadata stand beside it, empty where it has none. `count` bytes were written.
#[derive(Clone, Copy)]
pub struct Answer {
    pub outcome: Outcome,
    pub event: Option<Event>,
    pub app: Name,
    pub key: Name,
    pub metadata: StreamMetadata,
    pub count: usize,
    pub session: Session,
}

// A refusal, with nothing written. Of no refusal it is `idle_answer`.
pub fn refuse(outcome: Outcome, session: Session) -> Answer
    ensures { result ≡ concluded outcome session }
{
    Answer {
        outcome,
        ..idle_answer(session, 0)
    }
}

// Done, with no event.
pub fn idle_answer(session: Session, count: usize) -> Answer
    ensures { result ≡ idle session count }
{
    Answer {
        outcome: Ok(()),
        event: None,
        app: empty_name(),
        key: empty_name(),
        metadata: no_metadata(),
        count,
        session,
    }
}

fn answer_with(next: Session, decision: Decision, count: usize) -> Answer
    ensures { result ≡ answer_with next decision count }
{
    Answer {
        outcome: decision.outcome,
        event: decision.event,
        app: decision.app,
        key: decision.key,
        metadata: decision.metadata,
        count,
        session: next,
    }
}

// The answer where the records fit; else 12, with the session that was handed in.
pub fn close(session: Session, decision: Decision, sent: Option<usize>) -> Answer
    ensures { result ≡ closed session decision sent }
{
    let next = apply(session, decision.change);
    match sent {
        Some(count) => answer_with(next, decision, count),
        None => refuse(Err(Refusal::NoRoom), session),
    }
}
