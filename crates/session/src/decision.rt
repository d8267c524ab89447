// What a session decides of a wish or a call.
ghost use Rattle.std.specs.Prelude.{◌≡◌};
ghost use Rattle.session.specs.Decisions.{concluding, concluding_with, nothing, quietly, raising, replying};

use crate::changes::{Change, no_change};
use metadata::{StreamMetadata, no_metadata};
use numbers::PlayStartValue;
use text::{Name, PublishMode, RequestId, StreamId, empty_name};
use wishes::Outcome;

// The Rust's events. The app, the key and the metadata stand beside the event.
#[derive(Clone, Copy, Debug, PartialEq, Eq)]
pub enum Event {
    ConnectionRequested(RequestId),
    PublishStreamRequested {
        request: RequestId,
        mode: PublishMode,
    },
    PlayStreamRequested {
        request: RequestId,
        start: PlayStartValue,
        duration: Option<u32>,
        reset: bool,
        stream: StreamId,
    },
    PublishStreamFinished,
    PlayStreamFinished,
    StreamMetadataChanged,
    AudioDataReceived {
        timestamp: u32,
    },
    VideoDataReceived {
        timestamp: u32,
    },
    PingResponseReceived {
        timestamp: u32,
    },
}

// Why a command is answered by an error record.
#[derive(Clone, Copy, Debug, PartialEq, Eq)]
pub enum CommandFault {
    PublishFew,
    PublishUnconnected,
    PublishUnknownMode,
    PlayFew,
    PlayUnconnected,
}

// What is to be written. A key or an app stands beside it.
#[derive(Clone, Copy, Debug, PartialEq, Eq)]
pub enum Reply {
    Nothing,
    StreamCreated {
        transaction: u64,
        stream: StreamId,
    },
    Failed {
        transaction: u64,
        fault: CommandFault,
        stream: StreamId,
    },
    PingResponse(u32),
    ConnectAccepted {
        transaction: u64,
    },
    PublishAccepted(StreamId),
    PlayAccepted(StreamId),
    PlayFinished(StreamId),
    Rejected {
        transaction: u64,
        stream: StreamId,
    },
}

// `app`, `key` and `metadata` belong to the event, `name` to the reply; what is not used is empty.
#[derive(Clone, Copy)]
pub struct Decision {
    pub outcome: Outcome,
    pub event: Option<Event>,
    pub app: Name,
    pub key: Name,
    pub metadata: StreamMetadata,
    pub reply: Reply,
    pub name: Name,
    pub change: Change,
}

// Done, with no event and no record.
pub fn quiet(change: Change) -> Decision
    ensures { result ≡ quietly change }
{
    Decision {
        outcome: Ok(()),
        event: None,
        app: empty_name(),
        key: empty_name(),
        metadata: no_metadata(),
        reply: Reply::Nothing,
        name: empty_name(),
        change,
    }
}

pub fn nothing_done() -> Decision
    ensures { result ≡ nothing }
{
    quiet(no_change())
}

// A refusal that changes something: 11 from an accept. Of no refusal it is `quiet`.
pub fn refused_with(outcome: Outcome, change: Change) -> Decision
    ensures { result ≡ concluding_with outcome change }
{
    Decision {
        outcome,
        ..quiet(change)
    }
}

pub fn refused(outcome: Outcome) -> Decision
    ensures { result ≡ concluding outcome }
{
    refused_with(outcome, no_change())
}

pub fn replied(reply: Reply, name: Name, change: Change) -> Decision
    ensures { result ≡ replying reply name change }
{
    Decision {
        reply,
        name,
        ..quiet(change)
    }
}

pub fn raised(
    event: Option<Event>,
    app: Name,
    key: Name,
    metadata: StreamMetadata,
    change: Change,
) -> Decision
    ensures { result ≡ raising event app key metadata change }
{
    Decision {
        event,
        app,
        key,
        metadata,
        ..quiet(change)
    }
}
