// The table of waiting requests.
ghost use Rattle.std.specs.Prelude.{◌≡◌};
ghost use Rattle.tables.specs.Entries.{no_request, request_name, request_number};

use crate::table::Entry;
use text::{Name, PublishMode, RequestId, StreamId, empty_name};

#[derive(Clone, Copy, Debug, PartialEq, Eq)]
pub enum RequestKind {
    Connect,
    Publish,
    Play,
}

// What is asked for: of a connect, the app as the name and its transaction, on stream 0; of a publish or a play, the
// key, and of a publish the mode. What a kind does not use is 0 or Live.
#[derive(Clone, Copy)]
pub struct Request {
    pub id: RequestId,
    pub kind: RequestKind,
    pub stream: StreamId,
    pub mode: PublishMode,
    pub transaction: u64,
    pub name: Name,
}

pub fn no_request() -> Request
    ensures { result ≡ no_request }
{
    Request {
        id: RequestId(0),
        kind: RequestKind::Connect,
        stream: StreamId(0),
        mode: PublishMode::Live,
        transaction: 0,
        name: empty_name(),
    }
}

impl Entry for Request {
    type Id = RequestId;

    ghost number = { request_number };

    ghost number_of = { λ id. id.0 };

    ghost name = { request_name };

    ghost blank = { no_request };

    fn number(&self) -> u32 {
        self.id.0
    }

    fn number_of(id: RequestId) -> u32 {
        id.0
    }

    fn name(&self) -> &Name {
        &self.name
    }

    fn blank() -> Request {
        no_request()
    }
}
