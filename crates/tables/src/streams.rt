// The table of streams.
ghost use Rattle.std.specs.Prelude.{◌≡◌};
ghost use Rattle.tables.specs.Entries.{no_stream, stream_name, stream_number};

use crate::table::Entry;
use text::{Name, PublishMode, StreamId, empty_name};

// The Rust's states. The key and the mode stand beside the state, as in the host's rows.
#[derive(Clone, Copy, Debug, PartialEq, Eq)]
pub enum StreamState {
    Created,
    Publishing,
    Playing,
    Completed,
}

// The mode is that of a publishing stream, and Live else. A created or completed stream has an empty key.
#[derive(Clone, Copy)]
pub struct Stream {
    pub id: StreamId,
    pub state: StreamState,
    pub mode: PublishMode,
    pub key: Name,
}

pub fn no_stream() -> Stream
    ensures { result ≡ no_stream }
{
    Stream {
        id: StreamId(0),
        state: StreamState::Created,
        mode: PublishMode::Live,
        key: empty_name(),
    }
}

impl Entry for Stream {
    type Id = StreamId;

    ghost number = { stream_number };

    ghost number_of = { λ id. id.0 };

    ghost name = { stream_name };

    ghost blank = { no_stream };

    fn number(&self) -> u32 {
        self.id.0
    }

    fn number_of(id: StreamId) -> u32 {
        id.0
    }

    fn name(&self) -> &Name {
        &self.key
    }

    fn blank() -> Stream {
        no_stream()
    }
}
