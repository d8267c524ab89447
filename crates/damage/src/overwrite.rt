// "one raw number of the session is overwritten, so that the next call meets a session that no run gives"
ghost use Rattle.std.specs.Prelude.{◌≡◌};
ghost use Rattle.damage.specs.Damage.{damaged};

use session::Session;
use text::{RequestId, StreamId};

// "place is an index into a table, from 0, taken modulo 16". What is overwritten is the trace's number, told apart here alone.
#[tactic(auto, unfolding(crate::specs::Damage::damaged, crate::specs::Damage::numbered_stream, crate::specs::Damage::keyed_stream, crate::specs::Damage::numbered_request, crate::specs::Damage::named_request))]
pub fn damage_session(mut session: Session, what: u8, place: u8, value: u32) -> Session
    ensures { result ≡ damaged session what place value }
{
    let p = (place % 16) as usize;
    match what {
        0 => session.app.len = value as usize,
        1 => session.version.len = value as usize,
        2 => session.stream_count = value as usize,
        3 => session.request_count = value as usize,
        4 => session.streams[p].id = StreamId(value),
        5 => session.streams[p].key.len = value as usize,
        6 => session.requests[p].id = RequestId(value),
        7 => session.requests[p].name.len = value as usize,
        8 => session.next_stream = value,
        9 => session.next_request = value,
        _ => {}
    }
    session
}
