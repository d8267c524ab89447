// From the arrays to a session.
ghost use Rattle.std.specs.Prelude.{◌≡◌, ◌-◌, ◌++◌, length, min, replicate, take};
ghost use Rattle.tables.specs.Entries.{request_number, stream_number};
ghost use Rattle.tables.specs.Tables.{look};
ghost use Rattle.session.specs.State.{session_sound};
ghost use Rattle.image.specs.Image.{joined, session_at, used_requests, used_streams};

use crate::cases::session_state;
use crate::rows::{Row, place, short_number};
use session::{Session, session_sound};
use tables::{Entry, Request, Stream};
use text::{Name, RequestId, StreamId};

// How many of the sixteen places a count takes.
pub fn rows_in_use(count: u64) -> usize
    ensures { result ≡ min count 16 }
{
    if count < 16 { count as usize } else { 16 }
}

// The rows in use, with their names; the places behind them are blank.
fn entries<R: Row>(rows: &[R], names: &[[u8; 128]], count: u64) -> [R::Entry; 16]
    requires { (length rows.now ≡ 16) × (length names.now ≡ 16) }
    ensures { result ≡ take count (joined R.entry rows.now names.now) ++ replicate (16 - count) R.Entry.blank }
{
    let mut all = [R::Entry::blank(); 16];
    for i in 0..rows_in_use(count) {
        all[i] = rows[i].entry(names[i]);
    }
    all
}

// The entry of a number among the rows in use, without the others.
fn entry_of<R: Row>(rows: &[R], names: &[[u8; 128]], count: u64, number: u32) -> Option<R::Entry>
    requires { (length rows.now ≡ 16) × (length names.now ≡ 16) }
    ensures { result ≡ look R.Entry.number number (take count (joined R.entry rows.now names.now)) }
{
    let p = place(rows, count as usize, number)?;
    Some(rows[p].entry(names[p]))
}

// All of a session, which only the slow way of `image_sound` needs.
#[tactic(auto, unfolding(crate::specs::Image::session_at))]
fn read_among(
    facts: &[u64; 10],
    streams: &[[u64; 4]],
    requests: &[[u64; 6]],
    names: &[[u8; 128]],
) -> Session
    requires { (length streams.now ≡ 16) × ((length requests.now ≡ 16) × (length names.now ≡ 34)) }
    ensures { result ≡ session_at facts.now streams.now requests.now names.now }
{
    Session {
        start: facts[0],
        version: Name {
            bytes: names[0],
            len: facts[1] as usize,
        },
        state: session_state(facts[2]),
        has_app: facts[3] == 1,
        app: Name {
            bytes: names[1],
            len: facts[4] as usize,
        },
        encoding: facts[5],
        next_stream: short_number(facts[6]),
        next_request: short_number(facts[7]),
        stream_count: facts[8] as usize,
        request_count: facts[9] as usize,
        streams: entries(streams, &names[2..18], facts[8]),
        requests: entries(requests, &names[18..34], facts[9]),
    }
}

// The session that stands in the arrays passes the tests of refusal 15.
pub fn read_sound(
    facts: &[u64; 10],
    streams: &[[u64; 4]; 16],
    requests: &[[u64; 6]; 16],
    names: &[[u8; 128]; 34],
) -> bool
    ensures { result ≡ session_sound (session_at facts.now streams.now requests.now names.now) }
{
    session_sound(read_among(facts, streams, requests, names))
}

// The stream of a number.
pub fn find_row(
    streams: &[[u64; 4]; 16],
    names: &[[u8; 128]; 34],
    count: u64,
    id: StreamId,
) -> Option<Stream>
    ensures { result ≡ look stream_number id.0 (used_streams count streams.now names.now) }
{
    entry_of(&streams[..], &names[2..18], count, id.0)
}

// The waiting request of a number.
pub fn find_request_row(
    requests: &[[u64; 6]; 16],
    names: &[[u8; 128]; 34],
    count: u64,
    id: RequestId,
) -> Option<Request>
    ensures { result ≡ look request_number id.0 (used_requests count requests.now names.now) }
{
    entry_of(&requests[..], &names[18..34], count, id.0)
}
