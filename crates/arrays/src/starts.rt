// The start of a session: all of the arrays is written.
// The arrays are written to, so they go one by one: where a struct of `&mut` comes apart again, the proof did not close.
ghost use Rattle.std.specs.Prelude.{◌≡◌, None};
ghost use Rattle.text.specs.Names.{empty_name};
ghost use Rattle.metadata.specs.Metadata.{no_metadata};
ghost use Rattle.session.specs.State.{fresh_session};
ghost use Rattle.replies.specs.Answers.{refusal};
ghost use Rattle.calls.specs.Calls.{blank_session, starting};
ghost use Rattle.written.specs.Kept.{facts_of, image_of};
ghost use Rattle.parts.specs.Told.{is_set, told_of};
ghost use Rattle.arrays.specs.Turns.{started, told};

use answers::start_records;
use calls::config_bad;
use parts::{is_set, tell_quiet};
use text::{Name, empty_name, read_name};
use wishes::{Outcome, Refusal};

fn fresh_facts(start: u64, version: Name) -> [u64; 10]
    ensures { result ≡ facts_of (fresh_session start version) }
{
    [start, version.len as u64, 0, 0, 0, 0, 1, 0, 0, 0]
}

// A fresh session has sixteen blank places in each table.
#[tactic(auto, unfolding(written::specs::Kept::image_of))]
fn write_fresh(
    facts: &mut [u64; 10],
    streams: &mut [[u64; 4]; 16],
    requests: &mut [[u64; 6]; 16],
    names: &mut [[u8; 128]; 34],
    start: u64,
    version: Name,
)
    ensures { (facts.new, (streams.new, (requests.new, names.new))) ≡ image_of (fresh_session start version) }
{
    let bytes = version.bytes;
    *facts = fresh_facts(start, version);
    *streams = [[0; 4]; 16];
    *requests = [[0; 6]; 16];
    *names = [[0; 128]; 34];
    names[0] = bytes;
}

fn tell_fresh(
    facts: &mut [u64; 10],
    streams: &mut [[u64; 4]; 16],
    requests: &mut [[u64; 6]; 16],
    names: &mut [[u8; 128]; 34],
    numbers: &mut [u64; 16],
    described: &mut [[u64; 11]; 2],
    words: &mut [[u8; 128]; 3],
    start: u64,
    version: Name,
    outcome: Outcome,
    count: usize,
) -> u32
    ensures { ((facts.new, (streams.new, (requests.new, names.new))) ≡ image_of (fresh_session start version)) × ((result, (numbers.new, (described.new, words.new))) ≡ told_of outcome None empty_name empty_name no_metadata count) }
{
    write_fresh(facts, streams, requests, names, start, version);
    tell_quiet(numbers, described, words, outcome, count)
}

// A refused start leaves a session at clock 0 with no version.
fn tell_blank(
    facts: &mut [u64; 10],
    streams: &mut [[u64; 4]; 16],
    requests: &mut [[u64; 6]; 16],
    names: &mut [[u8; 128]; 34],
    numbers: &mut [u64; 16],
    described: &mut [[u64; 11]; 2],
    words: &mut [[u8; 128]; 3],
    why: Refusal,
) -> u32
    ensures { ((facts.new, (streams.new, (requests.new, names.new))) ≡ image_of blank_session) × ((result, (numbers.new, (described.new, words.new))) ≡ told (refusal why blank_session)) }
{
    tell_fresh(
        facts,
        streams,
        requests,
        names,
        numbers,
        described,
        words,
        0,
        empty_name(),
        Err(why),
        0,
    )
}

// What stood in the arrays is written over, also by a start that is refused.
#[tactic(auto, using(calls::proofs::StartsLaws::good_version), unfolding(calls::specs::Calls::starting, crate::specs::Turns::started))]
pub fn start_in(
    facts: &mut [u64; 10],
    streams: &mut [[u64; 4]; 16],
    requests: &mut [[u64; 6]; 16],
    names: &mut [[u8; 128]; 34],
    chunk_size: u32,
    window_ack_size: u32,
    peer_bandwidth: u32,
    on_bw_done: u32,
    fms_version: &[u8],
    clock: u64,
    out: &mut [u8],
    numbers: &mut [u64; 16],
    described: &mut [[u64; 11]; 2],
    words: &mut [[u8; 128]; 3],
) -> u32
    ensures { (((facts.new, (streams.new, (requests.new, names.new))), (result, (numbers.new, (described.new, words.new)))), out.new) ≡ started (starting chunk_size window_ack_size peer_bandwidth (is_set on_bw_done) fms_version.now clock out.old) }
{
    if config_bad(chunk_size, fms_version) {
        return tell_blank(
            facts,
            streams,
            requests,
            names,
            numbers,
            described,
            words,
            Refusal::BadConfig,
        );
    }
    let Some(version) = read_name(fms_version) else {
        return tell_blank(
            facts,
            streams,
            requests,
            names,
            numbers,
            described,
            words,
            Refusal::BadConfig,
        );
    };
    let done = is_set(on_bw_done);
    match start_records(out, chunk_size, window_ack_size, peer_bandwidth, done) {
        Some(count) => tell_fresh(
            facts,
            streams,
            requests,
            names,
            numbers,
            described,
            words,
            clock,
            version,
            Ok(()),
            count,
        ),
        None => tell_blank(
            facts,
            streams,
            requests,
            names,
            numbers,
            described,
            words,
            Refusal::NoRoom,
        ),
    }
}
