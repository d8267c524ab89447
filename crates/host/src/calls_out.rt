// The calls that hand a session back, under the names that a host links.
ghost use Rattle.std.specs.Prelude.{◌≡◌};
ghost use Rattle.session.specs.declared.session.Session.{Session};
ghost use Rattle.messages.specs.Messages.{handle_message};
ghost use Rattle.calls.specs.Calls.{accepting, finishes, rejecting, starting};
ghost use Rattle.parts.specs.Told.{is_set};
ghost use Rattle.arrays.specs.Turns.{hosted, started};

use arrays::{accept_in, finish_in, message_in, reject_in, start_in};

// A message that came in.
pub fn chungvator_handle_message(
    facts: &mut [u64; 10],
    streams: &mut [[u64; 4]; 16],
    requests: &mut [[u64; 6]; 16],
    names: &mut [[u8; 128]; 34],
    kind: u8,
    stream: u32,
    timestamp: u32,
    clock: u64,
    body: &[u8],
    out: &mut [u8],
    numbers: &mut [u64; 16],
    described: &mut [[u64; 11]; 2],
    words: &mut [[u8; 128]; 3],
) -> u32
    ensures { (((facts.new, (streams.new, (requests.new, names.new))), (result, (numbers.new, (described.new, words.new)))), out.new) ≡ hosted 0 (facts.old, (streams.old, (requests.old, names.old))) out.old (λ (s : Session). handle_message s kind (record { 0 = stream }) timestamp clock body.now out.old) }
{
    message_in(
        facts, streams, requests, names, kind, stream, timestamp, clock, body, out, numbers,
        described, words,
    )
}

// A waiting request is accepted.
pub fn chungvator_accept_request(
    facts: &mut [u64; 10],
    streams: &mut [[u64; 4]; 16],
    requests: &mut [[u64; 6]; 16],
    names: &mut [[u8; 128]; 34],
    request: u32,
    clock: u64,
    out: &mut [u8],
    numbers: &mut [u64; 16],
    described: &mut [[u64; 11]; 2],
    words: &mut [[u8; 128]; 3],
) -> u32
    ensures { (((facts.new, (streams.new, (requests.new, names.new))), (result, (numbers.new, (described.new, words.new)))), out.new) ≡ hosted 11 (facts.old, (streams.old, (requests.old, names.old))) out.old (λ (s : Session). accepting s (record { 0 = request }) clock out.old) }
{
    accept_in(
        facts, streams, requests, names, request, clock, out, numbers, described, words,
    )
}

// A waiting request is rejected, with a code and a description.
pub fn chungvator_reject_request(
    facts: &mut [u64; 10],
    streams: &mut [[u64; 4]; 16],
    requests: &mut [[u64; 6]; 16],
    names: &mut [[u8; 128]; 34],
    request: u32,
    code: &[u8],
    description: &[u8],
    clock: u64,
    out: &mut [u8],
    numbers: &mut [u64; 16],
    described: &mut [[u64; 11]; 2],
    words: &mut [[u8; 128]; 3],
) -> u32
    ensures { (((facts.new, (streams.new, (requests.new, names.new))), (result, (numbers.new, (described.new, words.new)))), out.new) ≡ hosted 0 (facts.old, (streams.old, (requests.old, names.old))) out.old (λ (s : Session). rejecting s (record { 0 = request }) code.now description.now clock out.old) }
{
    reject_in(
        facts,
        streams,
        requests,
        names,
        request,
        code,
        description,
        clock,
        out,
        numbers,
        described,
        words,
    )
}

// A playing stream is complete.
pub fn chungvator_finish_playing(
    facts: &mut [u64; 10],
    streams: &mut [[u64; 4]; 16],
    requests: &mut [[u64; 6]; 16],
    names: &mut [[u8; 128]; 34],
    stream: u32,
    clock: u64,
    out: &mut [u8],
    numbers: &mut [u64; 16],
    described: &mut [[u64; 11]; 2],
    words: &mut [[u8; 128]; 3],
) -> u32
    ensures { (((facts.new, (streams.new, (requests.new, names.new))), (result, (numbers.new, (described.new, words.new)))), out.new) ≡ hosted 0 (facts.old, (streams.old, (requests.old, names.old))) out.old (λ (s : Session). finishes s (record { 0 = stream }) clock out.old) }
{
    finish_in(
        facts, streams, requests, names, stream, clock, out, numbers, described, words,
    )
}

// The start of a session. What stood in its arrays is written over, also by a start that is refused.
pub fn chungvator_start(
    facts: &mut [u64; 10],
    streams: &mut [[u64; 4]; 16],
    requests: &mut [[u64; 6]; 16],
    names: &mut [[u8; 128]; 34],
    chunk_size: u32,
    window_ack_size: u32,
    peer_bandwidth: u32,
    on_bw_done: u32,
    fms_version: &[u8],
    clock: u64,
    out: &mut [u8],
    numbers: &mut [u64; 16],
    described: &mut [[u64; 11]; 2],
    words: &mut [[u8; 128]; 3],
) -> u32
    ensures { (((facts.new, (streams.new, (requests.new, names.new))), (result, (numbers.new, (described.new, words.new)))), out.new) ≡ started (starting chunk_size window_ack_size peer_bandwidth (is_set on_bw_done) fms_version.now clock out.old) }
{
    start_in(
        facts,
        streams,
        requests,
        names,
        chunk_size,
        window_ack_size,
        peer_bandwidth,
        on_bw_done,
        fms_version,
        clock,
        out,
        numbers,
        described,
        words,
    )
}
