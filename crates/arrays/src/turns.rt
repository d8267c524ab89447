// The calls that may change a session: the door, the decision, its records, what it changes, and what is told.
// The arrays are written to, so they go one by one: where a struct of `&mut` comes apart again, the proof did not close.
ghost use Rattle.std.specs.Prelude.{◌≡◌, ◌<◌, Some, true, [], get_or};
ghost use Rattle.record.specs.Clock.{time_of};
ghost use Rattle.answers.specs.Sending.{sent};
ghost use Rattle.session.specs.declared.session.Session.{Session};
ghost use Rattle.streams.specs.Streams.{frame_of};
ghost use Rattle.replies.specs.Finishing.{finishing};
ghost use Rattle.replies.specs.Replies.{reply_records};
ghost use Rattle.messages.specs.Messages.{by_type, frame_answer, guarded, handle_message};
ghost use Rattle.desks.specs.Asked.{decision_of};
ghost use Rattle.calls.specs.Calls.{accepting, finishes, rejecting};
ghost use Rattle.image.specs.Image.{cell, session_at, session_read, sound_at};
ghost use Rattle.arrays.specs.Turns.{changed_by, hosted, keeps, told, turned};

use desks::{Asked, decision_in, frame_in};
use image::{Image, image_sound, types_say};
use parts::{tell_decision, tell_plain, tell_quiet};
use record::time_of;
use replies::write_reply;
use session::{Change, Event, Reply};
use text::{Name, RequestId, StreamId};
use wishes::{Outcome, Refusal, number_of};
use written::apply_in;

// The records of a reply, with the version, the encoding and the start that stand in the arrays.
fn reply_in(
    facts: &[u64; 10],
    names: &[[u8; 128]; 34],
    reply: Reply,
    name: Name,
    code: &[u8],
    description: &[u8],
    clock: u64,
    out: &mut [u8],
) -> Option<usize>
    ensures { (result, out.new) ≡ sent (reply_records reply name (record { bytes = get_or names.now 0 []; len = cell facts.now 1 }) (cell facts.now 5) code.now description.now (time_of (cell facts.now 0) clock)) out.old }
{
    let version = Name {
        bytes: names[0],
        len: facts[1] as usize,
    };
    let time = time_of(facts[0], clock);
    write_reply(out, reply, name, version, facts[5], code, description, time)
}

// The session is written back where something was done, and with one more number that the call names.
fn keeps_session(also: u32, number: u32) -> bool
    ensures { result ≡ keeps also number }
{
    number == 0 || number == also
}

fn keep(
    facts: &mut [u64; 10],
    streams: &mut [[u64; 4]; 16],
    requests: &mut [[u64; 6]; 16],
    names: &mut [[u8; 128]; 34],
    also: u32,
    outcome: Outcome,
    change: Change,
)
    requires { sound_at facts.old streams.old requests.old names.old ≡ true }
    ensures { (facts.new, (streams.new, (requests.new, names.new))) ≡ changed_by also (facts.old, (streams.old, (requests.old, names.old))) outcome change }
{
    types_say(facts, streams, requests, names);
    if keeps_session(also, number_of(outcome)) {
        apply_in(facts, streams, requests, names, change);
    }
}

// What is decided is done, if its records fit.
fn conclude(
    facts: &mut [u64; 10],
    streams: &mut [[u64; 4]; 16],
    requests: &mut [[u64; 6]; 16],
    names: &mut [[u8; 128]; 34],
    numbers: &mut [u64; 16],
    described: &mut [[u64; 11]; 2],
    words: &mut [[u8; 128]; 3],
    out: &mut [u8],
    also: u32,
    asked: Asked,
    code: &[u8],
    description: &[u8],
    body: &[u8],
    clock: u64,
) -> u32
    requires { sound_at facts.old streams.old requests.old names.old ≡ true }
    ensures { (((facts.new, (streams.new, (requests.new, names.new))), (result, (numbers.new, (described.new, words.new)))), out.new) ≡ turned also (facts.old, (streams.old, (requests.old, names.old))) (finishing (session_at facts.old streams.old requests.old names.old) (decision_of asked (session_at facts.old streams.old requests.old names.old) code.now description.now body.now) code.now description.now clock out.old) }
{
    types_say(facts, streams, requests, names);
    let decision = decision_in(
        Image {
            facts,
            streams,
            requests,
            names,
        },
        asked,
        code,
        description,
        body,
    );
    let Some(count) = reply_in(
        facts,
        names,
        decision.reply,
        decision.name,
        code,
        description,
        clock,
        out,
    ) else {
        return tell_quiet(numbers, described, words, Err(Refusal::NoRoom), 0);
    };
    keep(
        facts,
        streams,
        requests,
        names,
        also,
        decision.outcome,
        decision.change,
    );
    tell_decision(numbers, described, words, decision, count)
}

// Of an application's answer: arrays that hold no session are refused.
fn answer_in(
    facts: &mut [u64; 10],
    streams: &mut [[u64; 4]; 16],
    requests: &mut [[u64; 6]; 16],
    names: &mut [[u8; 128]; 34],
    numbers: &mut [u64; 16],
    described: &mut [[u64; 11]; 2],
    words: &mut [[u8; 128]; 3],
    out: &mut [u8],
    also: u32,
    asked: Asked,
    code: &[u8],
    description: &[u8],
    clock: u64,
) -> u32
    requires { also < 15 }
    ensures { (((facts.new, (streams.new, (requests.new, names.new))), (result, (numbers.new, (described.new, words.new)))), out.new) ≡ hosted also (facts.old, (streams.old, (requests.old, names.old))) out.old (λ (s : Session). guarded s out.old (finishing s (decision_of asked s code.now description.now []) code.now description.now clock out.old)) }
{
    if !image_sound(facts, streams, requests, names) {
        return tell_quiet(numbers, described, words, Err(Refusal::BadSession), 0);
    }
    conclude(
        facts,
        streams,
        requests,
        names,
        numbers,
        described,
        words,
        out,
        also,
        asked,
        code,
        description,
        b"",
        clock,
    )
}

// A frame changes nothing.
fn tell_frame(
    image: Image,
    numbers: &mut [u64; 16],
    described: &mut [[u64; 11]; 2],
    words: &mut [[u8; 128]; 3],
    id: StreamId,
    event: Event,
) -> u32
    ensures { (result, (numbers.new, (described.new, words.new))) ≡ told (frame_answer (session_read image.entry) (frame_of (session_read image.entry) id (Some event))) }
{
    match frame_in(image, id, Some(event)) {
        Some(frame) => tell_plain(
            numbers,
            described,
            words,
            Ok(()),
            frame.event,
            frame.app,
            frame.key,
            0,
        ),
        None => tell_quiet(numbers, described, words, Ok(()), 0),
    }
}

// The type alone picks the treatment. It is the wire's number, and C hands it in.
fn by_type_in(
    facts: &mut [u64; 10],
    streams: &mut [[u64; 4]; 16],
    requests: &mut [[u64; 6]; 16],
    names: &mut [[u8; 128]; 34],
    numbers: &mut [u64; 16],
    described: &mut [[u64; 11]; 2],
    words: &mut [[u8; 128]; 3],
    out: &mut [u8],
    kind: u8,
    stream: StreamId,
    timestamp: u32,
    clock: u64,
    body: &[u8],
) -> u32
    requires { sound_at facts.old streams.old requests.old names.old ≡ true }
    ensures { (((facts.new, (streams.new, (requests.new, names.new))), (result, (numbers.new, (described.new, words.new)))), out.new) ≡ turned 0 (facts.old, (streams.old, (requests.old, names.old))) (by_type (session_at facts.old streams.old requests.old names.old) kind stream timestamp clock body.now out.old) }
{
    types_say(facts, streams, requests, names);
    match kind {
        4 | 18 | 20 => conclude(
            facts,
            streams,
            requests,
            names,
            numbers,
            described,
            words,
            out,
            0,
            Asked::Said { kind, stream },
            b"",
            b"",
            body,
            clock,
        ),
        8 => tell_frame(
            Image {
                facts,
                streams,
                requests,
                names,
            },
            numbers,
            described,
            words,
            stream,
            Event::AudioDataReceived { timestamp },
        ),
        9 => tell_frame(
            Image {
                facts,
                streams,
                requests,
                names,
            },
            numbers,
            described,
            words,
            stream,
            Event::VideoDataReceived { timestamp },
        ),
        _ => tell_quiet(numbers, described, words, Ok(()), 0),
    }
}

// A message that came in.
pub fn message_in(
    facts: &mut [u64; 10],
    streams: &mut [[u64; 4]; 16],
    requests: &mut [[u64; 6]; 16],
    names: &mut [[u8; 128]; 34],
    kind: u8,
    stream: u32,
    timestamp: u32,
    clock: u64,
    body: &[u8],
    out: &mut [u8],
    numbers: &mut [u64; 16],
    described: &mut [[u64; 11]; 2],
    words: &mut [[u8; 128]; 3],
) -> u32
    ensures { (((facts.new, (streams.new, (requests.new, names.new))), (result, (numbers.new, (described.new, words.new)))), out.new) ≡ hosted 0 (facts.old, (streams.old, (requests.old, names.old))) out.old (λ (s : Session). handle_message s kind (record { 0 = stream }) timestamp clock body.now out.old) }
{
    if !image_sound(facts, streams, requests, names) {
        return tell_quiet(numbers, described, words, Err(Refusal::BadSession), 0);
    }
    by_type_in(
        facts,
        streams,
        requests,
        names,
        numbers,
        described,
        words,
        out,
        kind,
        StreamId(stream),
        timestamp,
        clock,
        body,
    )
}

// A waiting request is accepted.
pub fn accept_in(
    facts: &mut [u64; 10],
    streams: &mut [[u64; 4]; 16],
    requests: &mut [[u64; 6]; 16],
    names: &mut [[u8; 128]; 34],
    request: u32,
    clock: u64,
    out: &mut [u8],
    numbers: &mut [u64; 16],
    described: &mut [[u64; 11]; 2],
    words: &mut [[u8; 128]; 3],
) -> u32
    ensures { (((facts.new, (streams.new, (requests.new, names.new))), (result, (numbers.new, (described.new, words.new)))), out.new) ≡ hosted 11 (facts.old, (streams.old, (requests.old, names.old))) out.old (λ (s : Session). accepting s (record { 0 = request }) clock out.old) }
{
    answer_in(
        facts,
        streams,
        requests,
        names,
        numbers,
        described,
        words,
        out,
        11,
        Asked::Accept(RequestId(request)),
        b"",
        b"",
        clock,
    )
}

// A waiting request is rejected, with a code and a description.
pub fn reject_in(
    facts: &mut [u64; 10],
    streams: &mut [[u64; 4]; 16],
    requests: &mut [[u64; 6]; 16],
    names: &mut [[u8; 128]; 34],
    request: u32,
    code: &[u8],
    description: &[u8],
    clock: u64,
    out: &mut [u8],
    numbers: &mut [u64; 16],
    described: &mut [[u64; 11]; 2],
    words: &mut [[u8; 128]; 3],
) -> u32
    ensures { (((facts.new, (streams.new, (requests.new, names.new))), (result, (numbers.new, (described.new, words.new)))), out.new) ≡ hosted 0 (facts.old, (streams.old, (requests.old, names.old))) out.old (λ (s : Session). rejecting s (record { 0 = request }) code.now description.now clock out.old) }
{
    answer_in(
        facts,
        streams,
        requests,
        names,
        numbers,
        described,
        words,
        out,
        0,
        Asked::Reject(RequestId(request)),
        code,
        description,
        clock,
    )
}

// A playing stream is complete.
pub fn finish_in(
    facts: &mut [u64; 10],
    streams: &mut [[u64; 4]; 16],
    requests: &mut [[u64; 6]; 16],
    names: &mut [[u8; 128]; 34],
    stream: u32,
    clock: u64,
    out: &mut [u8],
    numbers: &mut [u64; 16],
    described: &mut [[u64; 11]; 2],
    words: &mut [[u8; 128]; 3],
) -> u32
    ensures { (((facts.new, (streams.new, (requests.new, names.new))), (result, (numbers.new, (described.new, words.new)))), out.new) ≡ hosted 0 (facts.old, (streams.old, (requests.old, names.old))) out.old (λ (s : Session). finishes s (record { 0 = stream }) clock out.old) }
{
    answer_in(
        facts,
        streams,
        requests,
        names,
        numbers,
        described,
        words,
        out,
        0,
        Asked::Finish(StreamId(stream)),
        b"",
        b"",
        clock,
    )
}
