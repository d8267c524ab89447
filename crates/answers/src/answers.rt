// The records of each answer: all of them or none.
ghost use Rattle.std.specs.Prelude.{◌≡◌, ◌+◌, ◌≤◌, length};
ghost use Rattle.numbers.specs.Fields.{front};
ghost use Rattle.text.specs.Names.{text_of};
ghost use Rattle.record.specs.Records.{connect_accepted, dropping, error_record, four_records, media, ping_request, ping_response, play_accepted, play_data, play_finished, play_first, publish_accepted, start_records, stream_created};
ghost use Rattle.answers.specs.Sending.{sent};

use numbers::double_of_u32;
use record::{
    write_bandwidth, write_body, write_connected, write_data_started, write_event,
    write_number_answer, write_sample_access, write_size, write_status,
};
use text::{Name, StreamId};

fn write_four(out: &mut [u8], chunk: u32, window: u32, bandwidth: u32)
    requires { 71 ≤ length out.old }
    ensures { out.new ≡ front (four_records chunk window bandwidth) out.old }
{
    write_size(out, 1, chunk);
    write_size(&mut out[17..], 5, window);
    write_event(&mut out[34..], 0, 0, 0, StreamId(0), 1);
    write_bandwidth(&mut out[53..], bandwidth);
}

// Set chunk size, window, StreamBegin and peer bandwidth, and onBWDone where it is asked for.
pub fn start_records(
    out: &mut [u8],
    chunk: u32,
    window: u32,
    bandwidth: u32,
    on_bw_done: bool,
) -> Option<usize>
    ensures { (result, out.new) ≡ sent (start_records chunk window bandwidth on_bw_done) out.old }
{
    if on_bw_done {
        if out.len() < 114 {
            return None;
        }
        write_four(out, chunk, window, bandwidth);
        write_number_answer(&mut out[71..], b"onBWDone", 0, 0x40C0000000000000, 0, 1);
        return Some(114);
    }
    if out.len() < 71 {
        return None;
    }
    write_four(out, chunk, window, bandwidth);
    Some(71)
}

// The answer to createStream.
pub fn stream_created(
    out: &mut [u8],
    transaction: u64,
    number: StreamId,
    time: u32,
) -> Option<usize>
    ensures { (result, out.new) ≡ sent (stream_created transaction number.0 time) out.old }
{
    if out.len() < 42 {
        return None;
    }
    let bits = double_of_u32(number.0);
    write_number_answer(out, b"_result", transaction, bits, time, 0);
    Some(42)
}

// An error, of a command or of a rejected request.
pub fn error_record(
    out: &mut [u8],
    transaction: u64,
    code: &[u8],
    description: &[u8],
    time: u32,
    stream: StreamId,
) -> Option<usize>
    requires { (length code.now ≤ 256) × (length description.now ≤ 256) }
    ensures { (result, out.new) ≡ sent (error_record transaction code.now description.now time stream.0) out.old }
{
    let total = 76 + code.len() + description.len();
    if out.len() < total {
        return None;
    }
    write_status(
        out,
        b"_error",
        transaction,
        b"error",
        code,
        description,
        b"",
        time,
        stream,
    );
    Some(total)
}

// Accepted publish: StreamBegin, onStatus.
pub fn publish_accepted(out: &mut [u8], key: Name, time: u32, stream: StreamId) -> Option<usize>
    ensures { (result, out.new) ≡ sent (publish_accepted (text_of key) time stream.0) out.old }
{
    let key = key.text();
    let total = 167 + key.len();
    if out.len() < total {
        return None;
    }
    write_event(out, 0, stream.0, time, stream, 0);
    write_status(
        &mut out[19..],
        b"onStatus",
        0,
        b"status",
        b"NetStream.Publish.Start",
        b"Successfully started publishing on stream key ",
        key,
        time,
        stream,
    );
    Some(total)
}

// The first three records of an accepted play, and the other two.
fn write_play(out: &mut [u8], key: &[u8], time: u32, stream: StreamId)
    requires { (length key.now ≤ 128) × (273 + length key.now ≤ length out.old) }
    ensures { out.new ≡ front (play_first key.now time stream.0) out.old }
{
    write_status(
        out,
        b"onStatus",
        0,
        b"status",
        b"NetStream.Play.Reset",
        b"Reset stream",
        b"",
        time,
        stream,
    );
    write_event(&mut out[111..], 0, stream.0, time, stream, 0);
    write_status(
        &mut out[130..],
        b"onStatus",
        0,
        b"status",
        b"NetStream.Play.Start",
        b"Successfully started playback on stream key ",
        key,
        time,
        stream,
    );
}

fn write_play_data(out: &mut [u8], time: u32, stream: StreamId)
    requires { 94 ≤ length out.old }
    ensures { out.new ≡ front (play_data time stream.0) out.old }
{
    write_sample_access(out, time, stream);
    write_data_started(&mut out[37..], time, stream);
}

// Accepted play: Reset, StreamBegin, Start, |RtmpSampleAccess, data onStatus.
pub fn play_accepted(out: &mut [u8], key: Name, time: u32, stream: StreamId) -> Option<usize>
    ensures { (result, out.new) ≡ sent (play_accepted (text_of key) time stream.0) out.old }
{
    let key = key.text();
    let total = 367 + key.len();
    let p = 273 + key.len();
    if out.len() < total {
        return None;
    }
    write_play(out, key, time, stream);
    write_play_data(&mut out[p..], time, stream);
    Some(total)
}

// A finished play.
pub fn play_finished(out: &mut [u8], key: Name, time: u32, stream: StreamId) -> Option<usize>
    ensures { (result, out.new) ≡ sent (play_finished (text_of key) time stream.0) out.old }
{
    let key = key.text();
    let total = 135 + key.len();
    if out.len() < total {
        return None;
    }
    write_status(
        out,
        b"onStatus",
        0,
        b"status",
        b"NetStream.Play.Complete",
        b"Stream playback is completed for ",
        key,
        time,
        stream,
    );
    Some(total)
}

// Accepted connect.
pub fn connect_accepted(
    out: &mut [u8],
    transaction: u64,
    version: Name,
    app: Name,
    encoding: u64,
    time: u32,
) -> Option<usize>
    ensures { (result, out.new) ≡ sent (connect_accepted transaction (text_of version) (text_of app) encoding time) out.old }
{
    let version = version.text();
    let app = app.text();
    let total = 200 + version.len() + app.len();
    if out.len() < total {
        return None;
    }
    write_connected(out, transaction, version, app, encoding, time);
    Some(total)
}

// An audio or a video record, type 8 or 9, with its body copied.
pub fn media_record(
    out: &mut [u8],
    kind: u8,
    time: u32,
    stream: StreamId,
    droppable: bool,
    body: &[u8],
) -> Option<usize>
    ensures { (result, out.new) ≡ sent (media kind time stream.0 droppable body.now) out.old }
{
    if out.len() < 13 {
        return None;
    }
    if out.len() - 13 < body.len() {
        return None;
    }
    let flags = dropping_of(droppable);
    write_body(out, kind, body, time, stream, flags);
    Some(13 + body.len())
}

fn dropping_of(droppable: bool) -> u8
    ensures { result ≡ dropping droppable }
{
    if droppable { 2 } else { 0 }
}

pub fn ping_request(out: &mut [u8], time: u32) -> Option<usize>
    ensures { (result, out.new) ≡ sent (ping_request time) out.old }
{
    if out.len() < 19 {
        return None;
    }
    write_event(out, 6, time, time, StreamId(0), 0);
    Some(19)
}

pub fn ping_response(out: &mut [u8], x: u32, time: u32) -> Option<usize>
    ensures { (result, out.new) ≡ sent (ping_response x time) out.old }
{
    if out.len() < 19 {
        return None;
    }
    write_event(out, 7, x, time, StreamId(0), 0);
    Some(19)
}
