// Writes every record once, and the refusals for room, with the bytes in hexadecimal. A line is a name, the written
// count and the bytes; `none` where nothing was written; `spilt` where a byte past the count is no longer A5.
#![tactic(auto)]

mod show;

ghost use Rattle.std.specs.Prelude.{◌≤◌};

use show::show;
use std::io;
use std::io::Write;
use text::{Name, StreamId};

// The longest name of one letter.
fn longest(b: u8) -> Name {
    word(&[b; 128])
}

fn word(part: &[u8]) -> Name {
    text::read_name(part).unwrap_or(text::empty_name())
}

// One record, or its refusal, in the first `room` bytes of a buffer of A5.
fn told<W: Write, F: FnOnce(&mut [u8]) -> Option<usize>>(
    output: &mut W,
    name: &[u8],
    room: usize,
    write: F,
) -> io::Result<()>
    requires { (room ≤ 900) × F.IsAlwaysCallable write }
{
    let mut out = [0xA5; 900];
    let out = &mut out[..room];
    let sent = write(out);
    show(output, name, sent, out)
}

fn starts(output: &mut impl Write) -> io::Result<()> {
    told(
        output,
        b"start-71",
        900,
        |out| answers::start_records(out, 4096, 2500000, 2500000, false),
    )?;
    told(
        output,
        b"start-114",
        900,
        |out| answers::start_records(out, 4096, 2500000, 2500000, true),
    )?;
    told(
        output,
        b"start-odd",
        900,
        |out| answers::start_records(out, 1, 0, 4294967295, true),
    )?;
    told(
        output,
        b"start-short",
        70,
        |out| answers::start_records(out, 4096, 2500000, 2500000, false),
    )?;
    told(
        output,
        b"start-short-done",
        113,
        |out| answers::start_records(out, 4096, 2500000, 2500000, true),
    )
}

fn creations(output: &mut impl Write) -> io::Result<()> {
    told(
        output,
        b"created",
        900,
        |out| answers::stream_created(out, 0x4010000000000000, StreamId(1), 0),
    )?;
    told(
        output,
        b"created-last",
        900,
        |out| answers::stream_created(out, 0x7FF8000000000001, StreamId(4294967294), 4294967295),
    )?;
    told(
        output,
        b"created-short",
        41,
        |out| answers::stream_created(out, 0x4010000000000000, StreamId(1), 0),
    )
}

fn connects(output: &mut impl Write) -> io::Result<()> {
    told(
        output,
        b"connect",
        900,
        |out| answers::connect_accepted(
            out,
            0x3FF0000000000000,
            word(b"FMS/3,0,1,1233"),
            word(b"live"),
            0,
            5,
        ),
    )?;
    told(
        output,
        b"connect-empty",
        900,
        |out| answers::connect_accepted(
            out,
            0,
            word(b""),
            word(b""),
            0xFFF0000000000001,
            4294967295,
        ),
    )?;
    told(
        output,
        b"connect-long",
        900,
        |out| answers::connect_accepted(
            out,
            0x4000000000000000,
            longest(b'v'),
            longest(b'a'),
            0x4008000000000000,
            65536,
        ),
    )?;
    told(
        output,
        b"connect-short",
        217,
        |out| answers::connect_accepted(
            out,
            0x3FF0000000000000,
            word(b"FMS/3,0,1,1233"),
            word(b"live"),
            0,
            5,
        ),
    )
}

fn publishes(output: &mut impl Write) -> io::Result<()> {
    told(
        output,
        b"publish",
        900,
        |out| answers::publish_accepted(out, word(b"pin7"), 7, StreamId(1)),
    )?;
    told(
        output,
        b"publish-short",
        170,
        |out| answers::publish_accepted(out, word(b"pin7"), 7, StreamId(1)),
    )?;
    told(
        output,
        b"publish-empty",
        900,
        |out| answers::publish_accepted(out, word(b""), 0, StreamId(4294967295)),
    )?;
    told(
        output,
        b"publish-long",
        900,
        |out| answers::publish_accepted(out, longest(b'k'), 1, StreamId(2)),
    )
}

fn plays(output: &mut impl Write) -> io::Result<()> {
    told(
        output,
        b"play",
        900,
        |out| answers::play_accepted(out, word(b"pin7"), 9, StreamId(3)),
    )?;
    told(
        output,
        b"play-short",
        370,
        |out| answers::play_accepted(out, word(b"pin7"), 9, StreamId(3)),
    )?;
    told(
        output,
        b"play-long",
        900,
        |out| answers::play_accepted(out, longest(b'k'), 16777216, StreamId(16)),
    )?;
    told(
        output,
        b"finish",
        900,
        |out| answers::play_finished(out, word(b"pin7"), 11, StreamId(5)),
    )?;
    told(
        output,
        b"finish-short",
        138,
        |out| answers::play_finished(out, word(b"pin7"), 11, StreamId(5)),
    )
}

fn errors(output: &mut impl Write) -> io::Result<()> {
    told(
        output,
        b"error",
        900,
        |out| answers::error_record(
            out,
            0x4014000000000000,
            b"NetStream.Publish.Start",
            b"Invalid publish arguments",
            13,
            StreamId(1),
        ),
    )?;
    told(
        output,
        b"error-empty",
        900,
        |out| answers::error_record(out, 0, b"", b"", 0, StreamId(0)),
    )?;
    told(
        output,
        b"error-long",
        900,
        |out| answers::error_record(out, 0, &[b'c'; 256], &[b'd'; 256], 1, StreamId(4294967295)),
    )?;
    told(
        output,
        b"error-short",
        123,
        |out| answers::error_record(
            out,
            0x4014000000000000,
            b"NetStream.Publish.Start",
            b"Invalid publish arguments",
            13,
            StreamId(1),
        ),
    )
}

fn medias(output: &mut impl Write) -> io::Result<()> {
    told(
        output,
        b"audio",
        900,
        |out| answers::media_record(out, 8, 1000, StreamId(1), false, b"\x01\x02\x03"),
    )?;
    told(
        output,
        b"video",
        900,
        |out| answers::media_record(out, 9, 4294967295, StreamId(7), true, b"\x00\xFF"),
    )?;
    told(
        output,
        b"media-empty",
        900,
        |out| answers::media_record(out, 9, 0, StreamId(1), true, b""),
    )?;
    told(
        output,
        b"media-short",
        15,
        |out| answers::media_record(out, 8, 1000, StreamId(1), false, b"\x01\x02\x03"),
    )?;
    told(
        output,
        b"media-shorter",
        12,
        |out| answers::media_record(out, 8, 1000, StreamId(1), false, b"\x01\x02\x03"),
    )
}

fn pings(output: &mut impl Write) -> io::Result<()> {
    told(
        output,
        b"ping-request",
        900,
        |out| answers::ping_request(out, 17),
    )?;
    told(
        output,
        b"ping-response",
        900,
        |out| answers::ping_response(out, 305419896, 19),
    )?;
    told(
        output,
        b"ping-short",
        18,
        |out| answers::ping_request(out, 17),
    )
}

fn times(output: &mut impl Write) -> io::Result<()> {
    show::time(output, 9, 5)?;
    show::time(output, 5, 9)?;
    show::time(output, 0, 4294967296)?;
    show::time(output, 1, 4294967296)?;
    show::time(output, 100, 4294967395)?;
    show::time(output, 0, 18446744073709551615)
}

fn main(rt: HostRuntime) -> io::Result<()> {
    let mut output = rt.stdout();
    starts(&mut output)?;
    creations(&mut output)?;
    connects(&mut output)?;
    publishes(&mut output)?;
    plays(&mut output)?;
    errors(&mut output)?;
    medias(&mut output)?;
    pings(&mut output)?;
    times(&mut output)
}
