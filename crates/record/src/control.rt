// Records whose body is one field, or two.
ghost use Rattle.std.specs.Prelude.{◌≡◌, ◌++◌, ◌+◌, ◌≤◌, length};
ghost use Rattle.numbers.specs.Fields.{bytes_of, front};
ghost use Rattle.record.specs.Records.{data_started, record_of, sample_access, user_control};

use crate::header::write_header;
use numbers::{write_bytes_at, write_field_at};
use text::StreamId;

// A start record with a body of four bytes.
pub fn write_size(out: &mut [u8], kind: u8, x: u32)
    requires { 17 ≤ length out.old }
    ensures { out.new ≡ front (record_of kind 0 0 1 (bytes_of 4 x)) out.old }
{
    write_header(out, kind, 4, 0, StreamId(0), 1);
    write_field_at(out, 13, 4, x as u64);
}

// Peer bandwidth, dynamic.
pub fn write_bandwidth(out: &mut [u8], x: u32)
    requires { 18 ≤ length out.old }
    ensures { out.new ≡ front (record_of 6 0 0 1 (bytes_of 4 x ++ bytes_of 1 2)) out.old }
{
    write_header(out, 6, 5, 0, StreamId(0), 1);
    write_field_at(out, 13, 4, x as u64);
    write_field_at(out, 17, 1, 2);
}

pub fn write_event(out: &mut [u8], event: u8, x: u32, time: u32, stream: StreamId, flags: u8)
    requires { 19 ≤ length out.old }
    ensures { out.new ≡ front (user_control event x time stream.0 flags) out.old }
{
    write_header(out, 4, 6, time, stream, flags);
    write_field_at(out, 13, 2, event as u64);
    write_field_at(out, 15, 4, x as u64);
}

// A record with a body that is at hand: media, and bodies that never change.
pub fn write_body(out: &mut [u8], kind: u8, body: &[u8], time: u32, stream: StreamId, flags: u8)
    requires { 13 + length body.now ≤ length out.old }
    ensures { out.new ≡ front (record_of kind time stream.0 flags body.now) out.old }
{
    write_header(out, kind, body.len(), time, stream, flags);
    write_bytes_at(out, 13, body);
}

// The two data records of an accepted play.
pub fn write_sample_access(out: &mut [u8], time: u32, stream: StreamId)
    requires { 37 ≤ length out.old }
    ensures { out.new ≡ front (sample_access time stream.0) out.old }
{
    write_body(
        out,
        18,
        b"\x02\x00\x11|RtmpSampleAccess\x01\x00\x01\x00",
        time,
        stream,
        0,
    );
}

pub fn write_data_started(out: &mut [u8], time: u32, stream: StreamId)
    requires { 57 ≤ length out.old }
    ensures { out.new ≡ front (data_started time stream.0) out.old }
{
    write_body(
        out,
        18,
        b"\x02\x00\x08onStatus\x03\x00\x04code\x02\x00\x14NetStream.Data.Start\x00\x00\x09",
        time,
        stream,
        0,
    );
}
