// Commands with a status object, and commands with a number.
ghost use Rattle.std.specs.Prelude.{◌≡◌, ◌++◌, ◌+◌, ◌≤◌, ◌<◌, length};
ghost use Rattle.numbers.specs.Fields.{front, over};
ghost use Rattle.amf0.specs.Writing.{encode_of};
ghost use Rattle.record.specs.Bodies.{connected_status, open_status, string_pair, version_object};
ghost use Rattle.record.specs.Records.{command, connect_accepted, connected_row, number_row, status_row};

use crate::header::write_header;
use amf0::{
    write_name_at, write_null_at, write_number_at, write_object_begin_at, write_object_end_at,
    write_string_at,
};
use numbers::{write_bytes_at, write_field_at};
use text::StreamId;

// A property whose value is a string of two parts.
fn write_pair_at(out: &mut [u8], at: usize, name: &[u8], part: &[u8], more: &[u8])
    requires { (length name.now < 256) × ((length part.now < 512) × ((length more.now < 512) × (at + (5 + length name.now + length part.now + length more.now) ≤ length out.old))) }
    ensures { out.new ≡ over at (string_pair name.now (part.now ++ more.now)) out.old }
{
    let p = at + 2 + name.len();
    let q = p + 3 + part.len();
    write_name_at(out, at, name);
    write_field_at(out, p, 1, 0x02);
    write_field_at(out, p + 1, 2, (part.len() + more.len()) as u64);
    write_bytes_at(out, p + 3, part);
    write_bytes_at(out, q, more);
}

// A status object up to its end mark: level, code, description.
fn write_open_status_at(
    out: &mut [u8],
    at: usize,
    level: &[u8],
    code: &[u8],
    part: &[u8],
    more: &[u8],
)
    requires { (length level.now < 256) × ((length code.now < 512) × ((length part.now < 512) × ((length more.now < 512) × (at + (36 + length level.now + length code.now + length part.now + length more.now) ≤ length out.old)))) }
    ensures { out.new ≡ over at (open_status level.now code.now (part.now ++ more.now)) out.old }
{
    let p = at + 11 + level.len();
    let q = p + 9 + code.len();
    write_object_begin_at(out, at);
    write_pair_at(out, at + 1, b"level", level, b"");
    write_pair_at(out, p, b"code", code, b"");
    write_pair_at(out, q, b"description", part, more);
}

// A name, a transaction, null and a status object.
fn write_status_body_at(
    out: &mut [u8],
    at: usize,
    name: &[u8],
    transaction: u64,
    level: &[u8],
    code: &[u8],
    part: &[u8],
    more: &[u8],
)
    requires { (length name.now < 256) × ((length level.now < 256) × ((length code.now < 512) × ((length part.now < 512) × ((length more.now < 512) × (at + (52 + length name.now + length level.now + length code.now + length part.now + length more.now) ≤ length out.old))))) }
    ensures { out.new ≡ over at (encode_of (status_row name.now transaction level.now code.now (part.now ++ more.now))) out.old }
{
    let p = at + 3 + name.len();
    let e = p + 46 + level.len() + code.len() + part.len() + more.len();
    write_string_at(out, at, name);
    write_number_at(out, p, transaction);
    write_null_at(out, p + 9);
    write_open_status_at(out, p + 10, level, code, part, more);
    write_object_end_at(out, e);
}

// A command with a name, a transaction, null and a status object.
pub fn write_status(
    out: &mut [u8],
    name: &[u8],
    transaction: u64,
    level: &[u8],
    code: &[u8],
    part: &[u8],
    more: &[u8],
    time: u32,
    stream: StreamId,
)
    requires { (length name.now < 256) × ((length level.now < 256) × ((length code.now < 512) × ((length part.now < 512) × ((length more.now < 512) × (65 + length name.now + length level.now + length code.now + length part.now + length more.now ≤ length out.old))))) }
    ensures { out.new ≡ front (command time stream.0 0 (status_row name.now transaction level.now code.now (part.now ++ more.now))) out.old }
{
    let len = 52 + name.len() + level.len() + code.len() + part.len() + more.len();
    write_header(out, 20, len, time, stream, 0);
    write_status_body_at(out, 13, name, transaction, level, code, part, more);
}

// A command with a name, a transaction, null and a number.
pub fn write_number_answer(
    out: &mut [u8],
    name: &[u8],
    transaction: u64,
    bits: u64,
    time: u32,
    flags: u8,
)
    requires { (length name.now < 256) × (35 + length name.now ≤ length out.old) }
    ensures { out.new ≡ front (command time 0 flags (number_row name.now transaction bits)) out.old }
{
    let len = 22 + name.len();
    let p = 16 + name.len();
    write_header(out, 20, len, time, StreamId(0), flags);
    write_string_at(out, 13, name);
    write_number_at(out, p, transaction);
    write_null_at(out, p + 9);
    write_number_at(out, p + 10, bits);
}

// The command object of an accepted connect: fmsVer and capabilities, 31.
fn write_version_at(out: &mut [u8], at: usize, version: &[u8])
    requires { (length version.now < 256) × (at + (38 + length version.now) ≤ length out.old) }
    ensures { out.new ≡ over at (version_object version.now) out.old }
{
    let p = at + 12 + version.len();
    write_object_begin_at(out, at);
    write_pair_at(out, at + 1, b"fmsVer", version, b"");
    write_name_at(out, p, b"capabilities");
    write_number_at(out, p + 14, 0x403F000000000000);
    write_object_end_at(out, p + 23);
}

// Its status object, with the encoding.
fn write_connected_status_at(out: &mut [u8], at: usize, app: &[u8], encoding: u64)
    requires { (length app.now < 256) × (at + (130 + length app.now) ≤ length out.old) }
    ensures { out.new ≡ over at (connected_status app.now encoding) out.old }
{
    let p = at + 102 + app.len();
    write_open_status_at(
        out,
        at,
        b"status",
        b"NetConnection.Connect.Success",
        b"Successfully connected on app: ",
        app,
    );
    write_name_at(out, p, b"objectEncoding");
    write_number_at(out, p + 16, encoding);
    write_object_end_at(out, p + 25);
}

fn write_connected_body_at(
    out: &mut [u8],
    at: usize,
    transaction: u64,
    version: &[u8],
    app: &[u8],
    encoding: u64,
)
    requires { (length version.now < 256) × ((length app.now < 256) × (at + (187 + length version.now + length app.now) ≤ length out.old)) }
    ensures { out.new ≡ over at (encode_of (connected_row transaction version.now app.now encoding)) out.old }
{
    let p = at + 57 + version.len();
    write_string_at(out, at, b"_result");
    write_number_at(out, at + 10, transaction);
    write_version_at(out, at + 19, version);
    write_connected_status_at(out, p, app, encoding);
}

// The answer to an accepted connect.
pub fn write_connected(
    out: &mut [u8],
    transaction: u64,
    version: &[u8],
    app: &[u8],
    encoding: u64,
    time: u32,
)
    requires { (length version.now < 256) × ((length app.now < 256) × (200 + length version.now + length app.now ≤ length out.old)) }
    ensures { out.new ≡ front (connect_accepted transaction version.now app.now encoding time) out.old }
{
    let len = 187 + version.len() + app.len();
    write_header(out, 20, len, time, StreamId(0), 0);
    write_connected_body_at(out, 13, transaction, version, app, encoding);
}
