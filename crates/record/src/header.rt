// The thirteen bytes before a record's body.
ghost use Rattle.std.specs.Prelude.{◌≡◌, ◌≤◌, length};
ghost use Rattle.numbers.specs.Fields.{front};
ghost use Rattle.record.specs.Records.{header};

use numbers::write_field_at;
use text::StreamId;

pub fn write_header(out: &mut [u8], kind: u8, len: usize, time: u32, stream: StreamId, flags: u8)
    requires { 13 ≤ length out.old }
    ensures { out.new ≡ front (header kind len time stream.0 flags) out.old }
{
    write_field_at(out, 0, 1, kind as u64);
    write_field_at(out, 1, 3, len as u64);
    write_field_at(out, 4, 4, time as u64);
    write_field_at(out, 8, 4, stream.0 as u64);
    write_field_at(out, 12, 1, flags as u64);
}
