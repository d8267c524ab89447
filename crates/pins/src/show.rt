// What the program writes. Every line says what went in and what came out.
use numbers::PlayStartValue;
use std::io;
use std::io::Write;
use text::{Command, PublishMode};

pub fn say(output: &mut impl Write, words: &[u8]) -> io::Result<()> {
    output.write_all(words)
}

pub fn line(output: &mut impl Write) -> io::Result<()> {
    say(output, b"\n")
}

// With zeros in front, up to `width` digits.
pub fn hex(output: &mut impl Write, x: u64, width: usize) -> io::Result<()> {
    write!(output, "{x:0width$x}")
}

pub fn number(output: &mut impl Write, x: u64) -> io::Result<()> {
    write!(output, "{x}")
}

pub fn show_u32(output: &mut impl Write, what: &[u8], bits: u64) -> io::Result<()> {
    say(output, what)?;
    number(output, numbers::u32_of(bits) as u64)?;
    line(output)
}

// The single as the whole number that it is.
pub fn show_single(output: &mut impl Write, what: &[u8], bits: u64) -> io::Result<()> {
    let single = numbers::double_of_single(numbers::single_of(bits));
    say(output, what)?;
    number(output, numbers::u32_of(single) as u64)?;
    line(output)
}

pub fn show_double(output: &mut impl Write, what: &[u8], n: u32) -> io::Result<()> {
    say(output, what)?;
    hex(output, numbers::double_of_u32(n), 16)?;
    line(output)
}

pub fn write_start(output: &mut impl Write, bits: u64) -> io::Result<()> {
    match numbers::start_of(bits) {
        PlayStartValue::LiveOrRecorded => say(output, b"live-or-recorded"),
        PlayStartValue::LiveOnly => say(output, b"live-only"),
        PlayStartValue::StartTimeInSeconds(n) => number(output, n as u64),
    }
}

pub fn write_duration(output: &mut impl Write, bits: u64) -> io::Result<()> {
    match numbers::duration_of(bits) {
        Some(n) => number(output, n as u64),
        None => say(output, b"none"),
    }
}

pub fn show_start(output: &mut impl Write, what: &[u8], bits: u64) -> io::Result<()> {
    say(output, what)?;
    write_start(output, bits)?;
    line(output)
}

// As `show_start`: one function for both would take the writer as a closure, and be longer.
pub fn show_duration(output: &mut impl Write, what: &[u8], bits: u64) -> io::Result<()> {
    say(output, what)?;
    write_duration(output, bits)?;
    line(output)
}

// Fields of 1, 2, 3, 4 and 8 bytes, one after the other in a buffer of A5.
fn fields_of(x: u64) -> [u8; 20] {
    let mut out = [0xA5u8; 20];
    numbers::write_field_at(&mut out, 0, 1, x);
    numbers::write_field_at(&mut out, 1, 2, x);
    numbers::write_field_at(&mut out, 3, 3, x);
    numbers::write_field_at(&mut out, 6, 4, x);
    numbers::write_field_at(&mut out, 10, 8, x);
    out
}

// They are read back, and then the two bytes past them, and two of which the second lies past the end.
pub fn show_fields(output: &mut impl Write, x: u64) -> io::Result<()> {
    let out = fields_of(x);
    say(output, b"fields of ")?;
    hex(output, x, 16)?;
    say(output, b" give ")?;
    write_fields(output, out)?;
    write_past(output, out)?;
    line(output)
}

fn write_fields(output: &mut impl Write, out: [u8; 20]) -> io::Result<()> {
    hex(output, numbers::byte_at(&out, 0) as u64, 2)?;
    say(output, b" ")?;
    hex(output, numbers::u16_at(&out, 1) as u64, 4)?;
    say(output, b" ")?;
    hex(output, numbers::u24_at(&out, 3) as u64, 6)?;
    say(output, b" ")?;
    hex(output, numbers::u32_at(&out, 6) as u64, 8)?;
    say(output, b" ")?;
    hex(output, numbers::u64_at(&out, 10), 16)
}

fn write_past(output: &mut impl Write, out: [u8; 20]) -> io::Result<()> {
    say(output, b", past them ")?;
    hex(output, numbers::u16_at(&out, 18) as u64, 4)?;
    say(output, b", past the end ")?;
    hex(output, numbers::u16_at(&out, 19) as u64, 4)
}

fn write_command(output: &mut impl Write, name: &[u8]) -> io::Result<()> {
    match text::command_of(name) {
        Command::Connect => say(output, b"connect"),
        Command::CreateStream => say(output, b"createStream"),
        Command::CloseStream => say(output, b"closeStream"),
        Command::DeleteStream => say(output, b"deleteStream"),
        Command::Publish => say(output, b"publish"),
        Command::Play => say(output, b"play"),
        Command::Other => say(output, b"none"),
    }
}

pub fn show_command(output: &mut impl Write, name: &[u8]) -> io::Result<()> {
    say(output, b"command \"")?;
    say(output, name)?;
    say(output, b"\" is ")?;
    write_command(output, name)?;
    line(output)
}

fn write_mode(output: &mut impl Write, mode: PublishMode) -> io::Result<()> {
    match mode {
        PublishMode::Live => say(output, b"live"),
        PublishMode::Append => say(output, b"append"),
        PublishMode::Record => say(output, b"record"),
    }
}

pub fn show_mode(output: &mut impl Write, word: &[u8]) -> io::Result<()> {
    say(output, b"mode \"")?;
    say(output, word)?;
    say(output, b"\" is ")?;
    match text::mode_of(word) {
        Some(mode) => write_mode(output, mode)?,
        None => say(output, b"none")?,
    }
    line(output)
}

pub fn show_name(output: &mut impl Write, part: &[u8]) -> io::Result<()> {
    say(output, b"a name of ")?;
    number(output, part.len() as u64)?;
    match text::read_name(part) {
        Some(name) => {
            say(output, b" bytes fits and is \"")?;
            say(output, name.text())?;
            say(output, b"\"")?;
            if text::name_is(name, part) {
                say(output, b", its own text")?;
            }
        }
        None => say(output, b" bytes is refused")?,
    }
    line(output)
}
