// One AMF0 body: read, checked, and its values written as a line.
use crate::show::{hex, line, say};
use amf0::{Amf0Value, BodyError, Cursor};
use input::read_spelled;
use std::io;
use std::io::{Read, Write};

// A text's bytes, where they are in the body.
fn write_text(output: &mut impl Write, body: &[u8], start: usize, len: usize) -> io::Result<()> {
    if len == 0 {
        return say(output, b"-");
    }
    if body.len() < start || body.len() - start < len {
        return Ok(());
    }
    for b in &body[start..start + len] {
        hex(output, *b as u64, 2)?;
    }
    Ok(())
}

fn write_number(output: &mut impl Write, body: &[u8], at: usize) -> io::Result<()> {
    say(output, b"number=")?;
    if at < body.len() {
        hex(output, numbers::u64_at(body, at + 1), 16)?;
    }
    Ok(())
}

fn write_boolean(output: &mut impl Write, b: bool) -> io::Result<()> {
    say(output, if b { b"boolean=1" } else { b"boolean=0" })
}

fn write_value(output: &mut impl Write, body: &[u8], at: usize) -> io::Result<()> {
    let Some(read) = amf0::read_value(body, at) else {
        return say(output, b"none");
    };
    match read.value {
        Amf0Value::Number(_) => write_number(output, body, at),
        Amf0Value::Boolean(b) => write_boolean(output, b),
        Amf0Value::Text { start, len } => {
            say(output, b"string=")?;
            write_text(output, body, start, len)
        }
        Amf0Value::Object { .. } => say(output, b"object"),
        Amf0Value::Null => say(output, b"null"),
        Amf0Value::Undefined => say(output, b"undefined"),
        Amf0Value::EcmaArray { .. } => say(output, b"array"),
        Amf0Value::StrictArray { .. } => say(output, b"strict"),
        Amf0Value::Date => say(output, b"date"),
        Amf0Value::LongText { start, len } => {
            say(output, b"long=")?;
            write_text(output, body, start, len)
        }
    }
}

fn has_properties(body: &[u8], at: usize) -> bool {
    match amf0::read_value(body, at) {
        Some(read) => matches!(read.value, Amf0Value::Object { .. }),
        None => false,
    }
}

// The value of the last property "a".
fn write_property(output: &mut impl Write, body: &[u8], at: usize) -> io::Result<()> {
    say(output, b"[")?;
    match amf0::last_property(body, at, b"a") {
        Some(p) => write_value(output, body, p)?,
        None => say(output, b"none")?,
    }
    say(output, b"]")
}

fn write_one(output: &mut impl Write, body: &[u8], at: usize) -> io::Result<()> {
    say(output, b" ")?;
    write_value(output, body, at)?;
    if has_properties(body, at) {
        write_property(output, body, at)?;
    }
    Ok(())
}

// Whether the cursor stands where the n-th value begins. (Only the first ones are looked up from the start.)
fn in_place(body: &[u8], n: usize, at: usize) -> bool {
    16 <= n || amf0::place_of(body, n) == at
}

// The values one after the other, by a cursor.
fn write_values(output: &mut impl Write, body: &[u8]) -> io::Result<()> {
    let mut at = Cursor::start().at;
    for n in 0..body.len() {
        if body.len() <= at {
            break;
        }
        if in_place(body, n, at) {
            write_one(output, body, at)?;
        } else {
            say(output, b" misplaced")?;
        }
        at = Cursor { at }.next(body).at;
    }
    Ok(())
}

fn write_body(output: &mut impl Write, body: &[u8]) -> io::Result<()> {
    match amf0::check_body(body) {
        Ok(()) => {
            say(output, b"whole")?;
            write_values(output, body)?;
        }
        Err(BodyError::NotAmf0) => say(output, b"bad")?,
        Err(BodyError::TooDeep) => say(output, b"deep")?,
    }
    line(output)
}

// Its length in four digits, and it. Whether there was a whole one.
pub fn run_body(input: &mut impl Read, output: &mut impl Write) -> io::Result<bool> {
    let mut count = [0u8; 2];
    let mut bytes = [0u8; 4200];
    if !read_spelled(input, &mut count)? {
        return Ok(false);
    }
    let n = numbers::u16_at(&count, 0) as usize;
    if bytes.len() < n || !read_spelled(input, &mut bytes[..n])? {
        return Ok(false);
    }
    write_body(output, &bytes[..n])?;
    Ok(true)
}
