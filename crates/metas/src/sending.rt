// The record of the metadata, into a buffer of A5.
use crate::show::{bytes, kept, number, say};
use metadata::StreamMetadata;
use std::io;
use std::io::Write;
use text::StreamId;

// Into the first n bytes alone.
fn send(out: &mut [u8], n: usize, m: StreamMetadata) -> Option<usize> {
    if out.len() < n {
        return None;
    }
    metadata::metadata_record(&mut out[..n], m, 7, StreamId(3))
}

// Whether n bytes are refused, and left as they were.
fn refused(n: usize, m: StreamMetadata) -> bool {
    let mut out = [0xA5u8; 600];
    send(&mut out, n, m).is_none() && kept(&out, 0)
}

// Whether the metadata read from a record's body has this record again.
fn comes_back(out: &[u8], body: &[u8]) -> bool {
    let Ok(m) = metadata::read_metadata(body, amf0::place_of(body, 1)) else {
        return false;
    };
    let mut again = [0xA5u8; 600];
    send(&mut again, 600, m).is_some() && text::is_word(out, &again)
}

fn write_tests(
    output: &mut impl Write,
    m: StreamMetadata,
    out: &[u8],
    count: usize,
) -> io::Result<()> {
    if count < 13 {
        return Ok(());
    }
    if refused(count - 1, m) {
        say(output, b" short")?;
    } else {
        say(output, b" NOTSHORT")?;
    }
    if comes_back(out, text::part_of(out, 13, count - 13)) {
        say(output, b" back")
    } else {
        say(output, b" NOTBACK")
    }
}

pub fn write_record(output: &mut impl Write, m: StreamMetadata) -> io::Result<()> {
    let mut out = [0xA5u8; 600];
    let count = send(&mut out, 600, m).unwrap_or(0);
    say(output, b"record=")?;
    number(output, count as u64)?;
    say(output, b":")?;
    bytes(output, &out, count)?;
    if !kept(&out, count) {
        say(output, b" spilt")?;
    }
    write_tests(output, m, &out, count)
}
