// Reads metadata, writes its fields and its record, and reads that record again, for each line of standard input.
// A line is `m`, an AMF0 body's length in four hexadecimal digits, and the body's. The body's first value is the metadata.
#![tactic(auto)]

mod fields;
mod sending;
mod show;

use input::{read_full, read_spelled};
use show::say;
use std::io;
use std::io::{Read, Write};

fn write_line(output: &mut impl Write, body: &[u8]) -> io::Result<()> {
    match metadata::read_metadata(body, 0) {
        Ok(m) => {
            fields::write_fields(output, m)?;
            sending::write_record(output, m)?;
            say(output, b"\n")
        }
        Err(_) => say(output, b"long\n"),
    }
}

// Whether there was another whole line.
fn next(input: &mut impl Read, output: &mut impl Write) -> io::Result<bool> {
    let mut kind = [0u8; 2];
    let mut count = [0u8; 2];
    let mut bytes = [0u8; 4200];
    if read_full(input, &mut kind)? < 2 || kind[0] != b'm' || !read_spelled(input, &mut count)? {
        return Ok(false);
    }
    let n = numbers::u16_at(&count, 0) as usize;
    if bytes.len() < n || !read_spelled(input, &mut bytes[..n])? {
        return Ok(false);
    }
    write_line(output, &bytes[..n])?;
    Ok(true)
}

// A proved loop has to end: the count is one that no file of vectors reaches.
fn run_all(input: &mut impl Read, output: &mut impl Write) -> io::Result<()> {
    for _ in 0..u32::MAX {
        if !next(input, output)? {
            break;
        }
    }
    Ok(())
}

fn main(rt: HostRuntime) -> io::Result<()> {
    let mut output = rt.stdout();
    run_all(&mut rt.stdin(), &mut output)
}
