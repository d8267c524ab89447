// Runs the number pins of the bench plate, a few fields, words and names, and then the vectors on standard input.
// A vector is a line: `d` and a double's 16 hexadecimal digits; or `b`, an AMF0 body's length in four digits, and the body's.
#![tactic(auto)]

mod body;
mod show;
mod vector;

use input::read_full;
use show::{
    say, show_command, show_double, show_duration, show_fields, show_mode, show_name, show_single,
    show_start, show_u32,
};
use std::io;
use std::io::{Read, Write};

fn number_pins(output: &mut impl Write) -> io::Result<()> {
    show_u32(output, b"4294967296.0 as u32 gives ", 0x41F0000000000000)?;
    show_u32(output, b"0.9 as u32 gives ", 0x3FECCCCCCCCCCCCD)?;
    show_single(output, b"16777217 as single gives ", 0x4170000010000000)?;
    show_single(output, b"16777219 as single gives ", 0x4170000030000000)?;
    show_start(output, b"start -0.0 gives ", 0x8000000000000000)?;
    show_start(output, b"start -0.5 gives ", 0xBFE0000000000000)?;
    show_start(output, b"start -1 gives ", 0xBFF0000000000000)?;
    show_start(output, b"start -2 gives ", 0xC000000000000000)?;
    show_start(output, b"start NaN gives ", 0x7FF8000000000000)?;
    show_duration(output, b"duration NaN gives ", 0x7FF8000000000000)?;
    show_duration(output, b"duration -0.0 gives ", 0x8000000000000000)?;
    show_double(output, b"8192 as double gives ", 8192)
}

fn word_pins(output: &mut impl Write) -> io::Result<()> {
    show_command(output, b"connect")?;
    show_command(output, b"createStream")?;
    show_command(output, b"closeStream")?;
    show_command(output, b"deleteStream")?;
    show_command(output, b"publish")?;
    show_command(output, b"play")?;
    show_command(output, b"Play")?;
    show_command(output, b"playe")?;
    show_command(output, b"")?;
    show_mode(output, b"live")?;
    show_mode(output, b"append")?;
    show_mode(output, b"record")?;
    show_mode(output, b"LIVE")
}

fn name_pins(output: &mut impl Write) -> io::Result<()> {
    let key = [b'k'; 129];
    show_name(output, b"pin7")?;
    show_name(output, b"")?;
    show_name(output, &key[..128])?;
    show_name(output, &key)
}

// Whether there was another whole line.
fn next(input: &mut impl Read, output: &mut impl Write) -> io::Result<bool> {
    let mut kind = [0u8; 2];
    if read_full(input, &mut kind)? < 2 {
        return Ok(false);
    }
    match kind[0] {
        b'd' => vector::run_double(input, output),
        b'b' => body::run_body(input, output),
        _ => Ok(false),
    }
}

// A proved loop has to end: the count is one that no file of vectors reaches.
fn run_all(input: &mut impl Read, output: &mut impl Write) -> io::Result<()> {
    for _ in 0..u32::MAX {
        if !next(input, output)? {
            break;
        }
    }
    Ok(())
}

fn main(rt: HostRuntime) -> io::Result<()> {
    let mut output = rt.stdout();
    number_pins(&mut output)?;
    show_fields(&mut output, 0x0102030405060708)?;
    show_fields(&mut output, 0xFFFEFDFCFBFAF9F8)?;
    word_pins(&mut output)?;
    name_pins(&mut output)?;
    say(&mut output, b"vectors\n")?;
    run_all(&mut rt.stdin(), &mut output)
}
