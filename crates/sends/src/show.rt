// What the program writes.
use std::io;
use std::io::Write;

fn say(output: &mut impl Write, words: &[u8]) -> io::Result<()> {
    output.write_all(words)
}

fn number(output: &mut impl Write, x: u64) -> io::Result<()> {
    write!(output, "{x}")
}

// The first n bytes.
fn bytes(output: &mut impl Write, out: &[u8], n: usize) -> io::Result<()> {
    for b in out.iter().take(n) {
        write!(output, "{b:02x}")?;
    }
    Ok(())
}

// Whether every byte from n on is still A5.
fn kept(out: &[u8], n: usize) -> bool {
    out.iter().skip(n).all(|b| *b == 0xA5)
}

pub fn show(
    output: &mut impl Write,
    name: &[u8],
    sent: Option<usize>,
    out: &[u8],
) -> io::Result<()> {
    say(output, name)?;
    match sent {
        Some(count) => {
            say(output, b" ")?;
            number(output, count as u64)?;
            say(output, b" ")?;
            bytes(output, out, count)?;
        }
        None => say(output, b" none")?,
    }
    if kept(out, sent.unwrap_or(0)) {
        say(output, b"\n")
    } else {
        say(output, b" spilt\n")
    }
}

pub fn time(output: &mut impl Write, start: u64, clock: u64) -> io::Result<()> {
    say(output, b"time ")?;
    number(output, start)?;
    say(output, b" ")?;
    number(output, clock)?;
    say(output, b" ")?;
    number(output, record::time_of(start, clock) as u64)?;
    say(output, b"\n")
}
