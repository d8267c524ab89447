// What the program writes with.
use std::io;
use std::io::Write;

pub fn say(output: &mut impl Write, words: &[u8]) -> io::Result<()> {
    output.write_all(words)
}

pub fn number(output: &mut impl Write, x: u64) -> io::Result<()> {
    write!(output, "{x}")
}

// In upper case, as the digits that are read.
fn byte(output: &mut impl Write, b: u8) -> io::Result<()> {
    write!(output, "{b:02X}")
}

// The first n bytes.
pub fn bytes(output: &mut impl Write, out: &[u8], n: usize) -> io::Result<()> {
    for b in out.iter().take(n) {
        byte(output, *b)?;
    }
    Ok(())
}

// Whether every byte from n on is still A5.
pub fn kept(out: &[u8], n: usize) -> bool {
    out.iter().skip(n).all(|b| *b == 0xA5)
}
