// One double: read, converted every way, and written as a line.
use crate::show::{hex, line, number, say, write_duration, write_start};
use input::read_spelled;
use std::io;
use std::io::{Read, Write};

// bits, the single, the u32, the single's double, the same by way of an f32, the u32's double, start and duration.
fn write_vector(output: &mut impl Write, bits: u64) -> io::Result<()> {
    let single = numbers::single_of(bits);
    let whole = numbers::u32_of(bits);
    hex(output, bits, 16)?;
    say(output, b" ")?;
    hex(output, single as u64, 8)?;
    say(output, b" ")?;
    number(output, whole as u64)?;
    say(output, b" ")?;
    hex(output, numbers::double_of_single(single), 16)?;
    say(output, b" ")?;
    hex(output, numbers::bits_of_f32(numbers::f32_of(bits)), 16)?;
    say(output, b" ")?;
    hex(output, numbers::double_of_u32(whole), 16)?;
    say(output, b" ")?;
    write_start(output, bits)?;
    say(output, b" ")?;
    write_duration(output, bits)?;
    line(output)
}

// Whether there was a whole one.
pub fn run_double(input: &mut impl Read, output: &mut impl Write) -> io::Result<bool> {
    let mut bytes = [0u8; 8];
    if !read_spelled(input, &mut bytes)? {
        return Ok(false);
    }
    write_vector(output, numbers::u64_at(&bytes, 0))?;
    Ok(true)
}
