// Bytes spelled in hexadecimal digits.
ghost use Rattle.std.specs.Prelude.{◌≡◌, ◌+◌, ◌*◌, ◌≤◌, ℕ, ◌++◌, List, [], ◌∷◌, IfOk, length, take, true, false};
ghost use Rattle.std.specs.Io.KnownBytes.{Consumes, IsAtEnd};
ghost use Rattle.input.specs.Digits.{digit_value, spelled};

use crate::read_full;
use std::io;
use std::io::Read;

// So many bytes are read at once.
const PART: usize = 4200;

fn digit(b: u8) -> u8
    ensures { result ≡ digit_value b }
{
    match b {
        b'0'..=b'9' => b - b'0',
        b'A'..=b'F' => b - b'A' + 10,
        _ => 0,
    }
}

// The bytes that the digits spell.
fn spell(digits: &[u8], bytes: &mut [u8])
    requires { length digits.now ≡ 2 * length bytes.old }
    ensures { bytes.new ≡ spelled digits.now }
{
    for (i, byte) in bytes.iter_mut().enumerate() {
        *byte = digit(digits[2 * i]) * 16 + digit(digits[2 * i + 1]);
    }
}

// Reads two digits for each byte, and so many bytes behind them. Whether they were all there.
fn read_part<R: Read>(input: &mut R, bytes: &mut [u8], behind: usize) -> io::Result<bool>
    requires { (length bytes.old ≤ 4200) × (behind ≤ 1) }
    ensures all { IfOk result (λ there. there ≡ true → (digits : List ℕ) × (last : List ℕ) × Consumes (R.remaining input.old) (R.remaining input.new) (digits ++ last) × (spelled digits ≡ bytes.new) × (length digits ≡ 2 * length bytes.new) × (length last ≡ behind)) }
    ensures short_at_end { IfOk result (λ there. there ≡ false → IsAtEnd (R.remaining input.new)) }
{
    let mut room = [0u8; 8401];
    let n = 2 * bytes.len();
    let digits = &mut room[..n + behind];
    if read_full(input, digits)? < digits.len() {
        return Ok(false);
    }
    spell(&digits[..n], bytes);
    Ok(true)
}

// Reads two digits for each byte, and the byte behind them. Whether they were all there.
pub fn read_spelled<R: Read>(input: &mut R, bytes: &mut [u8]) -> io::Result<bool>
    ensures all { IfOk result (λ there. there ≡ true → (digits : List ℕ) × (last : ℕ) × Consumes (R.remaining input.old) (R.remaining input.new) (digits ++ last ∷ []) × (spelled digits ≡ bytes.new)) }
    ensures short_at_end { IfOk result (λ there. there ≡ false → IsAtEnd (R.remaining input.new)) }
{
    let mut done = 0;
    // The last part takes the byte behind with it.
    while PART < bytes.len() - done {
        if !read_part(input, &mut bytes[done..done + PART], 0)? {
            return Ok(false);
        }
        done += PART;
    }
    read_part(input, &mut bytes[done..], 1)
}

#[cfg(test)]
mod tests {
    use super::*;
    use std::test::Fail;

    #[test]
    fn reads_the_byte_behind(rt: HostRuntime) -> Result<(), Fail> {
        let mut input: &[u8] = b"0AfF-9";
        let mut bytes = [7u8; 2];
        assert!(rt; read_spelled(&mut input, &mut bytes)?);
        assert_eq!(rt; bytes, [0x0A, 0x0F]);
        assert_eq!(rt; input, b"9".as_slice());
        assert!(rt; !read_spelled(&mut input, &mut bytes)?);
        Ok(())
    }

    // One byte more than is read at once.
    #[test]
    fn reads_part_by_part(rt: HostRuntime) -> Result<(), Fail> {
        let mut digits = [b'3'; 8403];
        digits[8400] = b'C';
        let mut input = &digits[..];
        let mut bytes = [0u8; 4201];
        assert!(rt; read_spelled(&mut input, &mut bytes)?);
        assert_eq!(rt; bytes[0], 0x33);
        assert_eq!(rt; bytes[4199], 0x33);
        assert_eq!(rt; bytes[4200], 0xC3);
        assert!(rt; input.is_empty());
        Ok(())
    }
}
