// Reading from standard input, or from any other reader, into a lent buffer.
#![tactic(auto)]

ghost use Rattle.std.specs.Prelude.{◌≡◌, ◌<◌, ◌≤◌, IfOk, OnErr, ℕ, length, take};
ghost use Rattle.std.specs.Io.{ReadsAtMost};
ghost use Rattle.std.specs.Io.KnownBytes.{Consumes, IsAtEnd};

mod digits;

pub use digits::read_spelled;
use std::io;
use std::io::Read;

// Reads until `buf` is full or the input ends, and returns how many bytes it put at the start of `buf`. The first read that fails
// ends it with its error, and what was read until then stands at the start of `buf`. On an empty `buf` nothing is read.
pub fn read_full<R: Read>(input: &mut R, buf: &mut [u8]) -> io::Result<usize>
    ensures in_bounds { ReadsAtMost result buf.new }
    ensures bytes { IfOk result (λ n. Consumes (R.remaining input.old) (R.remaining input.new) (take n buf.new)) }
    ensures short_at_end { IfOk result (λ n. n < length buf.new → IsAtEnd (R.remaining input.new)) }
    ensures err { OnErr result ((n : ℕ) × (n ≤ length buf.new) × Consumes (R.remaining input.old) (R.remaining input.new) (take n buf.new)) }
{
    let mut done = 0;
    // Only a read says how far it came.
    while done < buf.len() {
        let count = input.read(&mut buf[done..])?;
        if count == 0 {
            break;
        }
        done += count;
    }
    Ok(done)
}

#[cfg(test)]
mod tests {
    use super::*;
    use std::io::ErrorKind;
    use std::test::Fail;

    // Gives at most three bytes at a time, and fails once none are left where it `breaks`.
    #[derive(Drop)]
    struct Slow<'a> {
        rest: &'a [u8],
        breaks: bool,
    }

    impl Read for Slow<'_> {
        fn read(&mut self, buf: &mut [u8]) -> io::Result<usize> {
            if self.breaks && self.rest.is_empty() {
                return Err(ErrorKind::BrokenPipe.into());
            }
            let most = buf.len().min(3);
            self.rest.read(&mut buf[..most])
        }
    }

    #[test]
    fn reads_on_until_full(rt: HostRuntime) -> Result<(), Fail> {
        let mut input = Slow {
            rest: b"abcdefgh",
            breaks: false,
        };
        let mut buf = [0u8; 5];
        assert_eq!(rt; read_full(&mut input, &mut buf)?, 5);
        assert_eq!(rt; buf, *b"abcde");
        assert_eq!(rt; read_full(&mut input, &mut buf)?, 3);
        assert_eq!(rt; buf, *b"fghde");
        assert_eq!(rt; read_full(&mut input, &mut buf)?, 0);
        Ok(())
    }

    #[test]
    fn a_failed_read_is_no_end(rt: HostRuntime) {
        let mut input = Slow {
            rest: b"abcd",
            breaks: true,
        };
        let mut buf = [0u8; 5];
        assert!(rt; read_full(&mut input, &mut buf).is_err());
    }
}
