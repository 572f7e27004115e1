// Input read into space that is lent.
#![tactic(auto)]

ghost use Rattle.std.specs.Prelude.{◌<◌, ◌≤◌, length, take, IfOk};
ghost use Rattle.std.specs.Io.KnownBytes.{Consumes, IsAtEnd};

use std::io;
use std::io::Read;

// Reads until the space is full or the input ends, and returns how many bytes were read. Where the input's bytes are known, these are the
// first that it had left.
pub fn read_full<R: Read>(input: &mut R, space: &mut [u8]) -> io::Result<usize>
    ensures count { IfOk result (λ n. n ≤ length space.new) }
    ensures bytes { IfOk result (λ n. Consumes (R.remaining input.old) (R.remaining input.new) (take n space.new)) }
    ensures end { IfOk result (λ n. n < length space.new → IsAtEnd (R.remaining input.new)) }
{
    // Not `read_exact`: it does not say how much of a shorter input was read.
    let mut at = 0usize;
    while at < space.len() {
        let n = input.read(&mut space[at..])?;
        if n == 0 {
            return Ok(at);
        }
        at += n;
    }
    Ok(at)
}

#[cfg(test)]
mod tests {
    use super::*;

    // Gives one byte a read, so many in all, and then fails.
    #[derive(Drop)]
    struct Broken {
        left: usize,
    }

    impl Read for Broken {
        fn read(&mut self, buf: &mut [u8]) -> io::Result<usize> {
            if self.left == 0 {
                return Err(io::Error::from(io::ErrorKind::BrokenPipe));
            }
            if buf.is_empty() {
                return Ok(0);
            }
            self.left -= 1;
            buf[0] = 7;
            Ok(1)
        }
    }

    #[test]
    fn reads_the_first(rt: HostRuntime) -> io::Result<()> {
        let mut input: &[u8] = b"abc";
        let mut space = [0u8; 2];
        assert_eq!(rt; read_full(&mut input, &mut space)?, 2);
        assert_eq!(rt; space, *b"ab");
        assert_eq!(rt; read_full(&mut input, &mut space)?, 1);
        assert_eq!(rt; space, *b"cb");
        assert_eq!(rt; read_full(&mut input, &mut space)?, 0);
        Ok(())
    }

    #[test]
    fn fails_in_the_middle(rt: HostRuntime) -> io::Result<()> {
        let mut input = Broken { left: 3 };
        let mut space = [0u8; 2];
        assert_eq!(rt; read_full(&mut input, &mut space)?, 2);
        assert!(rt; read_full(&mut input, &mut space).is_err());
        Ok(())
    }
}
