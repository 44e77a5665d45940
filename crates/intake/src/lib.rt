// Intake: the input of a program read into a room that it has, up to the end of the room or of the input. Nothing is allocated.
#![tactic(auto)]

ghost use Rattle.std.specs.Prelude.{ℕ, ◌<◌, ◌≤◌, length, take, IfOk, OnErr};
ghost use Rattle.std.specs.Io.{ReadsAtMost};
ghost use Rattle.std.specs.Io.KnownBytes.{Consumes, IsAtEnd};

use std::io::{self, Read};

// Reads until the room is full or the input ends, and answers how many bytes were read: they stand at the beginning of the room, and the reader
// has lost them and no more. After an error it has lost some that stand there.
pub fn fill<R: Read>(from: &mut R, room: &mut [u8]) -> io::Result<usize>
    ensures within { ReadsAtMost result room.new }
    ensures bytes { IfOk result (λ n. Consumes (R.remaining from.old) (R.remaining from.new) (take n room.new)) }
    ensures end { IfOk result (λ n. n < length room.new → IsAtEnd (R.remaining from.new)) }
    ensures err { OnErr result ((n : ℕ) × (n ≤ length room.new) × Consumes (R.remaining from.old) (R.remaining from.new) (take n room.new)) }
{
    let mut n = 0;
    while n < room.len() {
        match from.read(&mut room[n..])? {
            0 => return Ok(n),
            more => n += more,
        }
    }
    Ok(n)
}

#[cfg(test)]
mod tests {
    use super::*;
    use std::io::ErrorKind;
    use std::test::Fail;

    // A reader that gives some bytes, one a read, and fails behind them or ends.
    #[derive(Drop)]
    struct Slow {
        left: u8,
        fails: bool,
    }

    impl Read for Slow {
        fn read(&mut self, buf: &mut [u8]) -> io::Result<usize> {
            if self.left == 0 {
                return if self.fails {
                    Err(io::Error::from(ErrorKind::NotConnected))
                } else {
                    Ok(0)
                };
            }
            if buf.is_empty() {
                return Ok(0);
            }
            buf[0] = self.left;
            self.left -= 1;
            Ok(1)
        }
    }

    #[test]
    fn fills_from_a_slice(rt: HostRuntime) -> Result<(), Fail> {
        let mut from: &[u8] = b"Tollgilt";
        let mut room = [0u8; 5];
        assert_eq!(rt; fill(&mut from, &mut room)?, 5);
        assert_eq!(rt; room.as_slice(), b"Tollg".as_slice());
        assert_eq!(rt; fill(&mut from, &mut [])?, 0);
        assert_eq!(rt; fill(&mut from, &mut room)?, 3);
        assert_eq!(rt; &room[..3], b"ilt".as_slice());
        assert_eq!(rt; fill(&mut from, &mut room)?, 0);
        Ok(())
    }

    #[test]
    fn reads_on_after_a_short_read(rt: HostRuntime) -> Result<(), Fail> {
        let mut from = Slow {
            left: 3,
            fails: false,
        };
        let mut room = [0u8; 5];
        assert_eq!(rt; fill(&mut from, &mut room)?, 3);
        assert_eq!(rt; room, [3, 2, 1, 0, 0]);
        Ok(())
    }

    #[test]
    fn fails_as_the_reader(rt: HostRuntime) -> Result<(), Fail> {
        let mut from = Slow {
            left: 3,
            fails: true,
        };
        let mut room = [0u8; 5];
        match fill(&mut from, &mut room) {
            Ok(n) => assert_eq!(rt; n, 9, "no error"),
            Err(e) => assert_eq!(rt; e.kind(), ErrorKind::NotConnected),
        }
        let mut again = Slow {
            left: 5,
            fails: true,
        };
        assert_eq!(rt; fill(&mut again, &mut room)?, 5, "the room was full before");
        Ok(())
    }
}
