// What a program takes in: an input, into a room.
#![tactic(auto)]

ghost use Rattle.std.specs.Prelude.{◌≤◌, length, take, IfSome, OnOk};
ghost use Rattle.std.specs.Io.KnownBytes.{Consumes};
ghost use Rattle.text_rules.specs.Room.{ReadInto};

use std::io;
use std::io::Read;

// Reads until the room is full or the input ends, and returns how many bytes the room has from its start, and the error of a read that failed.
// That ends the input too: what was read so far is what stands in the room.
pub fn read_full<R: Read>(input: &mut R, room: &mut [u8]) -> (usize, io::Result<()>)
    ensures in_bounds { result.0 ≤ length room.new }
    ensures next_bytes { Consumes (R.remaining input.old) (R.remaining input.new) (take result.0 room.new) }
    ensures whole { OnOk result.1 (IfSome (R.remaining input.old) (ReadInto room.new result.0)) }
{
    let mut done = 0;
    while done < room.len() {
        match input.read(&mut room[done..]) {
            Ok(0) => return (done, Ok(())),
            Ok(more) => done += more,
            Err(e) => return (done, Err(e)),
        }
    }
    (done, Ok(()))
}

#[cfg(test)]
mod tests {
    use super::*;

    // Gives a byte at a time, and fails where none is left.
    #[derive(Drop)]
    struct Torn<'a>(&'a [u8]);

    impl Read for Torn<'_> {
        fn read(&mut self, buf: &mut [u8]) -> io::Result<usize> {
            if self.0.is_empty() {
                return Err(io::Error::other("torn"));
            }
            let n = buf.len().min(1);
            self.0.read(&mut buf[..n])
        }
    }

    #[test]
    fn reads_no_further_than_the_room(rt: HostRuntime) {
        let mut input: &[u8] = b"abcde";
        let mut room = [0u8; 3];
        for (n, held) in [(3, *b"abc"), (2, *b"dec"), (0, *b"dec")] {
            let (read, ended) = read_full(&mut input, &mut room);
            assert_eq!(rt; read, n);
            assert!(rt; ended.is_ok());
            assert_eq!(rt; room, held);
        }
    }

    #[test]
    fn keeps_what_was_read_before_a_read_failed(rt: HostRuntime) {
        let mut room = [0u8; 3];
        let (read, ended) = read_full(&mut Torn(b"ab"), &mut room);
        assert_eq!(rt; read, 2);
        assert!(rt; ended.is_err());
        assert_eq!(rt; room, *b"ab\0");
    }
}
