//! Reads as much as there is room for, from an input that may come in pieces.
#![tactic(auto)]

ghost use Rattle.std.specs.Prelude.{◌≡◌, ◌≤◌, ℕ, min, take, length, IfOk, OnErr};
ghost use Rattle.std.specs.Io.KnownBytes.{Consumes};
ghost use Rattle.reading.specs.Fronts.{Takes};

use std::io;
use std::io::Read;

/// Reads until the buffer is full or the input ends, and returns how many bytes came. They stand at the buffer's start.
/// One read is not enough, since an input may give its bytes in pieces of any length. A read that fails is the last one; the bytes that
/// came before it stand in the buffer, and none was skipped.
pub fn read_full<R: Read>(reader: &mut R, buf: &mut [u8]) -> io::Result<usize>
    ensures bound { IfOk result (λ n. n ≤ length buf.new) }
    ensures front { IfOk result (λ n. Takes (R.remaining reader.old) (R.remaining reader.new) (length buf.new) (λ front. take n buf.new ≡ front)) }
    ensures err { OnErr result ((n : ℕ) × Consumes (R.remaining reader.old) (R.remaining reader.new) (take n buf.new)) }
{
    let mut done = 0;
    // How far a turn goes is up to the reader, so no `for` over the buffer fits.
    while done < buf.len() {
        let n = reader.read(&mut buf[done..])?;
        if n == 0 {
            break;
        }
        done += n;
    }
    Ok(done)
}

/// Reads n bytes, or as many as the buffer has room for, and returns those that came: fewer only where the input ends.
pub fn read_part<'a, R: Read>(reader: &mut R, buf: &'a mut [u8], n: usize) -> io::Result<&'a [u8]>
    ensures bound { IfOk result (λ part. length part.now ≤ min n (length buf.old)) }
    ensures front { IfOk result (λ part. Takes (R.remaining reader.old) (R.remaining reader.new) (min n (length buf.old)) (λ front. part.now ≡ front)) }
{
    let room = n.min(buf.len());
    let came = read_full(reader, &mut buf[..room])?;
    Ok(&buf[..came])
}

/// What an input of records has next.
#[derive(Clone, Copy)]
pub enum Next<T> {
    Record(T),
    End,
    /// The input ends inside a record, or a record is longer than any that there is room for.
    Broken,
}

#[cfg(test)]
mod tests {
    use super::*;
    use std::io::ErrorKind;
    use std::test::Fail;

    // Gives its bytes one at a time, and at the end fails or says that nothing is left.
    #[derive(Drop)]
    struct Pieces<'a> {
        left: &'a [u8],
        fails: bool,
    }

    impl<'a> Read for Pieces<'a> {
        fn read(&mut self, buf: &mut [u8]) -> io::Result<usize> {
            if buf.is_empty() {
                return Ok(0);
            }
            match self.left.split_first() {
                Some((first, rest)) => {
                    buf[0] = *first;
                    self.left = rest;
                    Ok(1)
                }
                None if self.fails => Err(ErrorKind::ConnectionReset.into()),
                None => Ok(0),
            }
        }
    }

    #[test]
    fn joins_pieces(rt: HostRuntime) -> Result<(), Fail> {
        let mut reader = Pieces {
            left: b"abcdef",
            fails: false,
        };
        let mut buf = [b'.'; 4];
        assert_eq!(rt; read_full(&mut reader, &mut buf)?, 4);
        assert_eq!(rt; buf, *b"abcd");
        assert_eq!(rt; read_full(&mut reader, &mut buf)?, 2);
        assert_eq!(rt; buf, *b"efcd");
        assert_eq!(rt; read_full(&mut reader, &mut buf)?, 0);
        Ok(())
    }

    #[test]
    fn stops_at_a_part_or_at_the_end(rt: HostRuntime) -> Result<(), Fail> {
        let mut reader = Pieces {
            left: b"abcdefg",
            fails: false,
        };
        let mut buf = [b'.'; 4];
        assert_eq!(rt; read_part(&mut reader, &mut buf, 2)?.len(), 2);
        assert_eq!(rt; buf, *b"ab..");
        assert_eq!(rt; read_part(&mut reader, &mut buf, 9)?.len(), 4);
        assert_eq!(rt; buf, *b"cdef");
        assert_eq!(rt; read_part(&mut reader, &mut buf, 3)?.len(), 1);
        assert_eq!(rt; buf, *b"gdef");
        Ok(())
    }

    #[test]
    fn hands_on_a_failure(rt: HostRuntime) -> Result<(), Fail> {
        let mut reader = Pieces {
            left: b"abcdef",
            fails: true,
        };
        let mut buf = [b'.'; 4];
        assert_eq!(rt; read_full(&mut reader, &mut buf)?, 4);
        match read_full(&mut reader, &mut buf) {
            Ok(_) => assert!(rt; false, "a failed read is no end"),
            Err(e) => assert_eq!(rt; e.kind(), ErrorKind::ConnectionReset),
        }
        Ok(())
    }
}
