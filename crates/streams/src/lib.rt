// What a reader gives, put into a buffer, and a buffer given to a writer.
#![tactic(auto)]

ghost use Rattle.std.specs.Prelude.{IfOk, OnErr, OnOk, ◌<◌, length, take};
ghost use Rattle.std.specs.Io.{ReadsAtMost};
ghost use Rattle.std.specs.Io.KnownBytes.{Appends, Consumes, IsAtEnd};
ghost use Rattle.streams.specs.Parts.{ConsumesSome, AppendsFront};

use std::io::{Error, ErrorKind, Read, Result, Write};

// Reads until the buffer is full or the reader is at its end. Back comes how many bytes stand at the buffer's front. Where a
// read fails, what was read before is lost.
// `at` counts bytes, as in std's `read_exact`, which takes an end for an error; the methods of std that read to the end need a heap.
pub fn read_full<R: Read>(reader: &mut R, buf: &mut [u8]) -> Result<usize>
    ensures bound { ReadsAtMost result buf.new }
    ensures bytes { IfOk result (λ n. Consumes (R.remaining reader.old) (R.remaining reader.new) (take n buf.new)) }
    ensures end { IfOk result (λ n. n < length buf.new → IsAtEnd (R.remaining reader.new)) }
    ensures failed { OnErr result (ConsumesSome (R.remaining reader.old) (R.remaining reader.new)) }
{
    let mut at = 0;
    while at < buf.len() {
        let n = reader.read(&mut buf[at..])?;
        if n == 0 {
            return Ok(at);
        }
        at += n;
    }
    Ok(at)
}

// Writes the whole buffer. Where a write fails or takes nothing, a front of it was written. std's `write_all` says nothing of what
// a failed write leaves.
pub fn write_full<W: Write>(writer: &mut W, buf: &[u8]) -> Result<()>
    ensures bytes { OnOk result (Appends (W.contents writer.old) (W.contents writer.new) buf.now) }
    ensures failed { OnErr result (AppendsFront (W.contents writer.old) (W.contents writer.new) buf.now) }
{
    let mut rest = buf;
    while !rest.is_empty() {
        let n = writer.write(rest)?;
        if n == 0 {
            return Err(Error::from(ErrorKind::WriteZero));
        }
        rest = &rest[n..];
    }
    Ok(())
}
