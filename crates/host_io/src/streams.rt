//! The loops over streams: reading one to its end, and handing all bytes on to one.
ghost use Rattle.std.specs.Prelude.{OnErr, OnOk, ◌+◌};
ghost use Rattle.std.specs.Io.{ReadsAtMost, WritesAtMost};
ghost use Rattle.std.specs.Io.KnownBytes.{Appends, ReadConsumes, WriteAppends};
ghost use Rattle.host_io.specs.Streams.{AppendsPrefix, ReadsWhole, TakesAtMost};

use crate::{Blob, LoadFault, Source};
use std::alloc::Global;
use std::io::{self, ErrorKind, Read, Write};

/// How many bytes are read at a time.
const CHUNK: usize = 65_536;

/// Reads a source to its end, where it has no more than `limit` bytes left. Of a longer one it reads one byte past the
/// limit and no more, so that an endless source is refused too.
pub fn read_whole<S: Source>(source: &mut S, alloc: Global, limit: usize) -> Result<Blob, LoadFault>
    ensures answer { ReadsWhole (S.state source.old) (S.state source.new) limit result }
    ensures taken { TakesAtMost (limit + 1) (S.state source.old).left (S.state source.new).left }
{
    let mut bytes = Vec::new(alloc);
    let mut chunk = [0; CHUNK];
    while bytes.len() <= limit {
        let room = (limit - bytes.len()).min(CHUNK - 1) + 1;
        let count = source.read(&mut chunk[..room])?;
        if count == 0 {
            return Ok(Blob::from_vec(bytes));
        }
        bytes.extend_from_slice(&chunk[..count])?;
    }
    Err(LoadFault::TooLong)
}

/// Reads once, and again where a signal interrupts it.
pub(crate) fn read_some<R: Read>(reader: &mut R, buffer: &mut [u8]) -> io::Result<usize>
    ensures bound { ReadsAtMost result buffer.new }
    ensures bytes { ReadConsumes (R.remaining reader.old) (R.remaining reader.new) result buffer.new }
{
    for _ in 0..u64::MAX {
        match reader.read(buffer) {
            Err(error) if error.kind() == ErrorKind::Interrupted => {}
            result => return result,
        }
    }
    Err(ErrorKind::Interrupted.into())
}

/// Writes once, and again where a signal interrupts it.
fn write_some<W: Write>(writer: &mut W, bytes: &[u8]) -> io::Result<usize>
    ensures bound { WritesAtMost result bytes.now }
    ensures bytes { WriteAppends (W.contents writer.old) (W.contents writer.new) result bytes.now }
{
    for _ in 0..u64::MAX {
        match writer.write(bytes) {
            Err(error) if error.kind() == ErrorKind::Interrupted => {}
            result => return result,
        }
    }
    Err(ErrorKind::Interrupted.into())
}

/// Hands all bytes on to a writer, however few it takes at a time; after an error it has taken a prefix of them.
pub(crate) fn write_whole<W: Write>(writer: &mut W, bytes: &[u8]) -> io::Result<()>
    ensures whole { OnOk result (Appends (W.contents writer.old) (W.contents writer.new) bytes.now) }
    ensures part { OnErr result (AppendsPrefix (W.contents writer.old) (W.contents writer.new) bytes.now) }
{
    let mut rest = bytes;
    while !rest.is_empty() {
        let count = write_some(writer, rest)?;
        if count == 0 {
            return Err(ErrorKind::WriteZero.into());
        }
        rest = &rest[count..];
    }
    Ok(())
}
