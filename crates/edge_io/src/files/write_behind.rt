//! Writes through a buffer.
ghost use Rattle.std.specs.Prelude.{◌≡◌, ◌+◌, ◌<◌, ◌≤◌, ◌++◌, [], length, take, OnOk, OnErr, IsOk, IsSome};
ghost use Rattle.std.specs.Io.KnownBytes.{Appends, Keeps};
ghost use Rattle.edge_io.specs.declared.files.TheConstants.{BUFFER_OCTETS};

use super::BUFFER_OCTETS;
use crate::Failed;
use std::io;
use std::io::Write;

/// A writer with a write buffer.
#[derive(Drop)]
pub(super) struct WriteBehind<W> {
    writer: W,
    buffer: [u8; BUFFER_OCTETS],
    filled: usize,
    /// Number of octets that were last written out of the buffer.
    written: usize,
    /// Error of the last write that failed.
    last_error: Option<io::Error>,
    ghost within: { filled ≤ BUFFER_OCTETS },
    ghost written_within: { written ≤ BUFFER_OCTETS },
}

impl<W: Write> WriteBehind<W> {
    ghost use Rattle.edge_io.specs.WriteBehind.{octets_waiting};
    ghost use Rattle.edge_io.specs.working.BufferedOctets.{octets_held};

    /// Returns a writer whose buffer is empty.
    pub(super) fn new(writer: W) -> WriteBehind<W>
        ensures writer { result.writer ≡ writer }
        ensures empty { result.filled ≡ 0 }
    {
        WriteBehind {
            writer,
            buffer: [0; BUFFER_OCTETS],
            filled: 0,
            written: 0,
            last_error: None,
        }
    }

    /// Buffers the octets; more than `BUFFER_OCTETS` octets are written directly.
    pub(super) fn put(&mut self, piece: &[u8]) -> Result<(), Failed>
        ensures octets { OnOk result (Appends (octets_held W.contents self.old)
            (octets_held W.contents self.new) piece.now) }
        ensures fits { length (octets_waiting self.old) + length piece.now ≤ BUFFER_OCTETS
            → IsOk result × (self.new.writer ≡ self.old.writer)
            × (octets_waiting self.new ≡ octets_waiting self.old ++ piece.now) }
        ensures discarded { OnErr result (self.new.filled ≡ 0) }
        ensures ok { OnOk result (self.new.last_error ≡ self.old.last_error) }
        ensures failed { OnErr result (IsSome self.new.last_error) }
    {
        self.make_room(piece.len())?;
        if piece.len() > BUFFER_OCTETS - self.filled {
            return write_whole(&mut self.writer, piece, &mut self.last_error);
        }
        let end = self.filled + piece.len();
        self.buffer[self.filled..end].copy_from_slice(piece);
        self.filled = end;
        Ok(())
    }

    /// Writes the buffered octets, and flushes the writer.
    pub(super) fn flush(&mut self) -> Result<(), Failed>
        ensures written { OnOk result (Keeps (octets_held W.contents self.old)
            (W.contents self.new.writer)) }
        ensures empty { self.new.filled ≡ 0 }
        ensures last { take self.new.written self.new.buffer ≡ take self.old.filled self.old.buffer }
        ensures ok { OnOk result (self.new.last_error ≡ self.old.last_error) }
        ensures failed { OnErr result (IsSome self.new.last_error) }
    {
        self.write_out()?;
        match self.writer.flush() {
            Ok(()) => Ok(()),
            Err(error) => {
                self.last_error = Some(error);
                Err(Failed)
            }
        }
    }

    /// Returns the error of the last write that failed.
    pub(super) fn last_error(&self) -> Option<io::Error>
        ensures { result ≡ self.now.last_error }
    {
        self.last_error
    }

    /// Returns the octets that were last written out of the buffer; none if octets were buffered
    /// since.
    pub(super) fn last_written(&self) -> &[u8]
        ensures few { length result.now ≤ BUFFER_OCTETS }
        ensures octets { self.now.filled ≡ 0 → result.now ≡ take self.now.written self.now.buffer }
        ensures none { 0 < self.now.filled → result.now ≡ [] }
    {
        if self.filled > 0 {
            return &[];
        }
        &self.buffer[..self.written]
    }

    // Writes out the buffer if `count` more octets do not fit into it.
    fn make_room(&mut self, count: usize) -> Result<(), Failed>
        ensures kept { OnOk result (Keeps (octets_held W.contents self.old)
            (octets_held W.contents self.new)) }
        ensures room { OnOk result (BUFFER_OCTETS < self.new.filled + count → self.new.filled ≡ 0) }
        ensures fits { self.old.filled + count ≤ BUFFER_OCTETS → IsOk result × (self.new ≡ self.old) }
        ensures discarded { OnErr result (self.new.filled ≡ 0) }
        ensures ok { OnOk result (self.new.last_error ≡ self.old.last_error) }
        ensures failed { OnErr result (IsSome self.new.last_error) }
    {
        if count > BUFFER_OCTETS - self.filled {
            self.write_out()?;
        }
        Ok(())
    }

    // Writes the buffered octets. If that fails, they are discarded.
    fn write_out(&mut self) -> Result<(), Failed>
        ensures written { OnOk result (Keeps (octets_held W.contents self.old)
            (W.contents self.new.writer)) }
        ensures empty { self.new.filled ≡ 0 }
        ensures last { take self.new.written self.new.buffer ≡ take self.old.filled self.old.buffer }
        ensures ok { OnOk result (self.new.last_error ≡ self.old.last_error) }
        ensures failed { OnErr result (IsSome self.new.last_error) }
    {
        let filled = self.filled;
        self.filled = 0;
        self.written = filled;
        write_whole(
            &mut self.writer,
            &self.buffer[..filled],
            &mut self.last_error,
        )
    }
}

// Writes all the octets, or keeps the error. `write_all` repeats an interrupted write, and fails if
// a write takes no octet.
fn write_whole<W: Write>(
    writer: &mut W,
    piece: &[u8],
    last_error: &mut Option<io::Error>,
) -> Result<(), Failed>
    ensures octets { OnOk result (Appends (W.contents writer.old) (W.contents writer.new) piece.now) }
    ensures ok { OnOk result (last_error.new ≡ last_error.old) }
    ensures failed { OnErr result (IsSome last_error.new) }
{
    match writer.write_all(piece) {
        Ok(()) => Ok(()),
        Err(error) => {
            *last_error = Some(error);
            Err(Failed)
        }
    }
}
