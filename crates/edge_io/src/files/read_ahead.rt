//! Reads that fill a buffer, and a reader with a read buffer.
ghost use Rattle.std.specs.Prelude.{◌≡◌, ◌<◌, ◌≤◌, ◌↔◌, ◌++◌, [], length, take, IsTrue, IfOk, IsOk, OnOk, OnErr, IsSome};
ghost use Rattle.std.specs.Io.{ReadsAtMost};
ghost use Rattle.std.specs.Io.KnownBytes.{Keeps, IsAtEnd, ReadConsumes};
ghost use Rattle.edge_io.specs.KnownOctets.{Fetches, Fills};
ghost use Rattle.edge_io.specs.FaultCounts.{HasCause};
ghost use Rattle.edge_io.specs.declared.files.TheConstants.{BUFFER_OCTETS};

use super::BUFFER_OCTETS;
use crate::{Failed, Source};
use std::io;
use std::io::{ErrorKind, Read};

// Number of tries of a read that signals interrupt.
const TRIES: u32 = 1_000;

/// Fetches until the buffer is full or the source is at its end. Returns the number of octets read.
#[inline]
pub fn read_full<S: Source>(source: &mut S, buf: &mut [u8]) -> Result<usize, Failed>
    ensures octets { Fills (S.left source.old) (S.left source.new) result buf.new }
    ensures cause { HasCause (S.fault_count source.old) (S.fault_count source.new) result }
{
    if buf.is_empty() {
        return Ok(0);
    }
    // Nearly every read takes one fetch, so that case has no loop.
    let first = source.fetch(buf)?;
    if first == 0 || first == buf.len() {
        return Ok(first);
    }
    let more = read_rest(source, &mut buf[first..])?;
    Ok(first + more)
}

// Does what `read_full` does, in a loop of fetches.
#[cold]
fn read_rest<S: Source>(source: &mut S, buf: &mut [u8]) -> Result<usize, Failed>
    ensures octets { Fills (S.left source.old) (S.left source.new) result buf.new }
    ensures cause { HasCause (S.fault_count source.old) (S.fault_count source.new) result }
{
    let mut done = 0;
    while done < buf.len() {
        let count = source.fetch(&mut buf[done..])?;
        if count == 0 {
            break;
        }
        done += count;
    }
    Ok(done)
}

/// A reader with a read buffer.
#[derive(Drop)]
pub(super) struct ReadAhead<R> {
    reader: R,
    buffer: [u8; BUFFER_OCTETS],
    start: usize,
    filled: usize,
    /// Error of the last read that failed.
    last_error: Option<io::Error>,
    ghost ordered: { start ≤ filled },
    ghost within: { filled ≤ BUFFER_OCTETS },
}

impl<R: Read> ReadAhead<R> {
    ghost use Rattle.edge_io.specs.ReadAhead.{octets_ahead};
    ghost use Rattle.edge_io.specs.working.ReadAhead.{octets_left};

    /// Returns a reader whose buffer is empty.
    pub(super) fn new(reader: R) -> ReadAhead<R>
        ensures reader { result.reader ≡ reader }
        ensures start { result.start ≡ 0 }
        ensures empty { result.filled ≡ 0 }
    {
        ReadAhead {
            reader,
            buffer: [0; BUFFER_OCTETS],
            start: 0,
            filled: 0,
            last_error: None,
        }
    }

    /// Returns the error of the last read that failed.
    pub(super) fn last_error(&self) -> Option<io::Error>
        ensures { result ≡ self.now.last_error }
    {
        self.last_error
    }

    /// Returns whether the read buffer is empty.
    pub(super) fn is_empty(&self) -> bool
        ensures { IsTrue result ↔ octets_ahead self.now ≡ [] }
    {
        self.start == self.filled
    }

    /// Moves octets from the read buffer to the front of `buf`. Returns their number.
    #[inline]
    pub(super) fn fetch(&mut self, buf: &mut [u8]) -> Result<usize, Failed>
        ensures octets { Fetches (octets_left R.remaining self.old)
            (octets_left R.remaining self.new) result buf.new }
        ensures buffered { 0 < length (octets_ahead self.old) → (self.new.reader ≡ self.old.reader)
            × IfOk result (λ n. octets_ahead self.old ≡ take n buf.new ++ octets_ahead self.new) }
        ensures ok { OnOk result (self.new.last_error ≡ self.old.last_error) }
        ensures failed { OnErr result (IsSome self.new.last_error) }
    {
        let count = buf.len();
        if count > self.filled - self.start {
            let some = self.fetch_some(buf)?;
            return Ok(some);
        }
        buf.copy_from_slice(&self.buffer[self.start..self.start + count]);
        self.start += count;
        Ok(count)
    }

    // Does what `fetch` does where the read buffer may have fewer octets than `buf`.
    #[cold]
    fn fetch_some(&mut self, buf: &mut [u8]) -> Result<usize, Failed>
        ensures octets { Fetches (octets_left R.remaining self.old)
            (octets_left R.remaining self.new) result buf.new }
        ensures buffered { 0 < length (octets_ahead self.old) → (self.new.reader ≡ self.old.reader)
            × IfOk result (λ n. octets_ahead self.old ≡ take n buf.new ++ octets_ahead self.new) }
        ensures ok { OnOk result (self.new.last_error ≡ self.old.last_error) }
        ensures failed { OnErr result (IsSome self.new.last_error) }
    {
        self.refill()?;
        let count = buf.len().min(self.filled - self.start);
        buf[..count].copy_from_slice(&self.buffer[self.start..self.start + count]);
        self.start += count;
        Ok(count)
    }

    // Fills the buffer by one read if it has no octets left.
    fn refill(&mut self) -> Result<(), Failed>
        ensures buffered { self.old.start < self.old.filled → IsOk result × (self.new ≡ self.old) }
        ensures kept { Keeps (octets_left R.remaining self.old) (octets_left R.remaining self.new) }
        ensures end { OnOk result (self.new.start ≡ self.new.filled →
            IsAtEnd (R.remaining self.new.reader)) }
        ensures ok { OnOk result (self.new.last_error ≡ self.old.last_error) }
        ensures failed { OnErr result (IsSome self.new.last_error) }
    {
        if self.start == self.filled {
            match read_some(&mut self.reader, &mut self.buffer) {
                Ok(count) => {
                    self.start = 0;
                    self.filled = count;
                }
                Err(error) => {
                    self.last_error = Some(error);
                    return Err(Failed);
                }
            }
        }
        Ok(())
    }
}

// Reads once, and again only if a signal interrupts the read.
fn read_some<R: Read>(reader: &mut R, buf: &mut [u8]) -> io::Result<usize>
    ensures within { ReadsAtMost result buf.new }
    ensures octets { ReadConsumes (R.remaining reader.old) (R.remaining reader.new) result buf.new }
{
    for _ in 0..TRIES {
        match reader.read(buf) {
            Ok(count) => return Ok(count),
            Err(e) if e.kind() == ErrorKind::Interrupted => {}
            Err(e) => return Err(e),
        }
    }
    Err(ErrorKind::Interrupted.into())
}
