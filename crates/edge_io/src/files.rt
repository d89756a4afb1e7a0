//! A source and sinks over files and standard output.
ghost use Rattle.std.specs.Prelude.{◌≡◌, ◌<◌, ◌≤◌, ◌↔◌, ◌+◌, ◌++◌, [], None, true, false, is_some, is_ok, length, take, option_and_then, IfOk, IsTrue, OnOk, OnErr, IsOk, IsErr, IsSome};
ghost use Rattle.std.specs.Result.{result_ok};
ghost use Rattle.std.specs.Io.KnownBytes.{Appends, Keeps};
ghost use Rattle.edge_io.specs.FaultCounts.{HasCause, next_count};
ghost use Rattle.edge_io.specs.KnownOctets.{Fetches};
ghost use Rattle.edge_io.specs.OutsideEnds.{OutsideSource, OutsideSink, octets_left_of, octets_held_of};
ghost use Rattle.edge_io.specs.ReadAhead.{unread_of, buffered_ahead};
ghost use Rattle.edge_io.specs.WriteBehind.{written_of, buffered_behind};

mod read_ahead;
mod write_behind;

use crate::{Failed, Sink, Source};
use read_ahead::ReadAhead;
pub use read_ahead::read_full;
use std::fs::File;
use std::io;
use std::io::{ErrorKind, Read, Stdout, Write};
use std::marker::Model;
use write_behind::WriteBehind;

/// Size of the buffer of a file or of standard output, in octets.
const BUFFER_OCTETS: usize = 65_536;

/// A file to read from.
pub type FileSource = BufferedSource<File>;

/// A file to write to.
pub type FileSink = BufferedSink<File>;

/// Standard output.
pub type LineOut = BufferedSink<Stdout>;

// Returns the reader or the writer, or the error of one that is missing.
fn there<T>(end: Option<T>) -> io::Result<T>
    ensures { result_ok result ≡ end }
{
    match end {
        Some(end) => Ok(end),
        None => Err(ErrorKind::NotFound.into()),
    }
}

/// A reader outside the program, with a read buffer. Its octets are known if the reader's are.
#[derive(Drop)]
pub struct BufferedSource<R: Read> {
    /// The reader, or why there is none.
    ahead: io::Result<ReadAhead<R>>,
    faults: u64,
}

impl<R: Read> Model for BufferedSource<R> {
    ghost Value = { OutsideSource };

    ghost view = { λ s. record {
      outside = record { is_there = is_ok s.ahead; faults = s.faults };
      buffered = buffered_ahead s.ahead;
      unread = unread_of R.remaining s.ahead;
    } };

    ghost invariant = { λ s. 0 < s.faults → IfOk s.ahead (λ ahead. IsSome ahead.last_error) };
}

impl<R: Read + Drop> BufferedSource<R> {
    /// Returns a source over this reader. Without a reader every call fails.
    pub fn over(end: Option<R>) -> BufferedSource<R>
        ensures { result ≡ record {
          outside = record { is_there = is_some end; faults = 0 };
          buffered = [];
          unread = option_and_then R.remaining end;
        } }
    {
        BufferedSource::opened(there(end))
    }

    /// Returns a source over the reader that was opened. If the opening failed, every call fails,
    /// and `last_error` returns its error.
    pub fn opened(end: io::Result<R>) -> BufferedSource<R>
        ensures { result ≡ record {
          outside = record { is_there = is_ok end; faults = 0 };
          buffered = [];
          unread = option_and_then R.remaining (result_ok end);
        } }
    {
        BufferedSource {
            ahead: end.map(ReadAhead::new),
            faults: 0,
        }
    }

    /// Returns the error of the last call that failed.
    pub fn last_error(&self) -> Option<io::Error>
        ensures { IsSome result ↔ 0 < self.now.outside.faults }
    {
        if self.faults == 0 {
            return None;
        }
        match &self.ahead {
            Ok(ahead) => ahead.last_error(),
            Err(error) => Some(*error),
        }
    }
}

impl<R: Read + Drop> Source for BufferedSource<R> {
    ghost left = { octets_left_of };

    ghost fault_count = { λ s. s.outside.faults };

    /// Moves buffered octets to the front of `buf`; reads only if none are buffered.
    fn fetch(&mut self, buf: &mut [u8]) -> Result<usize, Failed>
        ensures octets { Fetches (octets_left_of self.old) (octets_left_of self.new) result buf.new }
        ensures buffered { 0 < length self.old.buffered → (self.new.unread ≡ self.old.unread)
            × IfOk result (λ n. self.old.buffered ≡ take n buf.new ++ self.new.buffered) }
        ensures cause { HasCause self.old.outside.faults self.new.outside.faults result }
        ensures over_none { self.old.outside.is_there ≡ false → IsErr result }
        ensures ok { OnOk result (self.new.outside ≡ self.old.outside) }
        ensures failed { OnErr result (self.new.outside ≡ record self.old.outside {
          faults = next_count self.old.outside.faults;
        }) }
    {
        let result = match &mut self.ahead {
            Ok(ahead) => ahead.fetch(buf),
            Err(_) => Err(Failed),
        };
        if result.is_err() {
            self.faults = self.faults.saturating_add(1);
        }
        result
    }

    fn faults(&self) -> u64 {
        self.faults
    }

    /// Returns whether the read buffer is empty; false if there is no reader.
    fn may_wait(&self) -> bool
        ensures { IsTrue result ↔ (self.now.outside.is_there ≡ true) × (self.now.buffered ≡ []) }
    {
        match &self.ahead {
            Ok(ahead) => ahead.is_empty(),
            Err(_) => false,
        }
    }
}

/// A writer outside the program, with a write buffer. Its octets (`octets_held_of`) are known if
/// the writer's are; its `held` never is, since a failed write discards the buffered octets. Octets
/// may stay in the buffer until `flush`; dropping the sink writes none.
#[derive(Drop)]
pub struct BufferedSink<W: Write> {
    /// The writer, or why there is none.
    behind: io::Result<WriteBehind<W>>,
    faults: u64,
}

impl<W: Write> Model for BufferedSink<W> {
    ghost Value = { OutsideSink };

    ghost view = { λ s. record {
      outside = record { is_there = is_ok s.behind; faults = s.faults };
      written = written_of W.contents s.behind;
      buffered = buffered_behind s.behind;
    } };

    ghost invariant = { λ s. 0 < s.faults → IfOk s.behind (λ behind. IsSome behind.last_error) };
}

impl<W: Write + Drop> BufferedSink<W> {
    /// Returns a sink over this writer. Without a writer every call fails.
    pub fn over(end: Option<W>) -> BufferedSink<W>
        ensures { result ≡ record {
          outside = record { is_there = is_some end; faults = 0 };
          written = option_and_then W.contents end;
          buffered = [];
        } }
    {
        BufferedSink::opened(there(end))
    }

    /// Returns a sink over the writer that was opened. If the opening failed, every call fails, and
    /// `last_error` returns its error.
    pub fn opened(end: io::Result<W>) -> BufferedSink<W>
        ensures { result ≡ record {
          outside = record { is_there = is_ok end; faults = 0 };
          written = option_and_then W.contents (result_ok end);
          buffered = [];
        } }
    {
        BufferedSink {
            behind: end.map(WriteBehind::new),
            faults: 0,
        }
    }

    /// Returns the error of the last call that failed.
    pub fn last_error(&self) -> Option<io::Error>
        ensures { IsSome result ↔ 0 < self.now.outside.faults }
    {
        if self.faults == 0 {
            return None;
        }
        match &self.behind {
            Ok(behind) => behind.last_error(),
            Err(error) => Some(*error),
        }
    }

    /// Returns the octets that were last written out of the buffer, or that were to be written if
    /// that failed; none if octets were buffered since.
    pub fn last_written(&self) -> &[u8]
        ensures few { length result.now ≤ BUFFER_OCTETS }
        ensures over_none { self.now.outside.is_there ≡ false → result.now ≡ [] }
        ensures buffered { 0 < length self.now.buffered → result.now ≡ [] }
    {
        match &self.behind {
            Ok(behind) => behind.last_written(),
            Err(_) => &[],
        }
    }
}

impl<W: Write + Drop> Sink for BufferedSink<W> {
    ghost held = { λ _. None };

    ghost fault_count = { λ s. s.outside.faults };

    /// Buffers the octets; calls the writer only if they do not fit into the buffer.
    fn put(&mut self, bytes: &[u8]) -> Result<(), Failed>
        ensures appended { OnOk result (Appends (octets_held_of self.old) (octets_held_of self.new)
            bytes.now) }
        ensures fits { self.old.outside.is_there ≡ true
            → length self.old.buffered + length bytes.now ≤ BUFFER_OCTETS
            → IsOk result × (self.new ≡ record self.old {
              buffered = self.old.buffered ++ bytes.now;
            }) }
        ensures discarded { OnErr result (self.new.buffered ≡ []) }
        ensures cause { HasCause self.old.outside.faults self.new.outside.faults result }
        ensures over_none { self.old.outside.is_there ≡ false → IsErr result }
        ensures ok { OnOk result (self.new.outside ≡ self.old.outside) }
        ensures failed { OnErr result (self.new.outside ≡ record self.old.outside {
          faults = next_count self.old.outside.faults;
        }) }
    {
        let result = match &mut self.behind {
            Ok(behind) => behind.put(bytes),
            Err(_) => Err(Failed),
        };
        if result.is_err() {
            self.faults = self.faults.saturating_add(1);
        }
        result
    }

    /// Writes the buffered octets.
    fn flush(&mut self) -> Result<(), Failed>
        ensures written { OnOk result (Keeps (octets_held_of self.old) self.new.written) }
        ensures empty { self.new.buffered ≡ [] }
        ensures cause { HasCause self.old.outside.faults self.new.outside.faults result }
        ensures over_none { self.old.outside.is_there ≡ false → IsErr result }
        ensures ok { OnOk result (self.new.outside ≡ self.old.outside) }
        ensures failed { OnErr result (self.new.outside ≡ record self.old.outside {
          faults = next_count self.old.outside.faults;
        }) }
    {
        let result = match &mut self.behind {
            Ok(behind) => behind.flush(),
            Err(_) => Err(Failed),
        };
        if result.is_err() {
            self.faults = self.faults.saturating_add(1);
        }
        result
    }

    fn faults(&self) -> u64 {
        self.faults
    }
}
