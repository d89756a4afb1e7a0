//! A source with a look-ahead buffer: octets that were read before, then the octets of a source.
ghost use Rattle.std.specs.Prelude.{◌≡◌, ◌≤◌, length};
ghost use Rattle.std.specs.Io.KnownBytes.{prepend_known};
ghost use Rattle.edge_io.specs.FaultCounts.{HasCause};
ghost use Rattle.edge_io.specs.KnownOctets.{Fills};

use edge_io::{Failed, Source, read_full};

/// A source that returns the octets of its look-ahead buffer first, and then those of another
/// source.
#[derive(Drop)]
pub struct Ahead<'a, S: Source> {
    kept: &'a [u8],
    source: &'a mut S,
}

impl<'a, S: Source> Ahead<'a, S> {
    /// Returns a source of the octets `kept`, and then of those that `source` has left.
    pub fn new(kept: &'a [u8], source: &'a mut S) -> Ahead<'a, S>
        ensures kept { result.kept.now ≡ kept.entry.now }
        ensures source { result.source.now ≡ source.old }
        ensures same_source { result.source.ghost_name ≡ source.entry.ghost_name }
    {
        Ahead { kept, source }
    }
}

impl<S: Source> Source for Ahead<'_, S> {
    ghost use Rattle.std.specs.Prelude.{◌≡◌};
    ghost use Rattle.std.specs.Io.KnownBytes.{prepend_known};
    ghost use Rattle.edge_io.specs.FaultCounts.{HasCause};
    ghost use Rattle.edge_io.specs.KnownOctets.{Fetches};

    ghost left = { λ a. prepend_known a.kept.now (S.left a.source.now) };

    ghost fault_count = { λ a. S.fault_count a.source.now };

    fn fetch(&mut self, buf: &mut [u8]) -> Result<usize, Failed>
        ensures octets { Fetches (prepend_known self.old.kept.now (S.left self.old.source.now))
            (prepend_known self.new.kept.now (S.left self.new.source.now)) result buf.new }
        ensures cause { HasCause (S.fault_count self.old.source.now) (S.fault_count self.new.source.now) result }
        ensures same_source { self.new.source.ghost_name ≡ self.old.source.ghost_name }
    {
        if self.kept.is_empty() {
            return self.source.fetch(buf);
        }
        let count = self.kept.len().min(buf.len());
        buf[..count].copy_from_slice(&self.kept[..count]);
        self.kept = &self.kept[count..];
        Ok(count)
    }

    fn faults(&self) -> u64 {
        self.source.faults()
    }
}

/// Fills the buffer with the octets `first`, which were read before, and then with those of the
/// source. Returns the number of octets in the buffer.
pub fn read_behind<S: Source>(first: &[u8], source: &mut S, buf: &mut [u8]) -> Result<usize, Failed>
    requires { length first.now ≤ length buf.old }
    ensures octets { Fills (prepend_known first.now (S.left source.old)) (S.left source.new) result buf.new }
    ensures cause { HasCause (S.fault_count source.old) (S.fault_count source.new) result }
{
    let known = first.len();
    buf[..known].copy_from_slice(first);
    let more = read_full(source, &mut buf[known..])?;
    Ok(known + more)
}
