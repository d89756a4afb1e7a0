//! A source of octets and a sink for octets.
ghost use Rattle.std.specs.Prelude.{◌≡◌, List, ℕ};
ghost use Rattle.std.specs.declared.option.Option.{Option};
ghost use Rattle.edge_io.specs.FaultCounts.{HasCause};
ghost use Rattle.edge_io.specs.KnownOctets.{Fetches, Puts, Flushes};

use crate::Failed;

/// A source of octets.
pub trait Source {
    /// The octets left, if the source has known octets.
    ghost left: { Self → Option (List ℕ) };

    /// The number of failed calls.
    ghost fault_count: { Self → ℕ };

    /// Moves the first octets left to the front of the buffer. Returns their number. If it returns
    /// 0 for a buffer that is not empty, the source is at its end. If it fails, no octet was taken.
    fn fetch(&mut self, buf: &mut [u8]) -> Result<usize, Failed>
        ensures octets { Fetches (left self.old) (left self.new) result buf.new }
        ensures cause { HasCause (fault_count self.old) (fault_count self.new) result };

    /// Returns the number of failed calls; the count saturates at the last value of its type.
    fn faults(&self) -> u64
        ensures { result ≡ fault_count self.now };

    /// Returns whether the next call may wait for the outside. False by default; a `BufferedSource`
    /// with a reader returns whether its read buffer is empty. No clause of a run depends on it.
    fn may_wait(&self) -> bool {
        false
    }
}

/// A sink for octets.
pub trait Sink {
    /// The octets held, if the sink has known octets.
    ghost held: { Self → Option (List ℕ) };

    /// The number of failed calls.
    ghost fault_count: { Self → ℕ };

    /// Appends the octets, or a prefix of them if it fails.
    fn put(&mut self, bytes: &[u8]) -> Result<(), Failed>
        ensures octets { Puts (held self.old) (held self.new) result bytes.now }
        ensures cause { HasCause (fault_count self.old) (fault_count self.new) result };

    /// Writes the buffered octets. A sink with known octets buffers none.
    fn flush(&mut self) -> Result<(), Failed>
        ensures octets { Flushes (held self.old) (held self.new) result }
        ensures cause { HasCause (fault_count self.old) (fault_count self.new) result }
    {
        Ok(())
    }

    /// Returns the number of failed calls; the count saturates at the last value of its type.
    fn faults(&self) -> u64
        ensures { result ≡ fault_count self.now };
}
