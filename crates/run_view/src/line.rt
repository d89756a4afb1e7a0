//! The lines of a report, read one by one through a buffer.
ghost use Rattle.std.specs.Prelude.{◌≡◌, ◌≤◌, ◌-◌, ℕ, List, length, take, IfOk, OnErr, OnOk};
ghost use Rattle.std.specs.Io.KnownBytes.{Keeps};
ghost use Rattle.std.specs.declared.option.Option.{Option};
ghost use Rattle.edge_io.specs.FaultCounts.{HasCause};
ghost use Rattle.edge_io.specs.KnownOctets.{TakesFewer};
ghost use Rattle.run_view.specs.working.FrontLine.{front_line};

use edge_io::{Failed, NoMemory, Source, read_full};
use std::alloc::Global;

/// The most octets of a line; the longest line of a report has 377.
pub(crate) const LINE_ROOM: usize = 400;

/// The room for octets that are read ahead.
const ROOM: usize = 4_096;

/// The octets of a report that were read ahead, and the newest line, which precedes them.
#[derive(Drop)]
pub(crate) struct Lines {
    buffer: Box<[u8; ROOM]>,
    /// The offset of the newest line in the buffer.
    line: usize,
    /// The offset after the newest line, where the octets that were read ahead begin.
    start: usize,
    filled: usize,
    ghost behind: { line ≤ start },
    ghost ordered: { start ≤ filled },
    ghost within: { filled ≤ 4096 },
}

impl Lines {
    ghost use Rattle.run_view.specs.working.LinesAhead.{GoesOn, HasEnough, TookLine, ahead_in, left_in, line_in};

    /// Creates a buffer without octets read ahead.
    pub(crate) fn new(alloc: Global) -> Result<Lines, NoMemory>
        ensures { IfOk result (λ lines. (left : Option (List ℕ)) → left_in lines left ≡ left) }
    {
        let buffer = Box::new(alloc, [0u8; ROOM])?;
        Ok(Lines {
            buffer,
            line: 0,
            start: 0,
            filled: 0,
        })
    }

    /// Moves to the next line, with its line feed: at most 400 octets, and all that are left if
    /// they have no line feed.
    pub(crate) fn next<R: Source>(&mut self, source: &mut R) -> Result<(), Failed>
        ensures short { OnOk result (length (line_in self.new) ≤ 400) }
        ensures line { OnOk result (TookLine (left_in self.old (R.left source.old)) (left_in self.new (R.left source.new)) (line_in self.new)) }
        ensures unread { OnErr result (TakesFewer (left_in self.old (R.left source.old)) (R.left source.new) 4096) }
        ensures cause { HasCause (R.fault_count source.old) (R.fault_count source.new) result }
    {
        self.fill(source)?;
        let len = line_length(self.ahead());
        self.line = self.start;
        self.start += len;
        Ok(())
    }

    /// Returns the newest line.
    pub(crate) fn line(&self) -> &[u8]
        ensures { result.now ≡ line_in self.now }
    {
        &self.buffer[self.line..self.start]
    }

    /// Returns whether octets follow the newest line. What is left stays, but the newest line may
    /// be lost.
    pub(crate) fn goes_on<R: Source>(&mut self, source: &mut R) -> Result<bool, Failed>
        ensures more { IfOk result (λ more. GoesOn more (left_in self.old (R.left source.old))) }
        ensures unread { OnErr result (TakesFewer (left_in self.old (R.left source.old)) (R.left source.new) 4096) }
        ensures cause { HasCause (R.fault_count source.old) (R.fault_count source.new) result }
    {
        self.fill(source)?;
        Ok(!self.ahead().is_empty())
    }

    // Returns the octets that were read ahead.
    fn ahead(&self) -> &[u8]
        ensures value { result.now ≡ ahead_in self.now }
        ensures len { length result.now ≡ self.now.filled - self.now.start }
    {
        &self.buffer[self.start..self.filled]
    }

    // Reads ahead as many octets as a line may have, or all.
    fn fill<R: Source>(&mut self, source: &mut R) -> Result<(), Failed>
        ensures kept { OnOk result (Keeps (left_in self.old (R.left source.old)) (left_in self.new (R.left source.new))) }
        ensures enough { OnOk result (HasEnough self.new (R.left source.new)) }
        ensures unread { OnErr result (TakesFewer (left_in self.old (R.left source.old)) (R.left source.new) 4096) }
        ensures cause { HasCause (R.fault_count source.old) (R.fault_count source.new) result }
    {
        if LINE_ROOM <= self.filled - self.start {
            return Ok(());
        }
        self.refill(source)
    }

    // Moves what was read ahead to the front of the buffer, and fills the rest.
    #[cold]
    fn refill<R: Source>(&mut self, source: &mut R) -> Result<(), Failed>
        ensures kept { OnOk result (Keeps (left_in self.old (R.left source.old)) (left_in self.new (R.left source.new))) }
        ensures enough { OnOk result (HasEnough self.new (R.left source.new)) }
        ensures unread { OnErr result (TakesFewer (left_in self.old (R.left source.old)) (R.left source.new) 4096) }
        ensures cause { HasCause (R.fault_count source.old) (R.fault_count source.new) result }
    {
        let count = self.filled - self.start;
        self.buffer.copy_within(self.start..self.filled, 0);
        self.line = 0;
        self.start = 0;
        self.filled = count;
        let more = read_full(source, &mut self.buffer[count..])?;
        self.filled = count + more;
        Ok(())
    }
}

// Returns the length of the first line, with its line feed, or at most 400 octets.
fn line_length(octets: &[u8]) -> usize
    ensures line { take result octets.now ≡ front_line 400 octets.now }
    ensures within { result ≤ length octets.now }
    ensures short { result ≤ 400 }
{
    let room = LINE_ROOM.min(octets.len());
    let front = &octets[..room];
    let feed = front.iter().position(|octet| *octet == b'\n');
    (feed.unwrap_or(room) + 1).min(room)
}
