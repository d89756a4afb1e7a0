//! The answer of an audit, and its line.
ghost use Rattle.std.specs.Prelude.{◌≡◌, ◌⊎◌, ◌≤◌, IfOk, string_bytes};
ghost use Rattle.run_audit.specs.AnswerOutput.{Tells, TellsLine};
ghost use Rattle.rule_book.specs.Text.{stop_word};

use edge_io::{NoMemory, Sink};
use std::alloc::{AllocError, Global};

/// The fault of a frame. The variants are in the order of testing.
#[derive(Clone, Copy, Debug, PartialEq, Eq)]
pub enum Reason {
    /// The frame is in the capture or in the report alone.
    Count,
    /// A receiver may differ from its fields in how it reads it, or its entry names an era that it
    /// is no segment of.
    Plain,
    /// It has octets or a FIN, and neither it nor an earlier segment fixes the base of its era.
    Base,
    /// The sequence number of its SYN is not the one before the base.
    Syn,
    /// One of its octets differs from the first one at its offset, or is at or past the end.
    Octet,
    /// Its FIN is not at the end; or no end is known before it, and it is below the offset after
    /// all octets, which is 0 without octets.
    Fin,
}

/// The flaw of octets that are no capture.
#[derive(Clone, Copy, Debug, PartialEq, Eq)]
pub enum Flaw {
    Magic,
    Version,
    Link,
    Long,
    Many,
    Cut,
}

/// The answer of an audit.
#[derive(Clone, Copy, Debug, PartialEq, Eq)]
pub enum Answer {
    /// No frame has a fault. The number of different eras that the report names, and the number of
    /// written frames.
    Yes { eras: usize, frames: u64 },
    /// The first frame with a fault, counted from 1.
    No { frame: u64, reason: Reason },
    /// The words are not those of an audit.
    Words,
    /// The capture is refused or cut: its head or a record has this flaw. The offset is that of the
    /// head or record, in octets.
    Flawed { flaw: Flaw, offset: u64 },
    /// A source failed.
    Unread,
    /// Memory could not be allocated.
    Memory,
    /// The report is not that of a finished run. The number of its first malformed line, counted
    /// from 1, or of its `stop` line; 0 if it is too long.
    Report { line: u64 },
}

impl From<NoMemory> for Answer {
    ghost use Rattle.std.specs.Prelude.{◌≡◌};
    ghost use Rattle.run_audit.specs.declared.answer.Answer.TheVariants.{Memory};

    ghost from_gives = { λ _ answer. answer ≡ Memory };

    fn from(_: NoMemory) -> Answer {
        Answer::Memory
    }
}

impl From<AllocError> for Answer {
    ghost use Rattle.std.specs.Prelude.{◌≡◌};
    ghost use Rattle.run_audit.specs.declared.answer.Answer.TheVariants.{Memory};

    ghost from_gives = { λ _ answer. answer ≡ Memory };

    fn from(_: AllocError) -> Answer {
        Answer::Memory
    }
}

impl Reason {
    ghost use Rattle.run_audit.specs.Answers as spec;

    fn word(self) -> &'static str
        ensures { result.now ≡ spec.reason_word self }
    {
        match self {
            Reason::Count => "count",
            Reason::Plain => "plain",
            Reason::Base => "base",
            Reason::Syn => "syn",
            Reason::Octet => "octet",
            Reason::Fin => "fin",
        }
    }
}

impl Flaw {
    ghost use Rattle.run_audit.specs.Answers as spec;

    // Returns the word of its `stop` line.
    fn word(self) -> &'static str
        ensures { result.now ≡ stop_word (spec.kind_of self) }
    {
        match self {
            Flaw::Magic => "magic",
            Flaw::Version => "version",
            Flaw::Link => "link",
            Flaw::Long => "long",
            Flaw::Many => "many",
            Flaw::Cut => "cut",
        }
    }

    fn status(self) -> u8
        ensures { result ≡ spec.flaw_status self }
    {
        match self {
            Flaw::Magic | Flaw::Version | Flaw::Link | Flaw::Long | Flaw::Many => 3,
            Flaw::Cut => 4,
        }
    }
}

impl Answer {
    ghost use Rattle.run_audit.specs.Answers as spec;

    /// Returns the status of this answer, if its line is written.
    pub fn status(self) -> u8
        ensures { result ≡ spec.status_of self }
    {
        match self {
            Answer::Yes { .. } => 0,
            Answer::No { .. } => 1,
            Answer::Words => 2,
            Answer::Flawed { flaw, .. } => flaw.status(),
            Answer::Unread => 5,
            Answer::Memory => 8,
            Answer::Report { .. } => 9,
        }
    }

    // Returns the line, with its line feed.
    fn line(self, alloc: Global) -> Result<String, AllocError>
        ensures { IfOk result (λ line. string_bytes line ≡ spec.line_of self) }
    {
        match self {
            Answer::Yes { eras, frames } => format!(in alloc; "yes {eras} {frames}\n"),
            Answer::No { frame, reason } => {
                let word = reason.word();
                format!(in alloc; "no {frame} {word}\n")
            }
            Answer::Words => String::from_str(alloc, "stop words\n"),
            Answer::Flawed { flaw, offset } => {
                let word = flaw.word();
                format!(in alloc; "stop {word} {offset}\n")
            }
            Answer::Unread => String::from_str(alloc, "stop read\n"),
            Answer::Memory => String::from_str(alloc, "stop memory\n"),
            Answer::Report { line } => format!(in alloc; "stop report {line}\n"),
        }
    }
}

/// Writes the line of an answer. Returns its status, or 7 if the output fails. If memory for the
/// line cannot be allocated, the answer is `Memory`.
pub(crate) fn tell<K: Sink>(alloc: Global, answer: Answer, out: &mut K) -> u8
    ensures told { Tells answer (K.held out.old) (K.held out.new) (K.fault_count out.old) (K.fault_count out.new) result
        ⊎ Tells Answer.Memory (K.held out.old) (K.held out.new) (K.fault_count out.old) (K.fault_count out.new) result }
    ensures later { K.fault_count out.old ≤ K.fault_count out.new }
{
    match answer.line(alloc) {
        Ok(line) => tell_line(line.as_bytes(), answer.status(), out),
        Err(_) => tell_line(b"stop memory\n", 8, out),
    }
}

// Writes a line. Returns its status, or 7 if the output fails.
fn tell_line<K: Sink>(line: &[u8], status: u8, out: &mut K) -> u8
    ensures told { TellsLine status line.now (K.held out.old) (K.held out.new) (K.fault_count out.old) (K.fault_count out.new) result }
    ensures later { K.fault_count out.old ≤ K.fault_count out.new }
{
    if out.put(line).is_err() {
        return 7;
    }
    if out.flush().is_err() {
        return 7;
    }
    status
}
