//! Why a run is not viewed to its end, and the line that reports it.
ghost use Rattle.std.specs.Prelude.{◌≡◌};
ghost use Rattle.run_view.specs.StopMeanings as spec;

use capture_input::InputFault;
use edge_io::NoMemory;
use std::alloc::{AllocError, Global};
use view_text::{Format, stop_line};

/// Why a run is not viewed to its end.
#[derive(Clone, Copy, Debug, PartialEq, Eq)]
pub enum Stop {
    /// The arguments are invalid.
    Words,
    /// This record, counted from 1, is in one of input and report alone.
    Record(u64),
    /// This frame, counted from 1, is in one of output and report alone.
    Frame(u64),
    /// The input is no capture, by the head, record or block at this offset.
    Input { fault: InputFault, offset: u64 },
    /// The output is no capture, by the head or record at this offset.
    Output { fault: InputFault, offset: u64 },
    /// A source failed.
    Unread,
    /// What is printed could not be written.
    Unwritten,
    /// Memory could not be allocated.
    Memory,
    /// The report is that of no finished run, by this line, counted from 1.
    Report(u64),
}

impl From<NoMemory> for Stop {
    ghost use Rattle.std.specs.Prelude.{◌≡◌};
    ghost use Rattle.run_view.specs.declared.stop.Stop.TheVariants.{Memory};

    ghost from_gives = { λ _ stop. stop ≡ Memory };

    fn from(_: NoMemory) -> Stop {
        Stop::Memory
    }
}

impl From<AllocError> for Stop {
    ghost use Rattle.std.specs.Prelude.{◌≡◌};
    ghost use Rattle.run_view.specs.declared.stop.Stop.TheVariants.{Memory};

    ghost from_gives = { λ _ stop. stop ≡ Memory };

    fn from(_: AllocError) -> Stop {
        Stop::Memory
    }
}

// Returns the word of the fault of a capture.
fn fault_word(fault: InputFault) -> &'static str {
    match fault {
        InputFault::Cut => "cut",
        InputFault::Magic => "magic",
        InputFault::Version => "version",
        InputFault::Link => "link",
        InputFault::Block => "block",
        InputFault::Long => "long",
        InputFault::Many => "many",
        InputFault::ReadFault => "read",
    }
}

// Returns the status of the fault of a capture.
fn fault_status(fault: InputFault) -> u8
    ensures { result ≡ spec.fault_status fault }
{
    match fault {
        InputFault::Cut => 4,
        InputFault::Magic
        | InputFault::Version
        | InputFault::Link
        | InputFault::Block
        | InputFault::Long
        | InputFault::Many => 3,
        InputFault::ReadFault => 5,
    }
}

impl Stop {
    ghost use Rattle.run_view.specs.StopMeanings as spec;

    /// Returns the status that goes with the line.
    pub fn status(self) -> u8
        ensures { result ≡ spec.status_of self }
    {
        match self {
            Stop::Words => 2,
            Stop::Record(_) | Stop::Frame(_) => 1,
            Stop::Input { fault, .. } | Stop::Output { fault, .. } => fault_status(fault),
            Stop::Unread => 5,
            Stop::Unwritten => 7,
            Stop::Memory => 8,
            Stop::Report(_) => 9,
        }
    }

    // Returns the words that say why; None for an output that failed.
    fn reason(self, alloc: Global) -> Result<Option<String>, AllocError> {
        let reason = match self {
            Stop::Words => String::from_str(alloc, "stop words")?,
            Stop::Record(number) => format!(in alloc; "no record {number}")?,
            Stop::Frame(number) => format!(in alloc; "no frame {number}")?,
            Stop::Input { fault, offset } => {
                let word = fault_word(fault);
                format!(in alloc; "stop in {word} {offset}")?
            }
            Stop::Output { fault, offset } => {
                let word = fault_word(fault);
                format!(in alloc; "stop out {word} {offset}")?
            }
            Stop::Unread => String::from_str(alloc, "stop read")?,
            Stop::Unwritten => return Ok(None),
            Stop::Memory => String::from_str(alloc, "stop memory")?,
            Stop::Report(line) => format!(in alloc; "stop report {line}")?,
        };
        Ok(Some(reason))
    }

    /// Returns the line, with its line feed; none for an output that failed.
    pub(crate) fn line(self, alloc: Global, format: Format) -> Result<String, NoMemory> {
        match self.reason(alloc)? {
            Some(reason) => stop_line(alloc, format, self.status(), reason.as_str()),
            None => Ok(String::new(alloc)),
        }
    }
}
