//! Why a program ends without an answer.
ghost use Rattle.std.specs.Prelude.{◌≡◌, option_map};

use std::alloc::{AllocError, Global};
use std::io;

/// Why a program ends without an answer.
#[derive(Clone, Copy)]
pub enum Why<'a> {
    /// The arguments are invalid. `stop` is the last line of standard output.
    Words { stop: &'a str },
    /// The file is malformed. `stop` is the last line of standard output.
    Malformed { file: &'a str, stop: &'a str },
    /// The file could not be opened, read or written.
    Failed { file: &'a str, error: io::Error },
    /// Memory could not be allocated.
    Memory,
}

/// Returns that the last call on this file failed, if its error is present.
pub fn failed<'a>(file: &'a str, error: Option<io::Error>) -> Option<Why<'a>>
    ensures { result ≡ option_map (λ error. Why.Failed file.entry error) error }
{
    let error = error?;
    Some(Why::Failed { file, error })
}

impl Why<'_> {
    // Returns the line without its line feed.
    pub(crate) fn text(&self, alloc: Global, program: &str) -> Result<String, AllocError> {
        match self {
            Why::Words { stop } => format!(in alloc; "{program}: words refused ({stop})"),
            Why::Malformed {
                file,
                stop: "stop report 0",
            } => format!(in alloc; "{program}: {file}: report of over 67108864 octets"),
            Why::Malformed { file, stop } => {
                let fault = fault_of(stop);
                let number = stop.rsplit(' ').next().unwrap_or("");
                format!(in alloc; "{program}: {file}: {fault} {number}")
            }
            Why::Failed { file, error } => {
                let text = format!(in alloc; "{error}")?;
                let reason = without_number(text.as_str());
                format!(in alloc; "{program}: {file}: {reason}")
            }
            Why::Memory => format!(in alloc; "{program}: not enough memory"),
        }
    }
}

// Returns what a `stop` line says, up to the number at its end.
fn fault_of(stop: &str) -> &'static str {
    let mut words = stop.rsplit(' ');
    let number = words.next().unwrap_or("");
    let kind = words.next().unwrap_or("");
    let file = words.next().unwrap_or("");
    match (kind, number, file) {
        ("magic", _, _) => "unknown magic number at offset",
        ("version", _, _) => "unknown version at offset",
        ("link", _, "out") => "unknown link type, or not that of IN, at offset",
        ("link", _, _) => "unknown link type at offset",
        ("block", "0", _) => "malformed block, or a classic capture under --inside, at offset",
        ("block", _, _) => "malformed block at offset",
        ("long", _, _) => "record of over 262144 octets at offset",
        ("many", _, _) => "too many records or blocks, from offset",
        ("cut", _, _) => "cut off in the head, record or block at offset",
        ("report", _, _) => "not the report of a finished run, by line",
        _ => "malformed at",
    }
}

// Returns the words of the system without the number that std appends.
fn without_number(text: &str) -> &str {
    match text.split_once(" (os error ") {
        Some((words, _)) => words,
        None => text,
    }
}
