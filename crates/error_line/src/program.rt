//! How a program begins, and how it ends without memory.
use crate::{Why, tell};
use std::alloc::{AllocError, Global};
use std::process::ExitCode;
use std::{env, io};

/// What a program prints of itself.
#[derive(Clone, Copy)]
pub struct Program {
    /// Its name, at the beginning of a line on standard error.
    pub name: &'static str,
    /// The answers to `--help` (or `-h`) and to `--version`, each with its line feeds.
    pub help: &'static str,
    pub version: &'static str,
    /// The line on standard output if memory could not be allocated, with its line feed.
    pub memory: &'static str,
}

impl Program {
    /// Returns the words after the program's name. A command line with a word that is not UTF-8
    /// counts as one without words. The error is the status of a program that is over: its only
    /// word asked for a text, which was printed (0, or 7 if that failed), or memory could not be
    /// allocated (8).
    pub fn words(&self, rt: &HostRuntime) -> Result<Vec<String>, ExitCode> {
        if reserve_stack(rt.alloc()).is_err() {
            return Err(self.without_memory(rt));
        }
        let words = match words_after_name(rt) {
            Ok(words) => words,
            Err(error) if error.kind() == io::ErrorKind::OutOfMemory => {
                return Err(self.without_memory(rt));
            }
            Err(_) => Vec::new(rt.alloc()),
        };
        match self.asked_text(&words) {
            Some(text) => Err(self.print(rt, text)),
            None => Ok(words),
        }
    }

    /// Reports on both outputs that memory could not be allocated, and returns the status 8.
    pub fn without_memory(&self, rt: &HostRuntime) -> ExitCode {
        let _ = rt.print(self.memory);
        tell(rt, self.name, &Why::Memory);
        ExitCode::from(8)
    }

    // Returns the text that the words ask for, where they ask for one alone.
    fn asked_text(&self, words: &[String]) -> Option<&'static str> {
        let [word] = words else {
            return None;
        };
        match word.as_str() {
            "--help" | "-h" => Some(self.help),
            "--version" => Some(self.version),
            _ => None,
        }
    }

    // Prints a text, and returns the status.
    fn print(&self, rt: &HostRuntime, text: &str) -> ExitCode {
        let Err(error) = rt.print(text) else {
            return ExitCode::SUCCESS;
        };
        let file = STANDARD_OUTPUT;
        tell(rt, self.name, &Why::Failed { file, error });
        ExitCode::from(7)
    }
}

/// The name of standard output on standard error.
pub const STANDARD_OUTPUT: &str = "standard output";

// Size of the stack that a program may need, in octets.
const STACK_OCTETS: usize = 196_608;

// Allocates and frees as much as the stack may need. Where the system cannot grow the stack, it
// ends the program by a signal; where this is refused, the program ends with 8.
fn reserve_stack(alloc: Global) -> Result<(), AllocError> {
    let _room: Vec<u8> = Vec::with_capacity(alloc, STACK_OCTETS)?;
    Ok(())
}

fn words_after_name(rt: &HostRuntime) -> io::Result<Vec<String>> {
    let mut words = env::args(rt)?;
    let _ = words.next();
    Ok(words.collect(rt.alloc())?)
}
