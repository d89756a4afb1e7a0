//! The line, and where it is printed.
ghost use Rattle.std.specs.Prelude.{◌≤◌, IfOk};
ghost use Rattle.error_line.specs.Lines.{IsLine};

use crate::Why;
use std::alloc::{AllocError, Global};
use std::io::Write;

/// Prints on standard error why the program ends. A failure there changes nothing.
pub fn tell(rt: &HostRuntime, program: &str, why: &Why<'_>) {
    let _ = match error_line(rt.alloc(), program, why) {
        Ok(line) => rt.stderr().write_all(&line),
        Err(_) => eprintln!(rt; "{program}: not enough memory"),
    };
}

/// Returns the line that says why the program ends. Control characters, as a file's name may have,
/// are replaced by question marks.
pub fn error_line(alloc: Global, program: &str, why: &Why<'_>) -> Result<Vec<u8>, AllocError>
    ensures { IfOk result (λ line. IsLine line.items) }
{
    let text = why.text(alloc, program)?;
    let mut line = Vec::new(alloc);
    for octet in text.as_bytes() {
        line.push(printable(*octet))?;
    }
    line.push(b'\n')?;
    Ok(line)
}

// Returns the octet, or a question mark for a control character.
fn printable(octet: u8) -> u8
    ensures { 32 ≤ result }
{
    if octet < b' ' || octet == 127 {
        b'?'
    } else {
        octet
    }
}

/// Returns the last line of these octets without its line feed; an empty one if it is not UTF-8.
pub fn last_line(octets: &[u8]) -> &str {
    let lines = match octets.strip_suffix(b"\n") {
        Some(lines) => lines,
        None => octets,
    };
    let line = lines.rsplit(|octet| *octet == b'\n').next();
    match std::str::from_utf8(line.unwrap_or(lines)) {
        Ok(line) => line,
        Err(_) => "",
    }
}
