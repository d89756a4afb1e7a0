//! Writes texts and numbers, of which lines are made.
ghost use Rattle.std.specs.Prelude.{◌<◌};

use edge_io::NoMemory;
use itoa::Buffer;

/// Whether something was written: not if memory could not be allocated.
pub(crate) type Put = Result<(), NoMemory>;

/// Writes a text.
#[inline]
pub(crate) fn put_text(text: &mut String, piece: &str) -> Put {
    text.push_str(piece)?;
    Ok(())
}

/// Writes a character below 128.
pub(crate) fn put_char(text: &mut String, code: u8) -> Put
    requires { code < 128 }
{
    text.push(char::from(code))?;
    Ok(())
}

/// Writes a number.
pub(crate) fn put_number(text: &mut String, number: u64) -> Put {
    let mut buffer = Buffer::new();
    put_text(text, buffer.format(number))
}

/// Writes a text in quotes.
pub(crate) fn put_string(text: &mut String, piece: &str) -> Put {
    put_text(text, "\"")?;
    put_text(text, piece)?;
    put_text(text, "\"")
}

/// Returns what precedes an element of a list: the separator before all but the first.
pub(crate) fn between(at: usize, separator: &'static str) -> &'static str {
    if at == 0 { "" } else { separator }
}
