//! Named values as cells of a table.

use crate::put::{Put, put_number, put_text};
use crate::text::put_frames;
use crate::value::{Part, Value};
use crate::word::put_word;

/// Writes a value.
pub(crate) fn put_cell(text: &mut String, value: Value<'_>) -> Put {
    match value {
        Value::Absent | Value::Octets(_) | Value::Counted(_) => put_text(text, "-"),
        Value::Number(number) => put_number(text, number),
        Value::Mark(true) => put_text(text, "true"),
        Value::Mark(false) => put_text(text, "false"),
        Value::Word(word) => put_word(text, word),
        Value::Frames { before, count } => put_frames(text, before, count),
    }
}

/// Writes cells after the first.
pub(crate) fn put_cells(text: &mut String, parts: &[Part<'_>]) -> Put {
    for part in parts {
        put_text(text, "\t")?;
        put_cell(text, part.value)?;
    }
    Ok(())
}
