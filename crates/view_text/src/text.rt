//! Named values as text.

use crate::octets::put_octets;
use crate::put::{Put, put_number, put_text};
use crate::value::{Part, Value};
use crate::word::put_word;

// Writes the numbers of this number of frames, after those before them: one, or the first and the
// last.
pub(crate) fn put_frames(text: &mut String, before: u64, count: u8) -> Put {
    put_number(text, before.saturating_add(1))?;
    if count == 1 {
        return Ok(());
    }
    put_text(text, "-")?;
    put_number(text, before.saturating_add(u64::from(count)))
}

// Writes a value.
fn put_value(text: &mut String, value: Value<'_>) -> Put {
    match value {
        Value::Absent => put_text(text, "-"),
        Value::Number(number) => put_number(text, number),
        Value::Mark(_) => Ok(()),
        Value::Word(word) => put_word(text, word),
        Value::Octets(octets) => put_octets(text, octets),
        Value::Counted(octets) => {
            put_number(text, octets.len() as u64)?;
            put_text(text, " ")?;
            put_octets(text, octets)
        }
        Value::Frames { before, count } => put_frames(text, before, count),
    }
}

// Returns whether a value is on the line.
fn is_shown(dash: bool, value: Value<'_>) -> bool {
    match value {
        Value::Absent => dash,
        Value::Mark(set) => set || dash,
        _ => true,
    }
}

/// Writes a named value after its lead, where it is on the line.
pub(crate) fn put_part(text: &mut String, part: &Part<'_>) -> Put {
    let Some(lead) = part.lead else {
        return Ok(());
    };
    if !is_shown(part.dash, part.value) {
        return Ok(());
    }
    put_text(text, lead)?;
    put_value(text, part.value)
}
