//! Named values as JSON.

use crate::octets::put_octets_json;
use crate::put::{Put, between, put_number, put_text};
use crate::value::{Part, Value};
use crate::word::put_word;

// Writes the numbers of this number of frames, after those before them, as an array.
fn put_numbers(text: &mut String, before: u64, count: u8) -> Put {
    put_text(text, "[")?;
    for at in 0..count {
        put_text(text, between(usize::from(at), ","))?;
        put_number(text, before.saturating_add(u64::from(at) + 1))?;
    }
    put_text(text, "]")
}

// Writes a value.
#[inline(always)]
fn put_value(text: &mut String, value: Value<'_>) -> Put {
    match value {
        Value::Absent => put_text(text, "null"),
        Value::Number(number) => put_number(text, number),
        Value::Mark(true) => put_text(text, "true"),
        Value::Mark(false) => put_text(text, "false"),
        Value::Word(word) => {
            put_text(text, "\"")?;
            put_word(text, word)?;
            put_text(text, "\"")
        }
        Value::Octets(octets) | Value::Counted(octets) => put_octets_json(text, octets),
        Value::Frames { before, count } => put_numbers(text, before, count),
    }
}

/// Writes named values as members after others.
pub(crate) fn put_members(text: &mut String, parts: &[Part<'_>]) -> Put {
    for part in parts {
        put_text(text, part.key)?;
        put_value(text, part.value)?;
    }
    Ok(())
}

/// Writes named values as the first members of an object.
pub(crate) fn put_first_members(text: &mut String, parts: &[Part<'_>]) -> Put {
    let Some((first, rest)) = parts.split_first() else {
        return Ok(());
    };
    put_text(text, first.key.strip_prefix(",").unwrap_or(first.key))?;
    put_value(text, first.value)?;
    put_members(text, rest)
}

/// Writes an object.
pub(crate) fn put_object(text: &mut String, parts: &[Part<'_>]) -> Put {
    put_text(text, "{")?;
    put_first_members(text, parts)?;
    put_text(text, "}")
}
