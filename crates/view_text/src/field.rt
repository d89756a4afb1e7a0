//! Fields in each format.

use crate::json::{put_members, put_object};
use crate::put::{Put, between, put_text};
use crate::table::{put_cell, put_cells};
use crate::value::Part;
use crate::{Format, text};
use edge_io::NoMemory;
use std::alloc::Global;
use std::slice;

// The room for a line at its beginning, in octets.
const ROOM: usize = 1_024;

/// Returns a line that begins with `event`, the name of what it says, and a first field.
pub(crate) fn begun(
    alloc: Global,
    format: Format,
    event: &str,
    first: &Part<'_>,
) -> Result<String, NoMemory> {
    let mut line = String::with_capacity(alloc, ROOM)?;
    match format {
        Format::Text => text::put_part(&mut line, first)?,
        Format::Json => {
            put_text(&mut line, "{\"event\":\"")?;
            put_text(&mut line, event)?;
            put_text(&mut line, "\"")?;
            put_members(&mut line, slice::from_ref(first))?;
        }
        Format::Table => put_cell(&mut line, first.value)?,
    }
    Ok(line)
}

/// Writes fields after the first.
pub(crate) fn put_fields(text: &mut String, format: Format, parts: &[Part<'_>]) -> Put {
    match format {
        Format::Text => put_parts(text, parts),
        Format::Json => put_members(text, parts),
        Format::Table => put_cells(text, parts),
    }
}

/// Writes named values as text.
pub(crate) fn put_parts(text: &mut String, parts: &[Part<'_>]) -> Put {
    for part in parts {
        text::put_part(text, part)?;
    }
    Ok(())
}

/// Writes named values as an object, or as text.
pub(crate) fn put_values(text: &mut String, format: Format, parts: &[Part<'_>]) -> Put {
    match format {
        Format::Json => put_object(text, parts),
        Format::Text | Format::Table => put_parts(text, parts),
    }
}

/// What a list is made of.
pub(crate) trait Element {
    /// Writes it.
    fn put(&self, text: &mut String, format: Format) -> Put;
}

/// Writes the field of a list.
pub(crate) fn put_list<T: Element>(
    text: &mut String,
    format: Format,
    key: &str,
    list: &[T],
) -> Put {
    open_list(text, format, key, list.is_empty())?;
    put_elements(text, format, separator(format), list)?;
    close_list(text, format)
}

/// Writes elements, with what separates them.
pub(crate) fn put_elements<T: Element>(
    text: &mut String,
    format: Format,
    separator: &'static str,
    list: &[T],
) -> Put {
    for (at, element) in list.iter().enumerate() {
        put_text(text, between(at, separator))?;
        element.put(text, format)?;
    }
    Ok(())
}

/// Writes a field of several named values.
pub(crate) fn put_group(
    text: &mut String,
    format: Format,
    key: &str,
    lead: &str,
    parts: &[Part<'_>],
) -> Put {
    match format {
        Format::Text => {
            put_text(text, lead)?;
            put_parts(text, parts)
        }
        Format::Json => {
            put_text(text, key)?;
            put_object(text, parts)
        }
        Format::Table => put_text(text, "\t-"),
    }
}

/// Writes what precedes the elements of a field, which has none or some.
pub(crate) fn open_list(text: &mut String, format: Format, key: &str, empty: bool) -> Put {
    match format {
        Format::Text => Ok(()),
        Format::Json => {
            put_text(text, key)?;
            put_text(text, "[")
        }
        Format::Table if empty => put_text(text, "\t-"),
        Format::Table => put_text(text, "\t"),
    }
}

/// Returns what separates two elements of a field.
pub(crate) fn separator(format: Format) -> &'static str {
    match format {
        Format::Text => "",
        Format::Json | Format::Table => ",",
    }
}

/// Writes what follows the elements of a field.
pub(crate) fn close_list(text: &mut String, format: Format) -> Put {
    match format {
        Format::Json => put_text(text, "]"),
        Format::Text | Format::Table => Ok(()),
    }
}

/// Writes the end of a line.
pub(crate) fn end_line(text: &mut String, format: Format) -> Put {
    match format {
        Format::Json => put_text(text, "}\n"),
        Format::Text | Format::Table => put_text(text, "\n"),
    }
}
