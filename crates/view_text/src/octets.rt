//! Octets in quotes.

use crate::put::{Put, put_char, put_number, put_text};
use crate::word::{put_hex, put_octet};

// The most octets that are between quotes.
const MOST: usize = 64;

// Writes an octet as it is between quotes; in JSON each `"` and `\` of that has another `\`.
fn put_quoted(text: &mut String, json: bool, octet: u8) -> Put {
    match (octet, json) {
        (b'"', false) => put_text(text, "\\\""),
        (b'"', true) => put_text(text, "\\\\\\\""),
        (b'\\', false) => put_text(text, "\\\\"),
        (b'\\', true) => put_text(text, "\\\\\\\\"),
        (32..=126, _) => put_char(text, octet),
        (_, false) => {
            put_text(text, "\\x")?;
            put_octet(text, octet)
        }
        (_, true) => {
            put_text(text, "\\\\x")?;
            put_octet(text, octet)
        }
    }
}

// Returns the first octets.
fn first_octets(octets: &[u8]) -> &[u8] {
    &octets[..octets.len().min(MOST)]
}

// Writes the first octets as they are between quotes.
fn put_front(text: &mut String, json: bool, octets: &[u8]) -> Put {
    for octet in first_octets(octets) {
        put_quoted(text, json, *octet)?;
    }
    Ok(())
}

// Writes how many octets are left out after the quotes.
fn put_rest(text: &mut String, count: usize) -> Put {
    if count <= MOST {
        return Ok(());
    }
    put_text(text, " and ")?;
    put_number(text, (count - MOST) as u64)?;
    put_text(text, " more")
}

/// Writes octets in quotes.
pub(crate) fn put_octets(text: &mut String, octets: &[u8]) -> Put {
    put_text(text, "\"")?;
    put_front(text, false, octets)?;
    put_text(text, "\"")?;
    put_rest(text, octets.len())
}

/// Writes octets as a JSON object.
pub(crate) fn put_octets_json(text: &mut String, octets: &[u8]) -> Put {
    put_text(text, "{\"length\":")?;
    put_number(text, octets.len() as u64)?;
    put_text(text, ",\"hex\":\"")?;
    put_hex(text, octets)?;
    put_text(text, "\",\"text\":\"")?;
    put_front(text, true, octets)?;
    put_text(text, "\"}")
}
