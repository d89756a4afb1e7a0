//! Times as RFC 3339 writes them.

use crate::put::{Put, put_text};
use arrayvec::ArrayString;
use jiff_core::Timestamp;
use jiff_fmt::temporal::DateTimePrinter;

/// Writes the time that is this number of nanoseconds after the beginning of 1970, in UTC with nine
/// digits of a second.
pub fn put_time(text: &mut String, nanoseconds: u64) -> Put {
    let time = time_of(nanoseconds);
    put_text(text, time.as_str())
}

// Returns the text of the time.
fn time_of(nanoseconds: u64) -> ArrayString<33> {
    let timestamp = timestamp_of(nanoseconds);
    let printer = DateTimePrinter::new().precision(Some(9));
    printer.timestamp_text(timestamp)
}

// Returns the instant this number of nanoseconds after the beginning of 1970.
fn timestamp_of(nanoseconds: u64) -> Timestamp {
    Timestamp::from_nanosecond(i128::from(nanoseconds)).unwrap()
}
