//! Named values.

use wire_base::Addr;

/// A word.
#[derive(Clone, Copy)]
pub(crate) enum Word<'a> {
    Text(&'a str),
    Address(Addr),
    Decimal(u32),
    /// The flags of a segment.
    Flags(u32),
    /// The number of a protocol.
    Protocol(u8),
    /// A number below 2^16, in hexadecimal digits.
    Hex16(u32),
    /// Octets in hexadecimal digits.
    Hex(&'a [u8]),
    /// Nanoseconds since the beginning of 1970.
    Time(u64),
}

/// One value.
#[derive(Clone, Copy)]
pub(crate) enum Value<'a> {
    Absent,
    Number(u64),
    Mark(bool),
    Word(Word<'a>),
    Octets(&'a [u8]),
    /// Octets after their count.
    Counted(&'a [u8]),
    /// The numbers of this number of frames, after those before them.
    Frames { before: u64, count: u8 },
}

/// What is counted by number.
#[derive(Clone, Copy)]
pub(crate) enum Numbered {
    /// EtherTypes.
    Types,
    /// Protocols (RFC 790).
    Protocols,
}

/// A named value.
#[derive(Clone, Copy)]
pub(crate) struct Part<'a> {
    /// The name, as `key` makes it.
    pub(crate) key: &'static str,
    /// The text before the value on a text line, which lacks a value without a lead.
    pub(crate) lead: Option<&'static str>,
    /// It is on a text line even where it is absent.
    pub(crate) dash: bool,
    pub(crate) value: Value<'a>,
}

/// Makes of a name what JSON has before its value: a comma, the name in quotes, and a colon.
macro_rules! key {
    ($name:literal) => {
        concat!(",\"", $name, "\":")
    };
}

/// Makes a value that is on a text line where it is present.
macro_rules! shown {
    ($name:literal, $lead:expr, $value:expr $(,)?) => {
        $crate::value::make_part($crate::value::key!($name), Some($lead), false, $value)
    };
}

/// Makes a value that is always on a text line.
macro_rules! dashed {
    ($name:literal, $lead:expr, $value:expr $(,)?) => {
        $crate::value::make_part($crate::value::key!($name), Some($lead), true, $value)
    };
}

/// Makes a value that is never on a text line.
macro_rules! hidden {
    ($name:literal, $value:expr $(,)?) => {
        $crate::value::make_part($crate::value::key!($name), None, false, $value)
    };
}

pub(crate) use dashed;
pub(crate) use hidden;
pub(crate) use key;
pub(crate) use shown;

/// Returns a named value.
#[inline(always)]
pub(crate) fn make_part<'a>(
    key: &'static str,
    lead: Option<&'static str>,
    dash: bool,
    value: Value<'a>,
) -> Part<'a> {
    Part {
        key,
        lead,
        dash,
        value,
    }
}

/// Returns a number that may be present.
pub(crate) fn number_if(number: Option<u64>) -> Value<'static> {
    match number {
        Some(number) => Value::Number(number),
        None => Value::Absent,
    }
}

/// Returns a word.
#[inline(always)]
pub(crate) fn of_text(text: &str) -> Value<'_> {
    Value::Word(Word::Text(text))
}

/// Returns a value where a test holds.
pub(crate) fn only_if(test: bool, value: Value<'_>) -> Value<'_> {
    if test { value } else { Value::Absent }
}
