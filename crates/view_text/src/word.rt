//! The texts of single values.
ghost use Rattle.std.specs.Prelude.{◌<◌};

use crate::Opened;
use crate::put::{Put, put_char, put_number, put_text};
use crate::time::put_time;
use crate::value::Word;
use frame_view::Made;
use rule_book::{Reason, Verdict};
use wire_base::{Addr, Side, protocol};

// The flags of a segment, in the order in which their letters are written.
const LETTERS: [(u32, &str); 8] = [
    (2, "S"),
    (1, "F"),
    (4, "R"),
    (8, "P"),
    (16, "A"),
    (32, "U"),
    (64, "E"),
    (128, "C"),
];

/// Writes a word.
pub(crate) fn put_word(text: &mut String, word: Word<'_>) -> Put {
    match word {
        Word::Text(word) => put_text(text, word),
        Word::Address(address) => put_address(text, address),
        Word::Decimal(number) => put_number(text, u64::from(number)),
        Word::Flags(flags) => put_flags(text, flags),
        Word::Protocol(number) => put_protocol(text, number),
        Word::Hex16(number) => put_hex16(text, number),
        Word::Hex(octets) => put_hex(text, octets),
        Word::Time(time) => put_time(text, time),
    }
}

// Writes an address: four numbers with dots between them.
fn put_address(text: &mut String, address: Addr) -> Put {
    let [first, second, third, fourth] = address.0.to_be_bytes();
    put_part(text, first)?;
    put_text(text, ".")?;
    put_part(text, second)?;
    put_text(text, ".")?;
    put_part(text, third)?;
    put_text(text, ".")?;
    put_part(text, fourth)
}

// Writes a number of an address.
fn put_part(text: &mut String, number: u8) -> Put {
    if number >= 100 {
        put_char(text, b'0' + number / 100)?;
    }
    if number >= 10 {
        put_char(text, b'0' + number / 10 % 10)?;
    }
    put_char(text, b'0' + number % 10)
}

// Writes the letters of the flags that are set.
fn put_flags(text: &mut String, flags: u32) -> Put {
    if flags == 0 {
        return put_text(text, "none");
    }
    for (flag, letter) in LETTERS {
        if flags & flag != 0 {
            put_text(text, letter)?;
        }
    }
    Ok(())
}

// Writes the name of a protocol, or its number.
fn put_protocol(text: &mut String, number: u8) -> Put {
    match number {
        protocol::TCP => put_text(text, "tcp"),
        protocol::UDP => put_text(text, "udp"),
        protocol::ICMP => put_text(text, "icmp"),
        _ => put_number(text, u64::from(number)),
    }
}

// Writes a hexadecimal digit.
fn put_digit(text: &mut String, digit: u8) -> Put
    requires { digit < 16 }
{
    if digit < 10 {
        return put_char(text, b'0' + digit);
    }
    put_char(text, b'a' - 10 + digit)
}

/// Writes an octet as two hexadecimal digits.
pub(crate) fn put_octet(text: &mut String, octet: u8) -> Put {
    put_digit(text, octet / 16)?;
    put_digit(text, octet % 16)
}

/// Writes octets in hexadecimal digits.
pub(crate) fn put_hex(text: &mut String, octets: &[u8]) -> Put {
    for octet in octets {
        put_octet(text, *octet)?;
    }
    Ok(())
}

// Writes a number below 2^16 with four hexadecimal digits.
fn put_hex16(text: &mut String, number: u32) -> Put {
    put_text(text, "0x")?;
    put_octet(text, (number / 256 % 256) as u8)?;
    put_octet(text, (number % 256) as u8)
}

/// Returns the word for a side.
pub(crate) fn side_word(side: Side) -> &'static str {
    match side {
        Side::Inward => "in",
        Side::Outward => "out",
    }
}

/// Returns the word for a verdict.
pub(crate) fn verdict_word(verdict: Verdict) -> &'static str {
    match verdict {
        Verdict::Pass => "pass",
        Verdict::Fix => "fix",
        Verdict::Hold => "hold",
        Verdict::Drop => "drop",
    }
}

/// Returns the word for the engine that judged.
pub(crate) fn by_word(second: bool) -> &'static str {
    if second { "second" } else { "first" }
}

/// Returns the word for what began an era.
pub(crate) fn opened_word(opened: Opened) -> &'static str {
    match opened {
        Opened::In => "in",
        Opened::Out => "out",
        Opened::Mid => "mid",
    }
}

/// Returns the word for the reason why an era ended.
pub(crate) fn reason_word(reason: Reason) -> &'static str {
    match reason {
        Reason::Reset => "reset",
        Reason::Evicted => "evicted",
        Reason::Idle => "idle",
        Reason::Reopened => "reopened",
    }
}

/// Returns the word for how an era ended.
pub(crate) fn end_word(end: Option<Reason>) -> &'static str {
    match end {
        None => "live",
        Some(reason) => reason_word(reason),
    }
}

/// Returns the word for a frame that norm made itself.
pub(crate) fn made_word(kind: Made) -> &'static str {
    match kind {
        Made::Probe => "probe",
        Made::Datagram => "datagram",
    }
}
