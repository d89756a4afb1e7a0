//! The notation of packets in test cases: `> PA 1000,5001 abcd [ttl=1 id=7]`.
//!
//! - `>` for an inbound packet and `<` for an outbound one.
//! - The first letters of the TCP flags, or another protocol: `UDP`, `ICMP` or `IGMP`. After `RAW`
//!   all octets of the record follow.
//! - With TCP flags, the sequence number and, after a comma, the acknowledgment number.
//! - The payload, if any; of another protocol all octets after the IPv4 header.
//! - In brackets the fields that differ from those of most packets, by the names in `MARKS`.
//!
//! Octets are parts joined by `+`: text, in which `_` is a space, or `0x` and hexadecimal digits.
//! `*` and a number after a part repeat it. A name from `NAMED` may replace all octets.
use std::test::Fail;
use wire_base::protocol;

#[rattlefmt::skip]
const MARKS: [&str; 18] = [
    // Of the capture: the record's seconds, and the last octet of the Ethernet source.
    "t", "mac",
    // Of the IPv4 header: TTL, type of service, identification, the reserved flag, the flag DF, and
    // the options.
    "ttl", "tos", "id", "RF", "DF", "ipopt",
    // Of a fragment: its range of the IPv4 payload, as `8..16`; or its offset, with `+` for the
    // flag MF.
    "part", "at",
    // Octets after the packet.
    "trail",
    // Of the TCP header: the outside port, the window, the options, the reserved bits, and the
    // urgent pointer with the flag URG.
    "port", "win", "opt", "res", "urg",
    // Of the TCP header: a checksum instead of the right one, and the right one with its last bit
    // changed.
    "sum", "wrongsum",
];

/// Names of octets that several cases have.
#[rattlefmt::skip]
const NAMED: [(&str, &str); 10] = [
    // UDP (RFC 768) without a checksum; the same with another first octet of the payload; with a
    // right checksum; with a wrong one.
    ("$PLAIN", "0x9c40003500180000+a*16"),
    ("$OTHER", "0x9c40003500180000+b+a*15"),
    ("$SUMMED", "0x9c400035000ac6bf+hi"),
    ("$WRONG", "0x9c400035000ac6be+hi"),
    // ICMP (RFC 792): port unreachable, with a quoted segment from 10.0.0.1 port 80 to 198.51.100.7
    // port 40000.
    ("$UNREACHABLE", "0x0300606f00000000+0x4500001c00010000400646a00a000001c633640700509c4000000000"),
    // The same error, with a quoted segment of the other direction.
    ("$QUOTING", "0x0300606f00000000+0x4500001c00010000400646a0c63364070a0000019c40005000000000"),
    // Options of a SYN: maximum segment size, SACK permitted, timestamps, window scale (RFC 9293,
    // RFC 2018, RFC 7323).
    ("$OFFERED", "0x020405b4+0x0402+0x080a0000000100000000+0x01+0x030307"),
    // A window scale of 7, and timestamps of 9 and 5 (RFC 7323).
    ("$SCALE7", "0x01030307"),
    ("$STAMP9", "0x0101080a0000000900000000"),
    ("$STAMP5", "0x0101080a0000000500000000"),
];

/// The parts of a packet's line.
#[derive(Clone, Copy)]
pub(crate) struct Packet<'a> {
    pub(crate) inward: bool,
    pub(crate) protocol: u8,
    kind: &'a str,
    numbers: &'a str,
    pub(crate) payload: &'a str,
    marks: &'a str,
}

impl<'a> Packet<'a> {
    /// Parses the line of a packet.
    pub(crate) fn read(line: &'a str) -> Result<Packet<'a>, Fail> {
        let (head, marks) = line.split_once('[').unwrap_or((line, "]"));
        let Some(marks) = marks.strip_suffix("]") else {
            return Err(Fail::new("no closing bracket"));
        };
        check_marks(marks)?;
        let mut words = head.split_whitespace();
        let inward = is_inward(words.next().unwrap_or(""))?;
        let kind = words.next().unwrap_or("");
        let protocol = protocol_of(kind);
        let numbers = if protocol == protocol::TCP {
            words.next().unwrap_or("")
        } else {
            ""
        };
        let payload = words.next().unwrap_or("");
        if words.next().is_some() {
            return Err(Fail::new("a word after the payload"));
        }
        Ok(Packet {
            inward,
            protocol,
            kind,
            numbers,
            payload,
            marks,
        })
    }

    /// Returns whether the line has all octets of a record.
    pub(crate) fn is_raw(&self) -> bool {
        self.kind == "RAW"
    }

    /// Returns the value of a mark, empty if the mark has none; None if the line has no such mark.
    pub(crate) fn mark(&self, name: &str) -> Option<&'a str> {
        for mark in self.marks.split_whitespace() {
            let (known, value) = mark.split_once('=').unwrap_or((mark, ""));
            if known == name {
                return Some(value);
            }
        }
        None
    }

    /// Returns the number of a mark, or `usual` if the line has no such mark.
    pub(crate) fn number(&self, name: &str, usual: u32) -> Result<u32, Fail> {
        match self.mark(name) {
            Some(value) => Ok(value.parse()?),
            None => Ok(usual),
        }
    }

    /// Returns the same as 16 bits.
    pub(crate) fn word(&self, name: &str, usual: u16) -> Result<u16, Fail> {
        Ok(u16::try_from(self.number(name, u32::from(usual))?)?)
    }

    /// Returns the same as 8 bits.
    pub(crate) fn octet(&self, name: &str, usual: u8) -> Result<u8, Fail> {
        Ok(u8::try_from(self.number(name, u32::from(usual))?)?)
    }

    /// Returns the sequence number and the acknowledgment number.
    pub(crate) fn numbers(&self) -> Result<(u32, u32), Fail> {
        let (sequence, ack) = self.numbers.split_once(',').unwrap_or((self.numbers, "0"));
        Ok((sequence.parse()?, ack.parse()?))
    }

    /// Returns the flags of the TCP header.
    pub(crate) fn flags(&self) -> Result<u8, Fail> {
        let mut flags = if self.mark("urg").is_some() { 32 } else { 0 };
        for letter in self.kind.chars() {
            flags |= flag(letter)?;
        }
        Ok(flags)
    }
}

/// Fails if a mark is not one of `MARKS`.
fn check_marks(marks: &str) -> Result<(), Fail> {
    for mark in marks.split_whitespace() {
        let (name, _) = mark.split_once('=').unwrap_or((mark, ""));
        if !MARKS.contains(&name) {
            return Err(Fail::new("no such mark"));
        }
    }
    Ok(())
}

fn is_inward(sign: &str) -> Result<bool, Fail> {
    match sign {
        ">" => Ok(true),
        "<" => Ok(false),
        _ => Err(Fail::new("no direction")),
    }
}

fn protocol_of(kind: &str) -> u8 {
    match kind {
        "ICMP" => protocol::ICMP,
        "IGMP" => 2,
        "UDP" => protocol::UDP,
        // No protocol: the octets may be no packet.
        "RAW" => 255,
        _ => protocol::TCP,
    }
}

fn flag(letter: char) -> Result<u8, Fail> {
    match letter {
        'F' => Ok(1),
        'S' => Ok(2),
        'R' => Ok(4),
        'P' => Ok(8),
        'A' => Ok(16),
        _ => Err(Fail::new("no such flag")),
    }
}

/// Returns the octets of a name of `NAMED`; other text unchanged.
fn without_name(spelled: &str) -> &str {
    for (name, octets) in NAMED {
        if name == spelled {
            return octets;
        }
    }
    spelled
}

/// Appends the octets that `spelled` spells.
pub fn add_octets(octets: &mut Vec<u8>, spelled: &str) -> Result<(), Fail> {
    for part in without_name(spelled).split('+') {
        let (unit, times) = part.split_once('*').unwrap_or((part, "1"));
        for _ in 0..times.parse::<u32>()? {
            add_unit(octets, unit)?;
        }
    }
    Ok(())
}

fn add_unit(octets: &mut Vec<u8>, unit: &str) -> Result<(), Fail> {
    if unit.starts_with("$") {
        return Err(Fail::new("no such name"));
    }
    match unit.strip_prefix("0x") {
        Some(digits) => add_digits(octets, digits),
        None => add_text(octets, unit),
    }
}

fn add_text(octets: &mut Vec<u8>, text: &str) -> Result<(), Fail> {
    for octet in text.bytes() {
        octets.push(if octet == b'_' { b' ' } else { octet })?;
    }
    Ok(())
}

fn add_digits(octets: &mut Vec<u8>, digits: &str) -> Result<(), Fail> {
    let mut first = None;
    for digit in digits.bytes() {
        let low = value_of(digit)?;
        first = match first {
            Some(high) => {
                octets.push(high << 4 | low)?;
                None
            }
            None => Some(low),
        };
    }
    match first {
        Some(_) => Err(Fail::new("half an octet")),
        None => Ok(()),
    }
}

fn value_of(digit: u8) -> Result<u8, Fail> {
    match digit {
        b'0'..=b'9' => Ok(digit - b'0'),
        b'a'..=b'f' => Ok(digit - b'a' + 10),
        _ => Err(Fail::new("no digit")),
    }
}
