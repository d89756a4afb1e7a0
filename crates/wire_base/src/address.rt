//! Addresses, links, sides and four-tuples; address prefixes and their text.
ghost use Rattle.std.specs.Prelude.{◌≡◌, ◌≤◌, IfOk};
ghost use Rattle.wire_base.specs.Prefixes as spec;

use crate::read_number;
use thiserror::Error;

/// An IPv4 address as a number, most significant octet first (RFC 791 section 3.2).
#[derive(Clone, Copy, Debug, Default, PartialEq, Eq, Hash)]
pub struct Addr(pub u32);

/// The kind of frames in a capture: an Ethernet II header of 14 octets before the packet, or the
/// IPv4 packet alone. Network 1 and 101 of a capture file.
#[derive(Clone, Copy, Debug, PartialEq, Eq)]
pub enum Link {
    Ethernet,
    Raw,
}

/// The direction of a packet: towards the trusted hosts, or away from them.
#[derive(Clone, Copy, Debug, PartialEq, Eq)]
pub enum Side {
    Inward,
    Outward,
}

/// A connection's four-tuple, the same for both directions: address and port of the outside host
/// and of the inside host (RFC 9293 section 3.3.1).
#[derive(Clone, Copy, Debug, PartialEq, Eq, Hash)]
pub struct FlowKey {
    pub outside: Addr,
    pub outside_port: u16,
    pub inside: Addr,
    pub inside_port: u16,
}

/// The addresses whose first `len` bits are those of `addr`; `len` is at most 32.
#[derive(Clone, Copy, Debug, Default, PartialEq, Eq)]
pub struct Prefix {
    pub addr: Addr,
    pub len: u8,
}

/// Reasons why a text is not a prefix, in the order of the tests. `Shape`: the text has another
/// form. `Part`: one of the four numbers is above 255. `Length`: the length is above 32.
#[derive(Clone, Copy, Debug, PartialEq, Eq, Error)]
pub enum PrefixFault {
    #[error("not four numbers with dots, a slash and a length")]
    Shape,
    #[error("a number over 255")]
    Part,
    #[error("a length over 32")]
    Length,
}

impl Prefix {
    /// Returns whether the first `len` bits of the address are those of the prefix.
    pub fn holds(&self, a: Addr) -> bool
        requires { self.now.len ≤ 32 }
        ensures { result ≡ spec.holds self.now a.0 }
    {
        let shift = u32::from(32 - self.len);
        u64::from(self.addr.0) >> shift == u64::from(a.0) >> shift
    }
}

/// Parses a prefix: four numbers of one to three digits with dots between them, a slash, and a
/// length of one or two digits. Numbers may have leading zeros.
pub fn read_prefix(text: &str) -> Result<Prefix, PrefixFault>
    ensures exact { result ≡ spec.prefix_of text.now }
    ensures in_range { IfOk result (λ prefix. prefix.len ≤ 32) }
{
    let (first, rest) = split_at_first(text.as_bytes(), b'.');
    let (second, rest) = split_at_first(rest, b'.');
    let (third, rest) = split_at_first(rest, b'.');
    let (fourth, size) = split_at_first(rest, b'/');
    let a = read_number(first, 3).ok_or(PrefixFault::Shape)?;
    let b = read_number(second, 3).ok_or(PrefixFault::Shape)?;
    let c = read_number(third, 3).ok_or(PrefixFault::Shape)?;
    let d = read_number(fourth, 3).ok_or(PrefixFault::Shape)?;
    let len = read_number(size, 2).ok_or(PrefixFault::Shape)?;
    if a > 255 || b > 255 || c > 255 || d > 255 {
        return Err(PrefixFault::Part);
    }
    if len > 32 {
        return Err(PrefixFault::Length);
    }
    Ok(Prefix {
        addr: Addr(u32::from_be_bytes([a as u8, b as u8, c as u8, d as u8])),
        len: len as u8,
    })
}

// Returns the octets before the first separator and those after it; without a separator, all octets
// and none.
fn split_at_first(text: &[u8], separator: u8) -> (&[u8], &[u8])
    ensures before { result.0.now ≡ spec.before separator text.now }
    ensures after { result.1.now ≡ spec.after separator text.now }
{
    match text.iter().position(|c| *c == separator) {
        Some(at) => (&text[..at], &text[at + 1..]),
        None => (text, &[]),
    }
}
