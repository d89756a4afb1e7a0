//! The header of an IPv4 packet, and its options.
ghost use Rattle.std.specs.Prelude.{◌≡◌, ◌≤◌, length, IfOk, OnOk, OnErr, ◌==◌, ◌||◌};
ghost use Rattle.ipv4_codec.specs.HeaderFields.{fields_of, parsed};
ghost use Rattle.wire_base.specs.ParseResults.{stored};
ghost use Rattle.ipv4_codec.specs.OptionFacts.{facts_of};

use thiserror::Error;
use wire_base::{Addr, sum_right, u16_at, u32_at};

// The option kinds that are distinguished: end of the list, no-operation, and loose and strict
// source route (RFC 791 section 3.1).
const END: u8 = 0;

const NO_OPERATION: u8 = 1;

const LOOSE_ROUTE: u8 = 131;

const STRICT_ROUTE: u8 = 137;

/// The fields of an IPv4 header, without its version and its options (RFC 791 section 3.1).
#[derive(Clone, Copy, Debug, Default, PartialEq, Eq)]
pub struct Ipv4 {
    /// The header's length in octets, options included.
    pub header: usize,
    pub tos: u8,
    /// The packet's length in octets, header included.
    pub total: u16,
    pub ident: u16,
    /// The reserved flag.
    pub reserved: bool,
    /// Don't fragment.
    pub df: bool,
    /// More fragments follow.
    pub more: bool,
    /// The offset of the payload in its datagram, in octets: a multiple of 8 below 65,536.
    pub offset: u32,
    /// The time to live, in hops.
    pub ttl: u8,
    pub protocol: u8,
    pub sum: u16,
    pub src: Addr,
    pub dst: Addr,
}

/// Reasons why octets are not an IPv4 packet, in the order of the tests. The causes are those of
/// the rules I_SHORT, I_VERSION, I_HLEN, I_LEN and I_SUM.
#[derive(Clone, Copy, Debug, PartialEq, Eq, Error)]
pub enum IpFault {
    #[error("fewer than 20 octets")]
    Short,
    #[error("another version than 4")]
    Version,
    #[error("a header length below 5 words or above the octets that stand")]
    HeaderLength,
    #[error("a total length below the header's or above the octets that stand")]
    Length,
    #[error("a wrong header checksum")]
    Sum,
}

/// Facts about an option area.
#[derive(Clone, Copy, Debug, PartialEq, Eq)]
pub struct OptionFacts {
    /// The area is not empty.
    pub some: bool,
    /// A source route, loose or strict (type 131 or 137), is before the end option.
    pub route: bool,
}

/// The error of an area in which an option, before the end option, has no length octet, has one
/// below 2, or reaches past the area.
#[derive(Clone, Copy, Debug, PartialEq, Eq, Error)]
#[error("an option without a length of at least 2 that lies inside the area")]
pub struct BadOption;

/// Parses the header of the packet that these octets begin with; octets may follow after its total
/// length.
pub fn parse(bytes: &[u8]) -> Result<Ipv4, IpFault>
    ensures exact { result ≡ parsed bytes.now }
    ensures header { IfOk result (λ head. (20 ≤ head.header) × (head.header ≤ 60)) }
    ensures total { IfOk result (λ head. (head.header ≤ head.total) × (head.total ≤ length bytes.now)) }
{
    let mut head = Ipv4::default();
    parse_into(bytes, &mut head)?;
    Ok(head)
}

/// Parses a header as `parse` does and stores its fields in `head`; after a fault `head` is
/// unchanged.
#[inline(always)]
pub fn parse_into(bytes: &[u8], head: &mut Ipv4) -> Result<(), IpFault>
    ensures exact { stored head.new result ≡ parsed bytes.now }
    ensures kept { OnErr result (head.new ≡ head.old) }
    ensures header { OnOk result ((20 ≤ head.new.header) × (head.new.header ≤ 60)) }
    ensures total { OnOk result ((head.new.header ≤ head.new.total) × (head.new.total ≤ length bytes.now)) }
{
    if bytes.len() < 20 {
        return Err(IpFault::Short);
    }
    if bytes[0] / 16 != 4 {
        return Err(IpFault::Version);
    }
    let header = 4 * usize::from(bytes[0] % 16);
    if header < 20 || bytes.len() < header {
        return Err(IpFault::HeaderLength);
    }
    let total = usize::from(u16_at(bytes, 2));
    if total < header || bytes.len() < total {
        return Err(IpFault::Length);
    }
    if !sum_right(&bytes[..header], 0) {
        return Err(IpFault::Sum);
    }
    store_fields(bytes, head);
    Ok(())
}

/// Parses the options of a header: the octets from offset 20 to its end (RFC 791 section 3.1).
pub fn options(bytes: &[u8]) -> Result<OptionFacts, BadOption>
    ensures { result ≡ facts_of bytes.now }
{
    if bytes.is_empty() {
        return Ok(OptionFacts {
            some: false,
            route: false,
        });
    }
    let mut route = false;
    let mut at = 0;
    while bytes.len() - at >= 2 && bytes[at] != END {
        let kind = bytes[at];
        let size = size_by(kind, bytes[at + 1]);
        let short = (kind != NO_OPERATION) & (size < 2);
        if short || bytes.len() - at < size {
            return Err(BadOption);
        }
        route |= is_route(kind);
        at += size;
    }
    if at < bytes.len() && bytes[at] > NO_OPERATION {
        return Err(BadOption);
    }
    Ok(OptionFacts { some: true, route })
}

// Stores the fields, each read at its offset. Each is stored before the next is read, so that none
// waits in a register.
#[inline(always)]
fn store_fields(bytes: &[u8], head: &mut Ipv4)
    requires { 20 ≤ length bytes.now }
    ensures { head.new ≡ fields_of bytes.now }
{
    head.header = 4 * usize::from(bytes[0] % 16);
    head.tos = bytes[1];
    head.total = u16_at(bytes, 2);
    head.ident = u16_at(bytes, 4);
    head.reserved = bytes[6] / 128 % 2 == 1;
    head.df = bytes[6] / 64 % 2 == 1;
    head.more = bytes[6] / 32 % 2 == 1;
    head.offset = 8 * u32::from(u16_at(bytes, 6) % 8192);
    head.ttl = bytes[8];
    head.protocol = bytes[9];
    head.sum = u16_at(bytes, 10);
    head.src = Addr(u32_at(bytes, 12));
    head.dst = Addr(u32_at(bytes, 16));
}

// Returns the length in octets of a no-operation, or of an option of another kind with this length
// octet. The choice takes no branch: it would be mispredicted at every other hostile option.
fn size_by(kind: u8, length: u8) -> usize
    ensures none { kind ≡ 1 → result ≡ 1 }
    ensures option { 2 ≤ kind → result ≡ length }
{
    usize::from(if kind == NO_OPERATION { 1 } else { length })
}

// Returns whether the kind is a source route, loose or strict.
fn is_route(kind: u8) -> bool
    ensures { result ≡ ((kind == 131) || (kind == 137)) }
{
    kind == LOOSE_ROUTE || kind == STRICT_ROUTE
}
