//! The header of an ICMP message.
ghost use Rattle.std.specs.Prelude.{◌≡◌, ◌≤◌, length, OnOk};
ghost use Rattle.icmp_codec.specs.HeaderFields.{parsed};

use thiserror::Error;
use wire_base::sum_right;

/// The fields that every ICMP header has, without the checksum (RFC 792).
#[derive(Clone, Copy, Debug, PartialEq, Eq)]
pub struct Icmp {
    /// The type of the message, such as 3 for destination unreachable.
    pub kind: u8,
    /// The code, which refines the type, such as 1 for host unreachable.
    pub code: u8,
}

/// Reasons why octets are not an ICMP message, in the order of the tests. `Short`: fewer than 8
/// octets. `Sum`: the checksum is not right.
#[derive(Clone, Copy, Debug, PartialEq, Eq, Error)]
pub enum IcmpFault {
    #[error("fewer than 8 octets")]
    Short,
    #[error("a wrong checksum")]
    Sum,
}

/// Parses the header of a message; the checksum covers the whole message.
pub fn parse(bytes: &[u8]) -> Result<Icmp, IcmpFault>
    ensures exact { result ≡ parsed bytes.now }
    ensures whole { OnOk result (8 ≤ length bytes.now) }
{
    if bytes.len() < 8 {
        return Err(IcmpFault::Short);
    }
    if !sum_right(bytes, 0) {
        return Err(IcmpFault::Sum);
    }
    Ok(Icmp {
        kind: bytes[0],
        code: bytes[1],
    })
}
