//! The header of a UDP message.
ghost use Rattle.std.specs.Prelude.{◌≡◌, ◌≤◌, length, IfOk};
ghost use Rattle.udp_codec.specs.HeaderFields.{fields_of, parsed};

use thiserror::Error;
use wire_base::{sum_right, u16_at};

/// The fields of a UDP header (RFC 768).
#[derive(Clone, Copy, Debug, PartialEq, Eq)]
pub struct Udp {
    /// The source port.
    pub sport: u16,
    /// The destination port.
    pub dport: u16,
    /// The message's length in octets, header included.
    pub len: u16,
    /// The checksum; 0 if the sender made none.
    pub sum: u16,
}

/// Reasons why octets are not a UDP message, in the order of the tests. `Short`: fewer than 8
/// octets. `Length`: the length field is not the length of the message. `Sum`: the checksum is
/// neither 0 nor right.
#[derive(Clone, Copy, Debug, PartialEq, Eq, Error)]
pub enum UdpFault {
    #[error("fewer than 8 octets")]
    Short,
    #[error("a length field that is not the message's length")]
    Length,
    #[error("a wrong checksum")]
    Sum,
}

/// Parses the header of a message; `pseudo` is the sum of the pseudo-header: addresses, protocol
/// and length.
pub fn parse(bytes: &[u8], pseudo: u32) -> Result<Udp, UdpFault>
    ensures exact { result ≡ parsed pseudo bytes.now }
    ensures whole { IfOk result (λ head. 8 ≤ head.len) }
    ensures len { IfOk result (λ head. head.len ≡ length bytes.now) }
{
    if bytes.len() < 8 {
        return Err(UdpFault::Short);
    }
    let head = fields(bytes);
    if usize::from(head.len) != bytes.len() {
        return Err(UdpFault::Length);
    }
    if head.sum != 0 && !sum_right(bytes, pseudo) {
        return Err(UdpFault::Sum);
    }
    Ok(head)
}

/// Returns the fields, each read at its offset.
fn fields(bytes: &[u8]) -> Udp
    requires { 8 ≤ length bytes.now }
    ensures { result ≡ fields_of bytes.now }
{
    Udp {
        sport: u16_at(bytes, 0),
        dport: u16_at(bytes, 2),
        len: u16_at(bytes, 4),
        sum: u16_at(bytes, 6),
    }
}
