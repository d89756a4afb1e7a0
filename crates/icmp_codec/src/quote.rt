//! The packet that an ICMP error message quotes.
ghost use Rattle.std.specs.Prelude.{◌≡◌};
ghost use Rattle.icmp_codec.specs.QuotedPacket.{quoted_in};

use wire_base::{Addr, u16_at, u32_at};

/// The fields of the packet that an error message quotes (RFC 792): its addresses, its protocol,
/// and the first four octets after its header, which are the ports in TCP and UDP.
#[derive(Clone, Copy, Debug, PartialEq, Eq)]
pub struct QuotedKey {
    pub src: Addr,
    pub dst: Addr,
    pub protocol: u8,
    /// The source port.
    pub sport: u16,
    /// The destination port.
    pub dport: u16,
}

/// Parses the packet that a message of type 3, 11 or 12 quotes from offset 8 on. Returns None
/// exactly if there is no version 4 header of at least five words there with eight octets after it.
/// Ignores the quoted checksums and the total length.
pub fn quoted(bytes: &[u8]) -> Option<QuotedKey>
    ensures exact { result ≡ quoted_in bytes.now }
{
    let packet = bytes.get(8..)?;
    let first = *packet.first()?;
    let header = 4 * usize::from(first % 16);
    if first / 16 != 4 || header < 20 || packet.len() < header + 8 {
        return None;
    }
    let payload = &packet[header..];
    Some(QuotedKey {
        src: Addr(u32_at(packet, 12)),
        dst: Addr(u32_at(packet, 16)),
        protocol: packet[9],
        sport: u16_at(payload, 0),
        dport: u16_at(payload, 2),
    })
}
