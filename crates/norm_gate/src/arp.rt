//! ARP for IPv4 over Ethernet (RFC 826).
ghost use Rattle.std.specs.Prelude.{◌≡◌, ◌≤◌, true, length, take};
ghost use Rattle.norm_gate.specs.Fates as spec;

use wire_base::{Addr, u16_at, u32_at};

/// Octets of a frame with such a packet, before padding.
pub(crate) const ARP_FRAME: usize = 42;

/// Least octets of an Ethernet frame without its checksum (IEEE 802.3).
pub(crate) const SHORTEST_FRAME: usize = 60;

/// Returns whether a frame of ARP has a whole request or reply for IPv4 over Ethernet.
pub(crate) fn is_arp_of_ipv4(frame: &[u8]) -> bool
    ensures exact { result ≡ spec.is_arp_of_ipv4 frame.now }
    ensures whole { result ≡ true → ARP_FRAME ≤ length frame.now }
{
    if frame.len() < ARP_FRAME {
        return false;
    }
    let operation = u16_at(frame, 20);
    u16_at(frame, 14) == 1
        && u16_at(frame, 16) == 0x0800
        && u16_at(frame, 18) == 0x0604
        && (operation == 1 || operation == 2)
}

/// Returns the address by which ARP is judged: that of its sender, or, if the sender has none yet,
/// the one that it asks for (RFC 5227).
pub(crate) fn address_judged(frame: &[u8]) -> Addr
    requires { ARP_FRAME ≤ length frame.now }
    ensures { result.0 ≡ spec.address_judged frame.now }
{
    let sender = u32_at(frame, 28);
    if sender != 0 {
        Addr(sender)
    } else {
        Addr(u32_at(frame, 38))
    }
}

/// Writes the frame that crosses at the front of the buffer, and returns its length in octets: the
/// packet, and zeros instead of what follows it.
pub(crate) fn write_crossing(frame: &[u8], buf: &mut [u8; SHORTEST_FRAME]) -> usize
    requires { ARP_FRAME ≤ length frame.now }
    ensures octets { take result buf.new ≡ spec.crossing frame.now }
    ensures most { result ≤ SHORTEST_FRAME }
{
    let size = frame.len().min(SHORTEST_FRAME);
    *buf = [0; SHORTEST_FRAME];
    buf[..ARP_FRAME].copy_from_slice(&frame[..ARP_FRAME]);
    size
}
