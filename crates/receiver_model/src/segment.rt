//! TCP segments, read in the packets that carry them.
ghost use Rattle.std.specs.Prelude.{◌≡◌, ◌≤◌, length};
ghost use Rattle.wire_base.specs.Ipv4 as ip;
ghost use Rattle.wire_base.specs.Plain.{Plain};
ghost use Rattle.wire_base.specs.Segments.{fields_of};
ghost use Rattle.receiver_model.specs.SegmentFields.{segment_in};

use wire_base::{Addr, Flags, u16_at, u32_at};

/// Fields of a TCP packet (RFC 791 section 3.1, RFC 9293 section 3.1). `start` is the index of its
/// first payload octet in the packet.
#[derive(Clone, Copy, Debug, PartialEq, Eq)]
pub struct Segment {
    pub src: Addr,
    pub dst: Addr,
    pub sport: u16,
    pub dport: u16,
    pub seq: u32,
    pub ack: u32,
    pub flags: Flags,
    pub window: u16,
    pub start: usize,
}

/// Returns the fields of a plain TCP packet.
pub fn read_plain(bytes: &[u8]) -> Segment
    requires plain { Plain 0 bytes.now }
    requires tcp { ip.protocol bytes.now ≡ 6 }
    ensures fields { segment_in bytes.now result ≡ fields_of bytes.now }
    ensures inside { result.start ≤ length bytes.now }
{
    Segment {
        src: Addr(u32_at(bytes, 12)),
        dst: Addr(u32_at(bytes, 16)),
        sport: u16_at(bytes, 20),
        dport: u16_at(bytes, 22),
        seq: u32_at(bytes, 24),
        ack: u32_at(bytes, 28),
        flags: Flags(bytes[33]),
        window: u16_at(bytes, 34),
        start: 20 + 4 * usize::from(bytes[32] / 16),
    }
}
