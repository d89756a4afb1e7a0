//! The packet of a frame, by its link and EtherType.
ghost use Rattle.std.specs.Prelude.{◌≡◌, ◌≤◌, length};
ghost use Rattle.wire_base.specs.Frames as spec;
ghost use Rattle.wire_base.specs.declared.limits.TheConstants.{MAX_LINK};

use crate::limits::MAX_LINK;
use crate::{Link, u16_at};

// The EtherTypes of IPv4 (RFC 894) and of ARP (RFC 826).
const IPV4: u16 = 0x0800;

const ARP: u16 = 0x0806;

/// The kind of packet that a frame carries.
#[derive(Clone, Copy, Debug, PartialEq, Eq)]
pub enum FrameKind {
    /// An IPv4 packet; it begins at this offset of the frame, in octets.
    Ip(usize),
    /// An ARP packet.
    Arp,
    /// A frame of fewer octets than an Ethernet II header has.
    Short,
    /// A packet of another EtherType.
    Other,
}

/// Returns what a frame carries: on Ethernet by its EtherType (RFC 894, RFC 826), on a raw link
/// always an IPv4 packet.
pub fn frame_kind(link: Link, bytes: &[u8]) -> FrameKind
    ensures { result ≡ spec.kind_of link bytes.now }
{
    if link == Link::Raw {
        return FrameKind::Ip(0);
    }
    if bytes.len() < MAX_LINK {
        return FrameKind::Short;
    }
    match u16_at(bytes, 12) {
        IPV4 => FrameKind::Ip(MAX_LINK),
        ARP => FrameKind::Arp,
        _ => FrameKind::Other,
    }
}

/// Returns the packet of a frame: on Ethernet the octets after its header, on a raw link the whole
/// frame.
pub fn packet_in(link: Link, frame: &[u8]) -> &[u8]
    ensures { result.now ≡ spec.packet_in link frame.now }
{
    match link {
        Link::Ethernet => &frame[frame.len().min(MAX_LINK)..],
        Link::Raw => frame,
    }
}

/// Returns the octets of a frame before its packet: on Ethernet its header, or as much of it as the
/// frame has, on a raw link none.
pub fn link_octets(link: Link, frame: &[u8]) -> &[u8]
    ensures octets { result.now ≡ spec.link_octets link frame.now }
    ensures short { length result.now ≤ MAX_LINK }
{
    match link {
        Link::Ethernet => &frame[..frame.len().min(MAX_LINK)],
        Link::Raw => &[],
    }
}
