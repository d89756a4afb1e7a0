//! The decision on long frames.
ghost use Rattle.std.specs.Prelude.{◌≡◌};
ghost use Rattle.emit_mtu.specs.FrameParts.{IsSent, IsWhole};
ghost use Rattle.emit_mtu.specs.LongFrames as spec;

use crate::parts::{HEADER, header_length};
use wire_base::{Flags, FrameKind, Link, frame_kind, packet_in, protocol, u16_at};

/// The decision on a frame for a link with an MTU.
#[derive(Clone, Copy, Debug, PartialEq, Eq)]
pub enum LongKind {
    /// The frame fits, and is written as it is.
    Fits,
    /// E_CUT: the frame is cut into segments that fit.
    Cut,
    /// E_MTU: the frame is dropped.
    Drop,
}

/// Returns the decision on a frame; its packet may have at most `mtu` octets, IPv4 header included.
pub fn long_kind(link: Link, frame: &[u8], mtu: u16) -> LongKind
    requires { IsSent link frame.now }
    ensures { result ≡ spec.long_kind link mtu frame.now }
{
    if frame_kind(link, frame) == FrameKind::Arp {
        return LongKind::Fits;
    }
    let packet = packet_in(link, frame);
    if u16_at(packet, 2) <= mtu {
        LongKind::Fits
    } else if may_be_cut(packet) {
        LongKind::Cut
    } else {
        LongKind::Drop
    }
}

// Returns whether the packet has a TCP segment with payload and without SYN, RST and URG.
fn may_be_cut(packet: &[u8]) -> bool
    requires { IsWhole packet.now }
    ensures { result ≡ spec.may_be_cut packet.now }
{
    if packet[9] != protocol::TCP {
        return false;
    }
    let segment = &packet[HEADER..];
    !is_marked(Flags(segment[13])) && segment.len() > header_length(segment)
}

// Returns whether SYN, RST or URG is set.
fn is_marked(flags: Flags) -> bool
    ensures { result ≡ spec.is_marked flags.0 }
{
    flags.syn() || flags.rst() || flags.urg()
}
