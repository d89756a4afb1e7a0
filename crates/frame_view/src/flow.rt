//! What the headers of a packet say in short.
ghost use Rattle.std.specs.Prelude.{◌≡◌, option_map};
ghost use Rattle.frame_view.specs.Flows.{ethertype_in, flow_in, icmp_marks_of, length_in, marks_of, ports_of};
ghost use Rattle.frame_view.specs.FrameParts as parts;
ghost use Rattle.frame_view.specs.FrameParts.{IsReadable};
ghost use Rattle.frame_view.specs.Flows as spec;

use crate::parts::{icmp_in, packet_of, payload_in, payload_of, ported_in, segment_in};
use wire_base::{Addr, Flags, Link, u16_at, u32_at};

// The length of an Ethernet II header in octets (RFC 894).
const LINK_HEADER: usize = 14;

/// Addresses, protocol, ports and fragment fields of a packet, the marks of its TCP segment or ICMP
/// message, and the length of its payload.
#[derive(Clone, Copy, Debug, PartialEq, Eq)]
pub struct Flow {
    pub src: Addr,
    pub dst: Addr,
    /// The number of the protocol (RFC 790).
    pub protocol: u8,
    pub identification: u16,
    /// The fragment offset in octets.
    pub offset: u16,
    /// More fragments follow.
    pub more: bool,
    /// The ports, where a TCP or UDP header can be read.
    pub ports: Option<Ports>,
    /// The marks of a TCP segment, where its header can be read.
    pub tcp: Option<TcpMarks>,
    /// The marks of an ICMP message, where its header can be read.
    pub icmp: Option<IcmpMarks>,
    /// The number of octets after the last header that can be read.
    pub length: u64,
}

/// The ports of a TCP segment or a UDP datagram.
#[derive(Clone, Copy, Debug, PartialEq, Eq)]
pub struct Ports {
    pub src: u16,
    pub dst: u16,
}

/// The flags and numbers of a TCP segment.
#[derive(Clone, Copy, Debug, PartialEq, Eq)]
pub struct TcpMarks {
    pub flags: Flags,
    pub seq: u32,
    pub ack: u32,
    /// As in the header, without a scale.
    pub window: u16,
}

/// The type and the code of an ICMP message (RFC 792).
#[derive(Clone, Copy, Debug, PartialEq, Eq)]
pub struct IcmpMarks {
    pub kind: u8,
    pub code: u8,
}

/// Returns what the headers of a frame's packet say, or None where no IPv4 header can be read.
pub fn flow_of(link: Link, frame: &[u8]) -> Option<Flow>
    ensures { result ≡ flow_in link frame.now }
{
    let packet = packet_of(link, frame)?;
    Some(flow_of_packet(packet))
}

/// Returns the number of octets of a frame's payload: those after the last header that can be read.
pub fn length_of(link: Link, frame: &[u8]) -> u64
    ensures { result ≡ length_in link frame.now }
{
    payload_of(link, frame).len() as u64
}

/// Returns the EtherType of a frame without a readable IPv4 header, where its link header has one.
pub fn ethertype_of(link: Link, frame: &[u8]) -> Option<u16>
    ensures { result ≡ ethertype_in link frame.now }
{
    if link != Link::Ethernet || frame.len() < LINK_HEADER || packet_of(link, frame).is_some() {
        return None;
    }
    Some(u16_at(frame, 12))
}

/// Returns what the headers of a packet say, where its IPv4 header can be read.
pub fn flow_of_packet(packet: &[u8]) -> Flow
    requires { IsReadable packet.now }
    ensures { result ≡ spec.flow_of packet.now }
{
    Flow {
        src: Addr(u32_at(packet, 12)),
        dst: Addr(u32_at(packet, 16)),
        protocol: packet[9],
        identification: u16_at(packet, 4),
        offset: 8 * (u16_at(packet, 6) % 8192),
        more: packet[6] / 32 % 2 == 1,
        ports: ports_in(packet),
        tcp: marks_in(packet),
        icmp: icmp_marks_in(packet),
        length: payload_in(packet).len() as u64,
    }
}

// Returns the ports of a packet.
fn ports_in(packet: &[u8]) -> Option<Ports>
    requires { IsReadable packet.now }
    ensures { result ≡ option_map ports_of (parts.ported_in packet.now) }
{
    let part = ported_in(packet)?;
    Some(Ports {
        src: u16_at(part, 0),
        dst: u16_at(part, 2),
    })
}

// Returns the marks of a packet's TCP segment.
fn marks_in(packet: &[u8]) -> Option<TcpMarks>
    requires { IsReadable packet.now }
    ensures { result ≡ option_map marks_of (parts.segment_in packet.now) }
{
    let part = segment_in(packet)?;
    Some(TcpMarks {
        flags: Flags(part[13]),
        seq: u32_at(part, 4),
        ack: u32_at(part, 8),
        window: u16_at(part, 14),
    })
}

// Returns the marks of a packet's ICMP message.
fn icmp_marks_in(packet: &[u8]) -> Option<IcmpMarks>
    requires { IsReadable packet.now }
    ensures { result ≡ option_map icmp_marks_of (parts.icmp_in packet.now) }
{
    let part = icmp_in(packet)?;
    Some(IcmpMarks {
        kind: part[0],
        code: part[1],
    })
}
