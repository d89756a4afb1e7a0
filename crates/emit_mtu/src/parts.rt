//! The parts of a frame that carries TCP.
ghost use Rattle.std.specs.Prelude.{◌≡◌, ◌≤◌, length};
ghost use Rattle.wire_base.specs.Ipv4 as ip;
ghost use Rattle.wire_base.specs.Tcp as tcp;
ghost use Rattle.wire_base.specs.Frames.{link_octets, packet_in};
ghost use Rattle.emit_mtu.specs.working.PartSizes.{AreSized};
ghost use Rattle.emit_mtu.specs.FrameParts.{IsWhole, parts_of};

use std::marker::Model;
use wire_base::{Link, link_octets, packet_in};

/// Length of an IPv4 header without options in octets (RFC 791 section 3.1).
pub(crate) const HEADER: usize = 20;

/// A frame's link octets, its IPv4 header, its TCP header with the options, and its payload.
#[derive(Drop)]
pub(crate) struct Parts<'a> {
    pub(crate) link: &'a [u8],
    pub(crate) ip: &'a [u8],
    pub(crate) tcp: &'a [u8],
    pub(crate) payload: &'a [u8],
}

impl<'a> Model for Parts<'a> {
    ghost use Rattle.emit_mtu.specs.FrameParts.{Parts as Octets};

    ghost Value = { Octets };

    ghost view = { λ p. record { link = p.link.now; ip = p.ip.now; tcp = p.tcp.now; payload = p.payload.now } };
}

impl Parts<'_> {
    /// Returns the number of octets of the payload.
    pub(crate) fn payload_size(&self) -> usize
        ensures { result ≡ length self.now.payload }
    {
        self.payload.len()
    }
}

/// Returns the parts of a frame whose packet is whole and carries TCP.
pub(crate) fn parts_of<'a>(link: Link, frame: &'a [u8]) -> Parts<'a>
    requires whole { IsWhole (packet_in link frame.now) }
    requires tcp { ip.protocol (packet_in link frame.now) ≡ 6 }
    ensures exact { result ≡ parts_of link frame.now }
    ensures sized { AreSized result }
{
    let packet = packet_in(link, frame);
    let (ip, segment) = packet.split_at(HEADER);
    let (tcp, payload) = segment.split_at(header_length(segment));
    Parts {
        link: link_octets(link, frame),
        ip,
        tcp,
        payload,
    }
}

/// Returns the length of the header of a segment in octets, options included.
pub(crate) fn header_length(segment: &[u8]) -> usize
    requires { 20 ≤ length segment.now }
    ensures { result ≡ tcp.header_length segment.now }
{
    4 * usize::from(segment[12] / 16)
}
