//! The parts of a frame, each where its whole header can be read.
ghost use Rattle.std.specs.Prelude.{◌≡◌, ◌≤◌, length, IfSome};
ghost use Rattle.std.specs.Option.{option_copied};
ghost use Rattle.frame_view.specs.FrameParts as spec;
ghost use Rattle.frame_view.specs.working.SegmentHeaders.{HasSegmentHeader};
ghost use Rattle.frame_view.specs.FrameParts.{IsReadable};
ghost use Rattle.wire_base.specs.Ipv4 as ip;
ghost use Rattle.wire_base.specs.Tcp as tcp;

use wire_base::{FrameKind, Link, frame_kind, packet_in, protocol, u16_at};

// Lengths of headers without options in octets (RFC 791, RFC 9293, RFC 768, RFC 792).
const IP_HEADER: usize = 20;

const TCP_HEADER: usize = 20;

const UDP_HEADER: usize = 8;

const ICMP_HEADER: usize = 8;

/// Returns whether an IPv4 header can be read.
fn has_ip_header(packet: &[u8]) -> bool
    ensures { result ≡ spec.has_ip_header packet.now }
{
    if packet.len() < IP_HEADER || packet[0] / 16 != 4 {
        return false;
    }
    let header = header_length(packet);
    IP_HEADER <= header && header <= packet.len()
}

/// Returns the length of an IPv4 header in octets.
pub fn header_length(packet: &[u8]) -> usize
    requires { 20 ≤ length packet.now }
    ensures { result ≡ ip.header_length packet.now }
{
    4 * usize::from(packet[0] % 16)
}

/// Returns the length of a TCP header in octets.
fn data_offset(segment: &[u8]) -> usize
    requires { 20 ≤ length segment.now }
    ensures { result ≡ tcp.header_length segment.now }
{
    4 * usize::from(segment[12] / 16)
}

/// Returns the IPv4 packet of a frame, where its header can be read.
pub fn packet_of(link: Link, frame: &[u8]) -> Option<&[u8]>
    ensures packet { option_copied result ≡ spec.packet_of link frame.now }
    ensures readable { IfSome result (λ packet. IsReadable packet.now) }
{
    let packet = packet_in(link, frame);
    match frame_kind(link, frame) {
        FrameKind::Ip(_) if has_ip_header(packet) => Some(packet),
        _ => None,
    }
}

/// Returns where the message of a packet ends: at the total length where that is possible, else
/// at the end of the packet.
pub fn message_end(packet: &[u8]) -> usize
    requires { IsReadable packet.now }
    ensures end { result ≡ spec.message_end packet.now }
    ensures behind { ip.header_length packet.now ≤ result }
    ensures inside { result ≤ length packet.now }
{
    let total = usize::from(u16_at(packet, 2));
    if total < header_length(packet) || packet.len() < total {
        return packet.len();
    }
    total
}

/// Returns the octets between the header and there.
pub fn message_in(packet: &[u8]) -> &[u8]
    requires { IsReadable packet.now }
    ensures { result.now ≡ spec.message_in packet.now }
{
    let whole = &packet[..message_end(packet)];
    &whole[header_length(packet)..]
}

/// Returns whether a packet is unfragmented or the first fragment.
fn is_first(packet: &[u8]) -> bool
    requires { IsReadable packet.now }
    ensures { result ≡ spec.is_first packet.now }
{
    u16_at(packet, 6) % 8192 == 0
}

/// Returns whether a TCP header can be read.
fn has_tcp_header(segment: &[u8]) -> bool
    ensures { result ≡ spec.has_tcp_header segment.now }
{
    if segment.len() < TCP_HEADER {
        return false;
    }
    let header = data_offset(segment);
    TCP_HEADER <= header && header <= segment.len()
}

/// Returns the TCP segment of a packet, where its header can be read.
pub fn segment_in(packet: &[u8]) -> Option<&[u8]>
    requires { IsReadable packet.now }
    ensures segment { option_copied result ≡ spec.segment_in packet.now }
    ensures header { IfSome result (λ segment. HasSegmentHeader segment.now) }
{
    let message = message_in(packet);
    if packet[9] == protocol::TCP && is_first(packet) && has_tcp_header(message) {
        Some(message)
    } else {
        None
    }
}

/// Returns the options of a TCP segment.
pub fn options_in(segment: &[u8]) -> &[u8]
    requires { HasSegmentHeader segment.now }
    ensures { result.now ≡ tcp.options segment.now }
{
    let header = &segment[..data_offset(segment)];
    &header[TCP_HEADER..]
}

/// Returns the UDP datagram of a packet, where its header can be read.
pub fn datagram_in(packet: &[u8]) -> Option<&[u8]>
    requires { IsReadable packet.now }
    ensures datagram { option_copied result ≡ spec.datagram_in packet.now }
    ensures header { IfSome result (λ datagram. 8 ≤ length datagram.now) }
{
    let message = message_in(packet);
    if packet[9] == protocol::UDP && is_first(packet) && UDP_HEADER <= message.len() {
        Some(message)
    } else {
        None
    }
}

/// Returns the ICMP message of a packet, where its header can be read.
pub fn icmp_in(packet: &[u8]) -> Option<&[u8]>
    requires { IsReadable packet.now }
    ensures message { option_copied result ≡ spec.icmp_in packet.now }
    ensures header { IfSome result (λ message. 8 ≤ length message.now) }
{
    let message = message_in(packet);
    if packet[9] == protocol::ICMP && is_first(packet) && ICMP_HEADER <= message.len() {
        Some(message)
    } else {
        None
    }
}

/// Returns what begins with two ports in a packet.
pub fn ported_in(packet: &[u8]) -> Option<&[u8]>
    requires { IsReadable packet.now }
    ensures part { option_copied result ≡ spec.ported_in packet.now }
    ensures header { IfSome result (λ part. 8 ≤ length part.now) }
{
    match segment_in(packet) {
        Some(segment) => Some(segment),
        None => datagram_in(packet),
    }
}

/// Returns the payload of a packet.
pub fn payload_in(packet: &[u8]) -> &[u8]
    requires { IsReadable packet.now }
    ensures { result.now ≡ spec.payload_in packet.now }
{
    if let Some(segment) = segment_in(packet) {
        return &segment[data_offset(segment)..];
    }
    match datagram_in(packet) {
        Some(datagram) => &datagram[UDP_HEADER..],
        None => message_in(packet),
    }
}

/// Returns the octets after the message of a packet.
pub fn trailer_in(packet: &[u8]) -> &[u8]
    requires { IsReadable packet.now }
    ensures { result.now ≡ spec.trailer_in packet.now }
{
    &packet[message_end(packet)..]
}

/// Returns the payload of a frame, or all octets after the link header where no IPv4 header can be
/// read.
pub fn payload_of(link: Link, frame: &[u8]) -> &[u8]
    ensures { result.now ≡ spec.payload_of link frame.now }
{
    match packet_of(link, frame) {
        Some(packet) => payload_in(packet),
        None => packet_in(link, frame),
    }
}
