//! What a frame says in each field.
ghost use Rattle.std.specs.Prelude.{◌≡◌, ◌≤◌, length};
ghost use Rattle.frame_view.specs.Readings as spec;
ghost use Rattle.frame_view.specs.FrameParts as parts;
ghost use Rattle.frame_view.specs.working.SegmentHeaders.{HasSegmentHeader};
ghost use Rattle.frame_view.specs.FrameParts.{IsReadable};
ghost use Rattle.frame_view.specs.working.ReadingShapes.{FitsField, plain_reading};

use crate::Field;
use crate::parts::{
    datagram_in, header_length, options_in, packet_of, payload_in, payload_of, segment_in,
    trailer_in,
};
use wire_base::{Link, link_octets, u16_at, u32_at};

/// What a frame says in a field.
#[derive(Clone, Copy, Debug)]
pub(crate) enum Reading<'f> {
    /// The frame has no such field.
    Absent,
    Number(u32),
    Octets(&'f [u8]),
}

/// Returns what a frame says in a field.
pub(crate) fn read_field<'f>(link: Link, field: Field, frame: &'f [u8]) -> Reading<'f>
    ensures says { plain_reading result ≡ spec.reading link field frame.now }
    ensures fits { FitsField field result }
{
    match field {
        Field::LinkHeader => Reading::Octets(link_octets(link, frame)),
        Field::Payload => Reading::Octets(payload_of(link, frame)),
        _ => match packet_of(link, frame) {
            Some(packet) => reading_in_packet(field, packet),
            None => Reading::Absent,
        },
    }
}

// Returns what a packet says in a field.
fn reading_in_packet(field: Field, packet: &[u8]) -> Reading<'_>
    requires { IsReadable packet.now }
    ensures says { plain_reading result ≡ spec.packet_reading field packet.now }
    ensures fits { FitsField field result }
{
    match field {
        Field::LinkHeader => Reading::Absent,
        Field::Version => Reading::Number(u32::from(packet[0] / 16)),
        Field::HeaderLength => Reading::Number(4 * u32::from(packet[0] % 16)),
        Field::TypeOfService => Reading::Number(u32::from(packet[1])),
        Field::TotalLength => Reading::Number(u32::from(u16_at(packet, 2))),
        Field::Identification => Reading::Number(u32::from(u16_at(packet, 4))),
        Field::ReservedBit => Reading::Number(u32::from(packet[6] / 128 % 2)),
        Field::DontFragment => Reading::Number(u32::from(packet[6] / 64 % 2)),
        Field::MoreFragments => Reading::Number(u32::from(packet[6] / 32 % 2)),
        Field::FragmentOffset => Reading::Number(8 * u32::from(u16_at(packet, 6) % 8192)),
        Field::Ttl => Reading::Number(u32::from(packet[8])),
        Field::Protocol => Reading::Number(u32::from(packet[9])),
        Field::HeaderChecksum => Reading::Number(u32::from(u16_at(packet, 10))),
        Field::Source => Reading::Number(u32_at(packet, 12)),
        Field::Destination => Reading::Number(u32_at(packet, 16)),
        Field::IpOptions => Reading::Octets(&packet[..header_length(packet)][20..]),
        Field::Payload => Reading::Octets(payload_in(packet)),
        Field::Trailer => Reading::Octets(trailer_in(packet)),
        _ => reading_in_message(field, packet),
    }
}

// Returns what the TCP segment or the UDP datagram of a packet says in a field.
fn reading_in_message(field: Field, packet: &[u8]) -> Reading<'_>
    requires { IsReadable packet.now }
    ensures says { plain_reading result ≡ spec.message_reading field (parts.segment_in packet.now) (parts.datagram_in packet.now) }
    ensures fits { FitsField field result }
{
    if let Some(segment) = segment_in(packet) {
        return reading_in_segment(field, segment);
    }
    match datagram_in(packet) {
        Some(datagram) => reading_in_datagram(field, datagram),
        None => Reading::Absent,
    }
}

// Returns what a TCP segment says in a field.
fn reading_in_segment(field: Field, segment: &[u8]) -> Reading<'_>
    requires { HasSegmentHeader segment.now }
    ensures says { plain_reading result ≡ spec.segment_reading field segment.now }
    ensures fits { FitsField field result }
{
    match field {
        Field::SourcePort => Reading::Number(u32::from(u16_at(segment, 0))),
        Field::DestinationPort => Reading::Number(u32::from(u16_at(segment, 2))),
        Field::Sequence => Reading::Number(u32_at(segment, 4)),
        Field::Acknowledgment => Reading::Number(u32_at(segment, 8)),
        Field::DataOffset => Reading::Number(4 * u32::from(segment[12] / 16)),
        Field::Reserved => Reading::Number(u32::from(segment[12] % 16)),
        Field::Flags => Reading::Number(u32::from(segment[13])),
        Field::Window => Reading::Number(u32::from(u16_at(segment, 14))),
        Field::Checksum => Reading::Number(u32::from(u16_at(segment, 16))),
        Field::UrgentPointer => Reading::Number(u32::from(u16_at(segment, 18))),
        Field::TcpOptions => Reading::Octets(options_in(segment)),
        _ => Reading::Absent,
    }
}

// Returns what a UDP datagram says in a field.
fn reading_in_datagram(field: Field, datagram: &[u8]) -> Reading<'_>
    requires { 8 ≤ length datagram.now }
    ensures says { plain_reading result ≡ spec.datagram_reading field datagram.now }
    ensures fits { FitsField field result }
{
    match field {
        Field::SourcePort => Reading::Number(u32::from(u16_at(datagram, 0))),
        Field::DestinationPort => Reading::Number(u32::from(u16_at(datagram, 2))),
        Field::UdpLength => Reading::Number(u32::from(u16_at(datagram, 4))),
        Field::Checksum => Reading::Number(u32::from(u16_at(datagram, 6))),
        _ => Reading::Absent,
    }
}
