//! One segment of a frame that is cut. It has the part of the payload with the number `index`,
//! counted from 0; each part except the last has `room` octets.
ghost use Rattle.std.specs.Prelude.{◌≡◌, ◌+◌, ◌*◌, ◌≤◌, ◌<◌, ◌++◌, length, drop};
ghost use Rattle.emit_mtu.specs.working.PartSizes.{AreSized};
ghost use Rattle.emit_mtu.specs.Segments as spec;
ghost use Rattle.wire_base.specs.declared.limits.TheConstants.{MAX_FRAME, MAX_PACKET};

use crate::parts::{HEADER, Parts};
use tcp_codec::mend;
use wire_base::{
    Addr, Flags, protocol, pseudo_sum, put_u16, put_u32, sequence_plus, sum_for, u16_at, u32_at,
};

// The values of the flags that not every part keeps (RFC 9293 section 3.1).
const FIN: u8 = 1;

const PSH: u8 = 8;

const CWR: u8 = 128;

/// Writes the frame of a part at the front of the buffer, and returns its length in octets.
pub(crate) fn write_segment(parts: &Parts<'_>, room: usize, index: u16, buf: &mut [u8]) -> usize
    requires sized { AreSized parts.now }
    requires begins { room * index < length parts.now.payload }
    requires buffer { MAX_FRAME ≤ length buf.old }
    ensures exact { buf.new ≡ spec.segment_of room parts.now index ++ drop result buf.old }
    ensures size { result ≡ length (spec.segment_of room parts.now index) }
    ensures most { result ≤ MAX_FRAME }
{
    let octets = piece_of(parts, room, index);
    let size = parts.link.len() + HEADER + parts.tcp.len() + octets.len();
    let frame = &mut buf[..size];
    put_parts(parts, room, index, frame);
    size
}

// Writes the frame, which has the buffer's length.
fn put_parts(parts: &Parts<'_>, room: usize, index: u16, frame: &mut [u8])
    requires sized { AreSized parts.now }
    requires begins { room * index < length parts.now.payload }
    requires size { length frame.old ≡ length parts.now.link + 20 + length parts.now.tcp + length (spec.piece_of room index parts.now) }
    ensures { frame.new ≡ spec.segment_of room parts.now index }
{
    let (link, packet) = frame.split_at_mut(parts.link.len());
    let (ip, message) = packet.split_at_mut(HEADER);
    link.copy_from_slice(parts.link);
    put_ip_header(parts, message.len() as u16, index, ip);
    put_message(parts, room, index, message);
}

// Writes the IPv4 header before a segment of `size` octets.
fn put_ip_header(parts: &Parts<'_>, size: u16, index: u16, header: &mut [u8])
    requires ip { length parts.now.ip ≡ 20 }
    requires fits { 20 + size ≤ MAX_PACKET }
    requires size { length header.old ≡ 20 }
    ensures { header.new ≡ spec.ip_header size index parts.now }
{
    header.copy_from_slice(parts.ip);
    put_u16(header, 2, HEADER as u16 + size);
    put_u16(header, 4, u16_at(parts.ip, 4).wrapping_add(index));
    put_u16(header, 10, 0);
    let sum = sum_for(header, 0);
    put_u16(header, 10, sum);
}

// Writes the TCP segment, which has the buffer's length.
fn put_message(parts: &Parts<'_>, room: usize, index: u16, message: &mut [u8])
    requires sized { AreSized parts.now }
    requires begins { room * index < length parts.now.payload }
    requires size { length message.old ≡ length parts.now.tcp + length (spec.piece_of room index parts.now) }
    ensures { message.new ≡ spec.message_of room index parts.now }
{
    put_octets(parts, room, index, message);
    let source = Addr(u32_at(parts.ip, 12));
    let destination = Addr(u32_at(parts.ip, 16));
    let pseudo = pseudo_sum(source, destination, protocol::TCP, message.len() as u16);
    mend(message, pseudo);
}

// Writes the TCP segment with the checksum of the frame's segment.
fn put_octets(parts: &Parts<'_>, room: usize, index: u16, message: &mut [u8])
    requires sized { AreSized parts.now }
    requires begins { room * index < length parts.now.payload }
    requires size { length message.old ≡ length parts.now.tcp + length (spec.piece_of room index parts.now) }
    ensures { message.new ≡ spec.tcp_header room index parts.now ++ spec.piece_of room index parts.now }
{
    let (header, octets) = message.split_at_mut(parts.tcp.len());
    put_tcp_header(parts, room, index, header);
    octets.copy_from_slice(piece_of(parts, room, index));
}

// Writes the TCP header with its options, with the checksum of the frame's segment.
fn put_tcp_header(parts: &Parts<'_>, room: usize, index: u16, header: &mut [u8])
    requires sized { AreSized parts.now }
    requires begins { room * index < length parts.now.payload }
    requires size { length header.old ≡ length parts.now.tcp }
    ensures { header.new ≡ spec.tcp_header room index parts.now }
{
    header.copy_from_slice(parts.tcp);
    let before = room * usize::from(index);
    let sequence = sequence_plus(u32_at(parts.tcp, 4), before as u64);
    put_u32(header, 4, sequence);
    let last = parts.payload.len() <= before + room;
    header[13] = flags_of(Flags(parts.tcp[13]), index == 0, last).0;
}

// Returns the octets of a part of the payload.
fn piece_of<'a>(parts: &Parts<'a>, room: usize, index: u16) -> &'a [u8]
    requires { room * index < length parts.now.payload }
    ensures { result.now ≡ spec.piece_of room index parts.now }
{
    let rest = &parts.payload[room * usize::from(index)..];
    &rest[..rest.len().min(room)]
}

// Returns the flags of a part: FIN and PSH only on the last one, CWR only on the first one.
fn flags_of(flags: Flags, first: bool, last: bool) -> Flags
    ensures { result.0 ≡ spec.flags_of first last flags.0 }
{
    Flags(flags.0 - lost(flags, FIN, last) - lost(flags, PSH, last) - lost(flags, CWR, first))
}

// Returns the value of a flag if it is set and not kept, else 0.
fn lost(flags: Flags, weight: u8, kept: bool) -> u8
    requires { 0 < weight }
    ensures { result ≡ spec.lost weight flags.0 kept }
{
    if !kept && flags.0 / weight % 2 == 1 {
        weight
    } else {
        0
    }
}
