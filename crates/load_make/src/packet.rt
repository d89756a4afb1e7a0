//! The packets of a load.
ghost use Rattle.std.specs.Prelude.{◌≡◌, ◌+◌, ◌<◌, ◌≤◌, ◌^◌, ℕ, List, false, length, take, []};
ghost use Rattle.wire_base.specs.Tcp as tcp;
ghost use Rattle.tcp_codec.specs.WrittenSegment.{segment_of};
ghost use Rattle.load_make.specs.working.FlowBounds.{BeginsWithin};
ghost use Rattle.load_make.specs.Packets.{head_of, inbound, octets_from, outbound, packet_octets, segment_for};
ghost use Rattle.load_make.specs.working.RecordPayloads.{octets_of};

use crate::flow::Turn;
use arrayvec::ArrayVec;
use ipv4_codec::{Ipv4, write_plain};
use tcp_codec::{SegmentParts, write_segment};
use wire_base::{Addr, Flags, protocol, sequence_plus};

// Lengths in octets of an IPv4 header and of a TCP header without options (RFC 791 section 3.1, RFC
// 9293 section 3.1).
const HEADER: usize = 20;

const SEGMENT: u16 = 20;

// The address 198.51.100.1 and the port of the first connection outside, and 10.0.0.1 with its port
// inside.
const OUTSIDE: u32 = 0xc633_6401;

const OUTSIDE_PORT: u16 = 40000;

const INSIDE: Addr = Addr(0x0a00_0001);

const INSIDE_PORT: u16 = 80;

// Flags: SYN; SYN and ACK; ACK and PSH; ACK (RFC 9293 section 3.1).
const SYN: Flags = Flags(2);

const SYN_ACK: Flags = Flags(18);

const PSH_ACK: Flags = Flags(24);

const ACK: Flags = Flags(16);

/// Writes the packet of a record of a connection. Returns its length in octets.
pub(crate) fn write_packet(flow: u8, turn: Turn, ident: u16, buf: &mut [u8]) -> usize
    requires flow { flow < 64 }
    requires begin { BeginsWithin (2 ^ 63) turn }
    requires room { 552 ≤ length buf.old }
    ensures exact { take result buf.new ≡ packet_octets ident (segment_for flow turn) }
    ensures most { result ≤ 552 }
{
    let mut octets = [0; 512];
    let payload = payload_of(flow, turn, &mut octets);
    let parts = parts_of(flow, turn);
    let head = Ipv4 {
        header: HEADER,
        tos: 0,
        total: 40 + payload.len() as u16,
        ident,
        reserved: false,
        df: false,
        more: false,
        offset: 0,
        ttl: 64,
        protocol: protocol::TCP,
        sum: 0,
        src: parts.src,
        dst: parts.dst,
    };
    let (header, segment) = buf.split_at_mut(HEADER);
    let size = write_plain(&head, SEGMENT + payload.len() as u16, header);
    size + write_segment(&parts, payload, segment)
}

// Returns the payload of a record.
fn payload_of<'a>(flow: u8, turn: Turn, octets: &'a mut [u8; 512]) -> &'a [u8]
    requires flow { flow < 64 }
    requires begin { BeginsWithin (2 ^ 63) turn }
    ensures exact { result.now ≡ octets_of flow turn }
    ensures most { length result.now ≤ 512 }
{
    match turn {
        Turn::Octets(offset) => {
            put_stream(flow, offset, octets);
            octets
        }
        Turn::Changed(offset) => {
            put_stream(flow, offset, octets);
            octets[0] = 255;
            octets
        }
        Turn::Call | Turn::Answer | Turn::Acknowledged(_) => &[],
    }
}

// Fills the buffer with octets of the stream of a connection, from `offset` on.
fn put_stream(flow: u8, offset: u64, octets: &mut [u8; 512])
    requires flow { flow < 64 }
    requires begin { offset ≤ 2 ^ 63 }
    ensures { octets.new ≡ octets_from flow offset }
{
    for (index, octet) in octets.iter_mut().enumerate() {
        *octet = ((offset + index as u64 + u64::from(flow)) % 251) as u8;
    }
}

// Returns the parts of the segment of a record other than its payload.
fn parts_of(flow: u8, turn: Turn) -> SegmentParts
    requires flow { flow < 64 }
    requires begin { BeginsWithin (2 ^ 63) turn }
    ensures segment { segment_of result (octets_of flow turn) ≡ segment_for flow turn }
    ensures options { result.options.items ≡ [] }
    ensures urgent { tcp.has_urg result.flags.0 ≡ false }
{
    let base = 1000 * (u64::from(flow) + 1);
    match turn {
        Turn::Call => from_outside(flow, SYN, base - 1, 0),
        Turn::Answer => from_inside(flow, SYN_ACK, 5000, base),
        Turn::Octets(offset) => from_outside(flow, PSH_ACK, base + offset, 5001),
        Turn::Changed(offset) => from_outside(flow, PSH_ACK, base + offset, 5001),
        Turn::Acknowledged(offset) => from_inside(flow, ACK, 5001, base + offset),
    }
}

// Returns the parts of a segment from the outside host of a connection.
fn from_outside(flow: u8, flags: Flags, seq: u64, ack: u64) -> SegmentParts
    requires flow { flow < 64 }
    ensures segment { (octets : List ℕ) → segment_of result octets ≡ inbound flow flags.0 seq ack octets }
    ensures options { result.options.items ≡ [] }
    ensures flags { result.flags ≡ flags }
{
    SegmentParts {
        src: Addr(OUTSIDE + u32::from(flow)),
        dst: INSIDE,
        sport: OUTSIDE_PORT + u16::from(flow),
        dport: INSIDE_PORT,
        seq: sequence_plus(0, seq),
        ack: sequence_plus(0, ack),
        flags,
        window: u16::MAX,
        options: ArrayVec::new(),
    }
}

// Returns the parts of a segment from the inside host of a connection.
fn from_inside(flow: u8, flags: Flags, seq: u64, ack: u64) -> SegmentParts
    requires flow { flow < 64 }
    ensures segment { segment_of result [] ≡ outbound flow flags.0 seq ack }
    ensures options { result.options.items ≡ [] }
    ensures flags { result.flags ≡ flags }
{
    SegmentParts {
        src: INSIDE,
        dst: Addr(OUTSIDE + u32::from(flow)),
        sport: INSIDE_PORT,
        dport: OUTSIDE_PORT + u16::from(flow),
        seq: sequence_plus(0, seq),
        ack: sequence_plus(0, ack),
        flags,
        window: u16::MAX,
        options: ArrayVec::new(),
    }
}
