//! Packets and fragments (RFC 791, RFC 9293), and classic captures of them. Without a mark on the
//! line, the outside host is 198.51.100.7 port 40000, the inside host 10.0.0.1 port 80, the TTL 64,
//! the identification 1 and the window 8192.
ghost use Rattle.std.specs.Prelude.{◌≤◌};

use crate::notation::{Packet, add_octets};
use crate::runs::HEAD;
use std::alloc::{AllocError, Global};
use std::test::Fail;
use wire_base::{Addr, protocol, pseudo_sum, put_u16, put_u32, sum_for};

// The flags of the IPv4 header, in the number that they share with the fragment offset.
const RESERVED: u16 = 0x8000;

const DF: u16 = 0x4000;

const MF: u16 = 0x2000;

/// Sets bits of the octet at offset `at`.
fn set(octets: &mut [u8], at: usize, bits: u8) {
    if let Some(octet) = octets.get_mut(at) {
        *octet |= bits;
    }
}

/// Writes a big-endian number over the two zero octets at offset `at`.
fn put(octets: &mut [u8], at: usize, value: u16) {
    let [high, low] = value.to_be_bytes();
    set(octets, at, high);
    set(octets, at.saturating_add(1), low);
}

/// Returns the number of octets, at most 65,535.
fn length_of(octets: &[u8]) -> u16 {
    octets.len().min(65_535) as u16
}

/// Returns the length of a header in words, at most 15.
fn words(header: &[u8]) -> u8
    ensures { result ≤ 15 }
{
    (header.len() / 4).min(15) as u8
}

/// Appends the octets of a mark, none if the line has no such mark.
fn add_marked(octets: &mut Vec<u8>, packet: &Packet<'_>, name: &str) -> Result<(), Fail> {
    add_octets(octets, packet.mark(name).unwrap_or(""))
}

/// Returns the source and the destination address.
fn addresses(packet: &Packet<'_>) -> (u32, u32) {
    let (outside, inside) = (0xc633_6407, 0x0a00_0001);
    if packet.inward {
        (outside, inside)
    } else {
        (inside, outside)
    }
}

/// Returns the source port and the destination port.
fn ports(packet: &Packet<'_>) -> Result<(u16, u16), Fail> {
    let outside = packet.word("port", 40_000)?;
    Ok(if packet.inward {
        (outside, 80)
    } else {
        (80, outside)
    })
}

/// Returns the first 20 octets of the TCP header, without its length and its checksum.
fn segment_header(packet: &Packet<'_>) -> Result<[u8; 20], Fail> {
    let (from, to) = ports(packet)?;
    let (sequence, acknowledgment) = packet.numbers()?;
    let mut header = [0; 20];
    put_u16(&mut header, 0, from);
    put_u16(&mut header, 2, to);
    put_u32(&mut header, 4, sequence);
    put_u32(&mut header, 8, acknowledgment);
    header[12] = packet.octet("res", 0)?;
    header[13] = packet.flags()?;
    put_u16(&mut header, 14, packet.word("win", 8192)?);
    put_u16(&mut header, 18, packet.word("urg", 0)?);
    Ok(header)
}

/// Returns the checksum of a segment whose own is 0.
fn segment_sum(packet: &Packet<'_>, segment: &[u8]) -> Result<u16, Fail> {
    let (from, to) = addresses(packet);
    let pseudo = pseudo_sum(Addr(from), Addr(to), protocol::TCP, length_of(segment));
    let right = sum_for(segment, pseudo);
    if packet.mark("wrongsum").is_some() {
        return Ok(right ^ 1);
    }
    packet.word("sum", right)
}

/// Appends the TCP segment to an empty list.
fn add_segment(octets: &mut Vec<u8>, packet: &Packet<'_>) -> Result<(), Fail> {
    octets.extend_from_slice(&segment_header(packet)?)?;
    add_marked(octets, packet, "opt")?;
    let length = words(octets) * 16;
    set(octets, 12, length);
    add_octets(octets, packet.payload)?;
    let sum = segment_sum(packet, octets)?;
    put(octets, 16, sum);
    Ok(())
}

/// Appends the IPv4 payload of the packet before it is fragmented to an empty list.
fn add_payload(octets: &mut Vec<u8>, packet: &Packet<'_>) -> Result<(), Fail> {
    if packet.protocol == protocol::TCP {
        add_segment(octets, packet)
    } else {
        add_octets(octets, packet.payload)
    }
}

/// A fragment of an IPv4 payload: its octets, their offset, and the flag MF. A payload that is not
/// fragmented has offset 0 and no MF.
#[derive(Clone, Copy)]
struct Fragment<'a> {
    octets: &'a [u8],
    offset: u16,
    more: bool,
}

/// Returns the fragment of the payload that the marks `part` or `at` describe.
fn fragment_of<'a>(packet: &Packet<'_>, payload: &'a [u8]) -> Result<Fragment<'a>, Fail> {
    if let Some(part) = packet.mark("part") {
        let (from, to) = part.split_once("..").unwrap_or((part, ""));
        let (from, to) = (from.parse::<u16>()?, to.parse::<usize>()?);
        let Some(octets) = payload.get(usize::from(from)..to) else {
            return Err(Fail::new("a part past the payload"));
        };
        return Ok(Fragment {
            octets,
            offset: from,
            more: to < payload.len(),
        });
    }
    let at = packet.mark("at").unwrap_or("0");
    Ok(Fragment {
        octets: payload,
        offset: at.trim_end_matches('+').parse()?,
        more: at.ends_with("+"),
    })
}

/// Returns the flags and the fragment offset of the IPv4 header.
fn fragmentation(packet: &Packet<'_>, fragment: &Fragment<'_>) -> u16 {
    let reserved = if packet.mark("RF").is_some() {
        RESERVED
    } else {
        0
    };
    let whole = if packet.mark("DF").is_some() { DF } else { 0 };
    let more = if fragment.more { MF } else { 0 };
    reserved | whole | more | fragment.offset / 8
}

/// Returns the first 20 octets of the IPv4 header, without its lengths and its checksum.
fn packet_header(packet: &Packet<'_>, fragment: &Fragment<'_>) -> Result<[u8; 20], Fail> {
    let (from, to) = addresses(packet);
    let mut header = [0; 20];
    header[0] = 0x40;
    header[1] = packet.octet("tos", 0)?;
    put_u16(&mut header, 4, packet.word("id", 1)?);
    put_u16(&mut header, 6, fragmentation(packet, fragment));
    header[8] = packet.octet("ttl", 64)?;
    header[9] = packet.protocol;
    put_u32(&mut header, 12, from);
    put_u32(&mut header, 16, to);
    Ok(header)
}

/// Writes the lengths and the checksum of the IPv4 header before a payload.
fn complete(header: &mut [u8], payload: &[u8]) {
    let length = length_of(header).saturating_add(length_of(payload));
    let own = words(header);
    set(header, 0, own);
    put(header, 2, length);
    let sum = sum_for(header, 0);
    put(header, 10, sum);
}

/// Appends the fragment of a packet with this payload, and the octets after it, to an empty list.
fn add_fragment(octets: &mut Vec<u8>, packet: &Packet<'_>, payload: &[u8]) -> Result<(), Fail> {
    let fragment = fragment_of(packet, payload)?;
    octets.extend_from_slice(&packet_header(packet, &fragment)?)?;
    add_marked(octets, packet, "ipopt")?;
    complete(octets, fragment.octets);
    octets.extend_from_slice(fragment.octets)?;
    add_marked(octets, packet, "trail")
}

// A function that owns a list is slow to prove at each `?`, so the functions above append to one.
/// Returns the octets of a packet, and those after it.
fn octets_of(alloc: Global, packet: &Packet<'_>) -> Result<Vec<u8>, Fail> {
    let mut octets = Vec::new(alloc);
    if packet.is_raw() {
        add_octets(&mut octets, packet.payload)?;
        return Ok(octets);
    }
    let mut payload = Vec::new(alloc);
    add_payload(&mut payload, packet)?;
    add_fragment(&mut octets, packet, &payload)?;
    Ok(octets)
}

/// Returns the octets of the packet of one line.
pub(crate) fn packet_octets(alloc: Global, line: &str) -> Result<Vec<u8>, Fail> {
    octets_of(alloc, &Packet::read(line.trim())?)
}

/// Returns the file header of a capture of raw IP or of Ethernet.
pub(crate) fn head_of(ethernet: bool) -> [u8; 24] {
    let mut head = HEAD;
    if ethernet {
        head[20] = 1;
    }
    head
}

/// Appends a record with a frame: a link header and a packet.
fn add_record(
    file: &mut Vec<u8>,
    seconds: u32,
    link: &[u8],
    octets: &[u8],
) -> Result<(), AllocError> {
    let size = u32::from(length_of(link)) + u32::from(length_of(octets));
    for value in [seconds, 0, size, size] {
        file.extend_from_slice(&value.to_le_bytes())?;
    }
    file.extend_from_slice(link)?;
    file.extend_from_slice(octets)
}

/// Appends a record of the packet of a line, after an Ethernet header (RFC 894) if so asked.
pub(crate) fn add_packet(
    file: &mut Vec<u8>,
    alloc: Global,
    line: &str,
    ethernet: bool,
) -> Result<(), Fail> {
    let packet = Packet::read(line.trim())?;
    let (seconds, source) = (packet.number("t", 0)?, packet.octet("mac", 0)?);
    let link = [2, 0, 0, 0, 0, 1, 2, 0, 0, 0, 0, source, 8, 0];
    let size = if ethernet { link.len() } else { 0 };
    let octets = octets_of(alloc, &packet)?;
    Ok(add_record(file, seconds, &link[..size], &octets)?)
}

/// Returns whether the packet is an inbound segment from port 40000.
fn is_inward(packet: &Packet<'_>) -> Result<bool, Fail> {
    let own = packet.inward && packet.protocol == protocol::TCP;
    Ok(packet.number("port", 40_000)? == 40_000 && own)
}

/// Appends the packet of a line if it is an inbound segment from port 40000.
pub(crate) fn add_inward_packet(
    list: &mut Vec<Vec<u8>>,
    alloc: Global,
    line: &str,
) -> Result<(), Fail> {
    let packet = Packet::read(line.trim())?;
    if is_inward(&packet)? {
        list.push(octets_of(alloc, &packet)?)?;
    }
    Ok(())
}
