//! Worked example files, read in parts, and a file for each fault.
ghost use Rattle.std.specs.Prelude.{◌≡◌, ◌≤◌, true, length};
ghost use Rattle.wire_base.specs.declared.limits.TheConstants.{MAX_CAPTURED};

use edge_io::{MemSource, Source};
use pcap_file::{Order, Record};
use pcapng_file::{NgFault, NgReader};
use std::alloc::{AllocError, Global};
use wire_base::{Link, MAX_CAPTURED, Side};

// A section, least significant octet first.
const SECTION: [u8; 28] = [
    0x0a, 0x0d, 0x0d, 0x0a, 28, 0, 0, 0, 0x4d, 0x3c, 0x2b, 0x1a, 1, 0, 0, 0, 255, 255, 255, 255,
    255, 255, 255, 255, 28, 0, 0, 0,
];

// A section, most significant octet first, of version 1.2.
const BIG_SECTION: [u8; 28] = [
    0x0a, 0x0d, 0x0d, 0x0a, 0, 0, 0, 28, 0x1a, 0x2b, 0x3c, 0x4d, 0, 1, 0, 2, 255, 255, 255, 255,
    255, 255, 255, 255, 0, 0, 0, 28,
];

// Raw IP, no snap length, named `in`.
const IN: [u8; 32] = [
    1, 0, 0, 0, 32, 0, 0, 0, 101, 0, 0, 0, 0, 0, 0, 0, 2, 0, 2, 0, 0x69, 0x6e, 0, 0, 0, 0, 0, 0,
    32, 0, 0, 0,
];

// The same, named `ex`.
const EX: [u8; 32] = [
    1, 0, 0, 0, 32, 0, 0, 0, 101, 0, 0, 0, 0, 0, 0, 0, 2, 0, 2, 0, 0x65, 0x78, 0, 0, 0, 0, 0, 0,
    32, 0, 0, 0,
];

// Raw IP, a snap length of 6 octets, timestamps in nanoseconds.
const NANO: [u8; 32] = [
    1, 0, 0, 0, 32, 0, 0, 0, 101, 0, 0, 0, 6, 0, 0, 0, 9, 0, 1, 0, 9, 0, 0, 0, 0, 0, 0, 0, 32, 0,
    0, 0,
];

// Raw IP without options.
const PLAIN: [u8; 20] = [
    1, 0, 0, 0, 20, 0, 0, 0, 101, 0, 0, 0, 0, 0, 0, 0, 20, 0, 0, 0,
];

// Ethernet without options, most significant octet first.
const BIG_ETHERNET: [u8; 20] = [0, 0, 0, 1, 0, 0, 0, 20, 0, 1, 0, 0, 0, 0, 0, 0, 0, 0, 0, 20];

// A datagram of 30 octets.
pub const DATAGRAM: [u8; 30] = [
    0x45, 0, 0, 0x1e, 0, 1, 0, 0, 0x40, 0x11, 0x46, 0x93, 0xc6, 0x33, 0x64, 0x07, 10, 0, 0, 1,
    0x9c, 0x40, 0, 0x35, 0, 0x0a, 0xc6, 0xbf, 0x68, 0x69,
];

// The start of a packet block of this datagram, at time 0 on interface 1.
const BEFORE: [u8; 28] = [
    6, 0, 0, 0, 64, 0, 0, 0, 1, 0, 0, 0, 0, 0, 0, 0, 0, 0, 0, 0, 30, 0, 0, 0, 30, 0, 0, 0,
];

// The same on interface 0.
const BEFORE_0: [u8; 28] = [
    6, 0, 0, 0, 64, 0, 0, 0, 0, 0, 0, 0, 0, 0, 0, 0, 0, 0, 0, 0, 30, 0, 0, 0, 30, 0, 0, 0,
];

// The same on interface 2.
const BEFORE_2: [u8; 28] = [
    6, 0, 0, 0, 64, 0, 0, 0, 2, 0, 0, 0, 0, 0, 0, 0, 0, 0, 0, 0, 30, 0, 0, 0, 30, 0, 0, 0,
];

// The padding and the size at its end.
const BEHIND: [u8; 6] = [0, 0, 64, 0, 0, 0];

// Three captured octets of four, at 2^32 + 5 units, with an option after them.
const STAMPED: [u8; 44] = [
    6, 0, 0, 0, 44, 0, 0, 0, 0, 0, 0, 0, 1, 0, 0, 0, 5, 0, 0, 0, 3, 0, 0, 0, 4, 0, 0, 0, 7, 8, 9,
    0, 0x34, 0x12, 1, 0, 1, 0, 0, 0, 44, 0, 0, 0,
];

// A simple packet block of five octets.
const SIMPLE: [u8; 24] = [
    3, 0, 0, 0, 24, 0, 0, 0, 5, 0, 0, 0, 1, 2, 3, 4, 5, 0, 0, 0, 24, 0, 0, 0,
];

// A simple packet block of nine octets; six of them were captured.
const CLIPPED: [u8; 24] = [
    3, 0, 0, 0, 24, 0, 0, 0, 9, 0, 0, 0, 1, 2, 3, 4, 5, 6, 0, 0, 24, 0, 0, 0,
];

// A block of a type that is skipped.
const OTHER: [u8; 16] = [0xad, 0x0b, 0, 0, 16, 0, 0, 0, 1, 2, 3, 4, 16, 0, 0, 0];

// The smallest block.
const LEAST: [u8; 12] = [0xad, 0x0b, 0, 0, 12, 0, 0, 0, 12, 0, 0, 0];

// The seconds, the fraction, the original length, the offset, the side and the octets of a record.
pub type Packet<'a> = (u32, u32, u32, u64, Option<Side>, &'a [u8]);

// The number of records, at most two, the fault after them, and its offset; the end is no fault.
type Outcome = (u32, Option<NgFault>, u64);

// The fields of the head, the offsets of the first interface and of the end, and whether the
// records between them are the expected ones.
type Reading = ((Order, bool, Link), (u64, u64), bool);

pub fn joined(alloc: Global, parts: &[&[u8]]) -> Result<Vec<u8>, AllocError> {
    let mut octets = Vec::new(alloc);
    for part in parts {
        octets.extend_from_slice(part)?;
    }
    Ok(octets)
}

fn read_to_end(reader: &mut NgReader, source: &mut MemSource, buf: &mut [u8]) -> Outcome
    requires open { reader.old.is_open ≡ true }
    requires room { MAX_CAPTURED ≤ length buf.old }
{
    match reader.next(source, buf) {
        Ok(Some(_)) => {}
        Ok(None) => return (0, None, reader.offset()),
        Err(fault) => return (0, Some(fault), reader.offset()),
    }
    match reader.next(source, buf) {
        Ok(Some(_)) => (2, None, reader.offset()),
        Ok(None) => (1, None, reader.offset()),
        Err(fault) => (1, Some(fault), reader.offset()),
    }
}

fn outcome_of(source: &mut MemSource, buf: &mut [u8]) -> Outcome
    requires { MAX_CAPTURED ≤ length buf.old }
{
    match NgReader::open_behind(None, &[], source) {
        Ok(mut reader) => read_to_end(&mut reader, source, buf),
        Err(stop) => (0, Some(stop.fault), stop.offset),
    }
}

fn outcome(alloc: Global, octets: &[u8]) -> Result<Outcome, AllocError> {
    let mut buf = vec![in alloc; 0u8; MAX_CAPTURED as usize]?;
    let octets = Vec::from_slice(alloc, octets)?;
    let mut source = MemSource::new(octets, 65536, Vec::new(alloc));
    Ok(outcome_of(&mut source, &mut buf))
}

pub fn is_packet(record: &Record<'_>, packet: &Packet<'_>) -> bool {
    let (seconds, fraction, original, offset, side, bytes) = *packet;
    record.seconds == seconds
        && record.fraction == fraction
        && record.original == original
        && record.offset == offset
        && record.side == side
        && record.bytes == bytes
}

// Returns whether the reader is open and this record is the next.
fn is_next(
    reader: &mut NgReader,
    source: &mut MemSource,
    buf: &mut [u8],
    packet: &Packet<'_>,
) -> bool
    requires { MAX_CAPTURED ≤ length buf.old }
{
    if !reader.is_open() {
        return false;
    }
    match reader.next(source, buf) {
        Ok(Some(record)) => is_packet(&record, packet),
        _ => false,
    }
}

// Returns whether the reader is open, the end is next, and the reader is closed after it.
fn ends(reader: &mut NgReader, source: &mut MemSource, buf: &mut [u8]) -> bool
    requires { MAX_CAPTURED ≤ length buf.old }
{
    reader.is_open() && matches!(reader.next(source, buf), Ok(None)) && !reader.is_open()
}

// Returns whether these records are left, and then the end.
fn are_left(
    reader: &mut NgReader,
    source: &mut MemSource,
    buf: &mut [u8],
    packets: &[Packet<'_>],
) -> bool
    requires { MAX_CAPTURED ≤ length buf.old }
{
    for packet in packets {
        if !is_next(reader, source, buf, packet) {
            return false;
        }
    }
    ends(reader, source, buf)
}

fn reading_behind(
    reader: &mut NgReader,
    source: &mut MemSource,
    buf: &mut [u8],
    packets: &[Packet<'_>],
) -> Reading
    requires { MAX_CAPTURED ≤ length buf.old }
{
    let head = reader.head();
    let first = reader.offset();
    let wanted = are_left(reader, source, buf, packets);
    (
        (head.order, head.nano, head.link),
        (first, reader.offset()),
        wanted,
    )
}

fn reading_of(
    inside: Option<&[u8]>,
    source: &mut MemSource,
    buf: &mut [u8],
    packets: &[Packet<'_>],
) -> Result<Reading, NgFault>
    requires { MAX_CAPTURED ≤ length buf.old }
{
    // No name in a case is so long.
    if inside.is_some_and(|name| name.len() > 64) {
        return Err(NgFault::Block);
    }
    match NgReader::open(inside, source) {
        Ok(mut reader) => Ok(reading_behind(&mut reader, source, buf, packets)),
        Err(fault) => Err(fault),
    }
}

/// A file that is read to its end: the name of the interface inside, its blocks, its records, its
/// link, and the offsets of the first interface and of the end.
struct Whole {
    inside: Option<&'static [u8]>,
    blocks: &'static [&'static [u8]],
    packets: &'static [Packet<'static>],
    link: Link,
    offsets: (u64, u64),
}

// A packet block of three octets at 2,000,001 microseconds, most significant octet first.
const BIG_PACKET: [u8; 36] = [
    0, 0, 0, 6, 0, 0, 0, 36, 0, 0, 0, 0, 0, 0, 0, 0, 0, 0x1e, 0x84, 0x81, 0, 0, 0, 3, 0, 0, 0, 3,
    7, 8, 9, 0, 0, 0, 0, 36,
];

// One datagram on the second interface of two, and on the first.
const ON_EX: &[&[u8]] = &[&SECTION, &IN, &EX, &BEFORE, &DATAGRAM, &BEHIND];

const ON_IN: &[&[u8]] = &[&SECTION, &IN, &EX, &BEFORE_0, &DATAGRAM, &BEHIND];

const INWARD: &[Packet<'static>] = &[(0, 0, 30, 92, Some(Side::Inward), &DATAGRAM)];

const OUTWARD: &[Packet<'static>] = &[(0, 0, 30, 92, Some(Side::Outward), &DATAGRAM)];

const SIDELESS: &[Packet<'static>] = &[(0, 0, 30, 92, None, &DATAGRAM)];

#[rattlefmt::skip]
const WHOLES: &[Whole] = &[
    // A packet has the side of its interface.
    Whole { inside: Some(b"in"), blocks: ON_EX, packets: INWARD, link: Link::Raw, offsets: (28, 156) },
    Whole { inside: Some(b"in"), blocks: ON_IN, packets: OUTWARD, link: Link::Raw, offsets: (28, 156) },
    Whole { inside: Some(b"ex"), blocks: ON_EX, packets: OUTWARD, link: Link::Raw, offsets: (28, 156) },
    Whole { inside: Some(b"i"), blocks: ON_IN, packets: INWARD, link: Link::Raw, offsets: (28, 156) },
    Whole { inside: None, blocks: ON_EX, packets: SIDELESS, link: Link::Raw, offsets: (28, 156) },
    // Times and lengths are those of the interface: 4,294,967,301 microseconds, and as many
    // nanoseconds.
    Whole { inside: None, blocks: &[&SECTION, &OTHER, &PLAIN, &LEAST, &STAMPED, &SIMPLE, &OTHER],
        packets: &[(4294, 967_301_000, 4, 76, None, &[7, 8, 9]), (4294, 967_301_000, 5, 120, None, &[1, 2, 3, 4, 5])],
        link: Link::Raw, offsets: (44, 160) },
    Whole { inside: None, blocks: &[&SECTION, &OTHER, &NANO, &LEAST, &STAMPED, &SIMPLE, &OTHER],
        packets: &[(4, 294_967_301, 4, 88, None, &[7, 8, 9]), (4, 294_967_301, 5, 132, None, &[1, 2, 3, 4, 5])],
        link: Link::Raw, offsets: (44, 172) },
    // A simple packet is clipped to the snap length.
    Whole { inside: None, blocks: &[&SECTION, &NANO, &CLIPPED], packets: &[(0, 0, 9, 60, None, &[1, 2, 3, 4, 5, 6])],
        link: Link::Raw, offsets: (28, 84) },
    // A section may have the highest octet first.
    Whole { inside: None, blocks: &[&BIG_SECTION, &BIG_ETHERNET, &BIG_PACKET], packets: &[(2, 1000, 3, 48, None, &[7, 8, 9])],
        link: Link::Ethernet, offsets: (28, 84) },
];

// Returns whether a file is read as its case says in parts of `piece` octets.
fn is_whole(alloc: Global, row: &Whole, piece: usize) -> Result<bool, AllocError> {
    let mut buf = vec![in alloc; 0u8; MAX_CAPTURED as usize]?;
    let octets = joined(alloc, row.blocks)?;
    let mut source = MemSource::new(octets, piece.max(1), Vec::new(alloc));
    let wanted = ((Order::Little, true, row.link), row.offsets, true);
    Ok(reading_of(row.inside, &mut source, &mut buf, row.packets) == Ok(wanted))
}

// Returns the index of the first file with another result in parts of `piece` octets.
fn first_other_whole(
    alloc: Global,
    rows: &[Whole],
    piece: usize,
) -> Result<Option<usize>, AllocError> {
    for (index, row) in rows.iter().enumerate() {
        if !is_whole(alloc, row, piece)? {
            return Ok(Some(index));
        }
    }
    Ok(None)
}

#[test]
fn files_are_read_to_their_end(rt: HostRuntime) -> Result<(), AllocError> {
    for piece in [1, 7, 65536] {
        assert_eq!(rt; first_other_whole(rt.alloc(), WHOLES, piece)?, None);
    }
    Ok(())
}

/// Blocks, and what becomes of them if the octet at an offset has a value.
type Faults = (&'static [&'static [u8]], &'static [(usize, u8, Outcome)]);

// The sections begin at 0, the first interface at 28 and a packet at 60.
#[rattlefmt::skip]
const FAULTS: &[Faults] = &[
    (&[&SECTION, &IN, &STAMPED], &[
        // No octet is changed.
        (0, 0x0a, (1, None, 104)),
        (8, 0x4e, (0, Some(NgFault::Magic), 0)),
        (0, 1, (0, Some(NgFault::Magic), 0)),
        (12, 2, (0, Some(NgFault::Version), 0)),
        (4, 8, (0, Some(NgFault::Block), 0)),
        (4, 30, (0, Some(NgFault::Block), 0)),
        (24, 27, (0, Some(NgFault::Block), 0)),
        (36, 113, (0, Some(NgFault::Link), 28)),
        (32, 31, (0, Some(NgFault::Block), 28)),
        // An option that reaches past the options, and a packet block before the first interface.
        (46, 9, (0, Some(NgFault::Block), 28)),
        (28, 3, (0, Some(NgFault::Block), 28)),
        // A packet block of the old type, and one of an interface that the section does not have.
        (60, 2, (0, Some(NgFault::Block), 60)),
        (68, 1, (0, Some(NgFault::Block), 60)),
        // A captured length that does not fit the block, one above 262,144 octets, 2^32 seconds,
        // and another size at the end.
        (80, 13, (0, Some(NgFault::Block), 60)),
        (82, 5, (0, Some(NgFault::Long), 60)),
        (74, 255, (0, Some(NgFault::Block), 60)),
        (100, 40, (0, Some(NgFault::Block), 60)),
    ]),
    // Timestamps in units that are not supported.
    (&[&SECTION, &NANO, &STAMPED], &[
        (48, 3, (0, Some(NgFault::Block), 28)),
        (46, 2, (0, Some(NgFault::Block), 28)),
    ]),
    // Simple packet blocks of too many octets, and a second interface of another link.
    (&[&SECTION, &IN, &SIMPLE], &[
        (70, 5, (0, Some(NgFault::Long), 60)),
        (68, 9, (0, Some(NgFault::Block), 60)),
    ]),
    (&[&SECTION, &IN, &IN], &[(68, 1, (0, Some(NgFault::Link), 60))]),
    // An interface that is not described is a fault at its packet.
    (&[&SECTION, &IN, &EX, &BEFORE_2, &DATAGRAM, &BEHIND], &[(0, 0x0a, (0, Some(NgFault::Block), 92))]),
    // A section in the other order, whose first interface has another link.
    (&[&BIG_SECTION, &BIG_ETHERNET, &SECTION, &PLAIN], &[(0, 0x0a, (0, Some(NgFault::Link), 76))]),
];

// Returns the outcome of blocks with one octet changed.
fn changed(
    alloc: Global,
    blocks: &[&[u8]],
    place: usize,
    octet: u8,
) -> Result<Option<Outcome>, AllocError> {
    let mut octets = joined(alloc, blocks)?;
    match octets.get_mut(place) {
        Some(target) => *target = octet,
        None => return Ok(None),
    }
    Ok(Some(outcome(alloc, &octets)?))
}

// Returns the offset of the first changed octet with another outcome.
fn first_other_change(alloc: Global, faults: &Faults) -> Result<Option<usize>, AllocError> {
    let (blocks, rows) = *faults;
    for (place, octet, wanted) in rows {
        if changed(alloc, blocks, *place, *octet)? != Some(*wanted) {
            return Ok(Some(*place));
        }
    }
    Ok(None)
}

#[test]
fn a_file_has_its_first_fault(rt: HostRuntime) -> Result<(), AllocError> {
    for faults in FAULTS {
        assert_eq!(rt; first_other_change(rt.alloc(), faults)?, None);
    }
    Ok(())
}

// Numbers of octets of a file, and the offset at which it is cut short.
const CUTS: &[(usize, u64)] = &[
    (0, 0),
    (11, 0),
    (27, 0),
    (28, 28),
    (59, 28),
    (61, 60),
    (71, 60),
    (103, 60),
];

// Returns the first number of octets with another fault.
fn first_other_cut(alloc: Global, rows: &[(usize, u64)]) -> Result<Option<usize>, AllocError> {
    let octets = joined(alloc, &[&SECTION, &IN, &STAMPED])?;
    for (size, offset) in rows {
        let cut = octets.get(..*size).unwrap_or(&[]);
        if outcome(alloc, cut)? != (0, Some(NgFault::Cut), *offset) {
            return Ok(Some(*size));
        }
    }
    Ok(None)
}

#[test]
fn a_file_that_is_cut_short_is_told(rt: HostRuntime) -> Result<(), AllocError> {
    assert_eq!(rt; first_other_cut(rt.alloc(), CUTS)?, None);
    Ok(())
}

// Returns whether the source fails at the first packet block, and the reader is not open after it.
fn fails(source: &mut MemSource, buf: &mut [u8]) -> Result<bool, NgFault>
    requires { MAX_CAPTURED ≤ length buf.old }
{
    match NgReader::open(None, source) {
        Ok(mut reader) => Ok(is_failed(&mut reader, source, buf)),
        Err(fault) => Err(fault),
    }
}

fn is_failed(reader: &mut NgReader, source: &mut MemSource, buf: &mut [u8]) -> bool
    requires open { reader.old.is_open ≡ true }
    requires room { MAX_CAPTURED ≤ length buf.old }
{
    matches!(reader.next(source, buf), Err(NgFault::ReadFault)) && !reader.is_open()
}

// Reads from a source whose calls return at most ten octets each, and whose fifteenth call fails.
fn failing(alloc: Global) -> Result<(Result<bool, NgFault>, u64), AllocError> {
    let mut buf = vec![in alloc; 0u8; MAX_CAPTURED as usize]?;
    let octets = joined(alloc, &[&SECTION, &IN, &SIMPLE, &OTHER])?;
    let mut source = MemSource::new(octets, 10, vec![in alloc; 15]?);
    let failed = fails(&mut source, &mut buf);
    Ok((failed, source.faults()))
}

#[test]
fn a_source_that_fails_is_told(rt: HostRuntime) -> Result<(), AllocError> {
    assert_eq!(rt; failing(rt.alloc())?, (Ok(true), 1));
    Ok(())
}
