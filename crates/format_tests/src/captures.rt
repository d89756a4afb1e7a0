//! Captures of both kinds, read in parts.
ghost use Rattle.std.specs.Prelude.{◌≡◌, ◌≤◌, true, length};
ghost use Rattle.capture_input.specs.ReaderState.{is_open_in};
ghost use Rattle.wire_base.specs.declared.limits.TheConstants.{MAX_CAPTURED};

use crate::pcapng::joined;
use capture_input::{Input, InputFault};
use edge_io::{MemSource, Source};
use pcap_file::Order;
use std::alloc::{AllocError, Global};
use wire_base::{Link, MAX_CAPTURED, Side};

// A section, least significant octet first, with the interfaces `in` and `ex`, both of raw IP.
const SECTION: [u8; 92] = [
    0x0a, 0x0d, 0x0d, 0x0a, 28, 0, 0, 0, 0x4d, 0x3c, 0x2b, 0x1a, 1, 0, 0, 0, 255, 255, 255, 255,
    255, 255, 255, 255, 28, 0, 0, 0, 1, 0, 0, 0, 32, 0, 0, 0, 101, 0, 0, 0, 0, 0, 0, 0, 2, 0, 2, 0,
    0x69, 0x6e, 0, 0, 0, 0, 0, 0, 32, 0, 0, 0, 1, 0, 0, 0, 32, 0, 0, 0, 101, 0, 0, 0, 0, 0, 0, 0,
    2, 0, 2, 0, 0x65, 0x78, 0, 0, 0, 0, 0, 0, 32, 0, 0, 0,
];

// A packet block of a datagram of 30 octets, at time 0 on interface 1.
const PACKET: [u8; 64] = [
    6, 0, 0, 0, 64, 0, 0, 0, 1, 0, 0, 0, 0, 0, 0, 0, 0, 0, 0, 0, 30, 0, 0, 0, 30, 0, 0, 0, 0x45, 0,
    0, 0x1e, 0, 1, 0, 0, 0x40, 0x11, 0x46, 0x93, 0xc6, 0x33, 0x64, 0x07, 10, 0, 0, 1, 0x9c, 0x40,
    0, 0x35, 0, 0x0a, 0xc6, 0xbf, 0x68, 0x69, 0, 0, 64, 0, 0, 0,
];

// A section, most significant octet first, with one interface of raw IP and a packet block of three
// octets at 2,000,001 microseconds.
const BIG: [u8; 84] = [
    0x0a, 0x0d, 0x0d, 0x0a, 0, 0, 0, 28, 0x1a, 0x2b, 0x3c, 0x4d, 0, 1, 0, 2, 255, 255, 255, 255,
    255, 255, 255, 255, 0, 0, 0, 28, 0, 0, 0, 1, 0, 0, 0, 20, 0, 101, 0, 0, 0, 0, 0, 0, 0, 0, 0,
    20, 0, 0, 0, 6, 0, 0, 0, 36, 0, 0, 0, 0, 0, 0, 0, 0, 0, 0x1e, 0x84, 0x81, 0, 0, 0, 3, 0, 0, 0,
    3, 7, 8, 9, 0, 0, 0, 0, 36,
];

// A classic file, most significant octet first, in microseconds, of Ethernet, with a record of
// three octets.
const CLASSIC: [u8; 43] = [
    0xa1, 0xb2, 0xc3, 0xd4, 0, 2, 0, 4, 0, 0, 0, 0, 0, 0, 0, 0, 0, 4, 0, 0, 0, 0, 0, 1, 0, 0, 0, 5,
    0, 0, 0, 6, 0, 0, 0, 3, 0, 0, 0, 9, 7, 8, 9,
];

// The fields of a record that was read.
#[derive(Clone, Copy, PartialEq)]
struct Found {
    time: (u32, u32),
    original: u32,
    size: usize,
    offset: u64,
    side: Option<Side>,
}

// The result of reading a capture: its head, the fault at its end, and the offset of that.
#[derive(Clone, Copy, PartialEq)]
struct Outcome {
    head: Option<(Order, bool, Link)>,
    fault: Option<InputFault>,
    offset: u64,
}

// Returns the fields of the next record.
fn next_of(
    input: &mut Input,
    source: &mut MemSource,
    buf: &mut [u8],
) -> Result<Option<Found>, InputFault>
    requires open { is_open_in input.old ≡ true }
    requires room { MAX_CAPTURED ≤ length buf.old }
{
    match input.next(source, buf)? {
        Some(record) => Ok(Some(Found {
            time: (record.seconds, record.fraction),
            original: record.original,
            size: record.bytes.len(),
            offset: record.offset,
            side: record.side,
        })),
        None => Ok(None),
    }
}

// Reads at most four records, and returns whether they are these.
fn are_read(
    input: &mut Input,
    source: &mut MemSource,
    buf: &mut [u8],
    wanted: &[Found],
    outcome: &mut Outcome,
) -> bool
    requires { MAX_CAPTURED ≤ length buf.old }
{
    let mut count = 0usize;
    for _ in 0..4 {
        if !input.is_open() {
            break;
        }
        match next_of(input, source, buf) {
            Ok(Some(found)) if wanted.get(count) == Some(&found) => count = count.saturating_add(1),
            Ok(Some(_)) => return false,
            Ok(None) => {}
            Err(fault) => outcome.fault = Some(fault),
        }
        outcome.offset = input.offset();
    }
    count == wanted.len()
}

// Reads a capture to its end, and returns its outcome, or None if its records are not these.
fn outcome_of(
    inside: Option<&[u8]>,
    source: &mut MemSource,
    buf: &mut [u8],
    wanted: &[Found],
) -> Option<Outcome>
    requires { MAX_CAPTURED ≤ length buf.old }
{
    if inside.is_some_and(|name| name.len() > 64) {
        return None;
    }
    match Input::open(inside, source) {
        Ok(mut input) => {
            let head = input.head();
            let mut outcome = Outcome {
                head: Some((head.order, head.nano, head.link)),
                ..UNREAD
            };
            let right = are_read(&mut input, source, buf, wanted, &mut outcome);
            if right { Some(outcome) } else { None }
        }
        Err(stop) if wanted.is_empty() => Some(Outcome {
            fault: Some(stop.fault),
            offset: stop.offset,
            ..UNREAD
        }),
        Err(_) => None,
    }
}

const UNREAD: Outcome = Outcome {
    head: None,
    fault: None,
    offset: 0,
};

// The packet of the section, if its interface has no side.
const DATAGRAM: Found = Found {
    time: (0, 0),
    original: 30,
    size: 30,
    offset: 92,
    side: None,
};

const INWARD: Found = Found {
    side: Some(Side::Inward),
    ..DATAGRAM
};

const OUTWARD: Found = Found {
    side: Some(Side::Outward),
    ..DATAGRAM
};

// The packet of the section after it.
const NEXT: Found = Found {
    time: (2, 1000),
    original: 3,
    size: 3,
    offset: 204,
    side: Some(Side::Inward),
};

// The packet of the classic file.
const PLAIN: Found = Found {
    time: (5, 6),
    original: 9,
    size: 3,
    offset: 24,
    side: None,
};

/// A case: the parts of a capture, an octet that is changed, and its number of octets; the name of
/// the interface inside. Its result: the records that are read, the head, the fault at the end, and
/// its offset.
struct Row {
    parts: &'static [&'static [u8]],
    change: (usize, u8),
    size: usize,
    inside: Option<&'static [u8]>,
    found: &'static [Found],
    head: Option<(Order, bool, Link)>,
    fault: Option<InputFault>,
    offset: u64,
}

const BLOCKS: Row = Row {
    parts: &[&SECTION, &PACKET],
    change: (100, 1),
    size: 156,
    inside: None,
    found: &[DATAGRAM],
    head: Some((Order::Little, true, Link::Raw)),
    fault: None,
    offset: 156,
};

const FILE: Row = Row {
    parts: &[&CLASSIC],
    change: (0, 0xa1),
    size: 43,
    inside: None,
    found: &[PLAIN],
    head: Some((Order::Big, false, Link::Ethernet)),
    fault: None,
    offset: 43,
};

// They have no head, so no record is read.
const NO_BLOCKS: Row = Row {
    found: &[],
    head: None,
    fault: Some(InputFault::Cut),
    offset: 0,
    ..BLOCKS
};

const NO_FILE: Row = Row {
    found: &[],
    head: None,
    fault: Some(InputFault::Cut),
    offset: 0,
    ..FILE
};

#[rattlefmt::skip]
const ROWS: &[Row] = &[
    // Packets of a pcapng file have the sides of their interfaces.
    Row { inside: Some(b"in"), found: &[INWARD], ..BLOCKS },
    Row { inside: Some(b"in"), change: (100, 0), found: &[OUTWARD], ..BLOCKS },
    Row { inside: Some(b"ex"), found: &[OUTWARD], ..BLOCKS },
    BLOCKS,
    // An interface that is not described is a fault at its packet.
    Row { inside: Some(b"in"), change: (100, 2), found: &[], fault: Some(InputFault::Block), offset: 92, ..BLOCKS },
    // A section of the other order may follow.
    Row { parts: &[&SECTION, &PACKET, &BIG], size: 240, inside: Some(b"in"), found: &[INWARD, NEXT], offset: 240, ..BLOCKS },
    // A classic file is read too.
    FILE,
    // A classic file without faults is refused where an interface is asked for.
    Row { inside: Some(b"in"), fault: Some(InputFault::Block), ..NO_FILE },
    Row { inside: Some(b"in"), change: (0, 0), fault: Some(InputFault::Magic), ..NO_FILE },
    Row { inside: Some(b"in"), change: (7, 3), fault: Some(InputFault::Version), ..NO_FILE },
    Row { inside: Some(b"in"), change: (23, 2), fault: Some(InputFault::Link), ..NO_FILE },
    // A capture that is cut short is reported at its head, record or block.
    Row { size: 0, ..NO_FILE },
    Row { size: 3, ..NO_FILE },
    Row { size: 23, ..NO_FILE },
    Row { size: 25, found: &[], fault: Some(InputFault::Cut), offset: 24, ..FILE },
    Row { size: 42, found: &[], fault: Some(InputFault::Cut), offset: 24, ..FILE },
    Row { size: 3, ..NO_BLOCKS },
    Row { size: 27, ..NO_BLOCKS },
    Row { size: 28, offset: 28, ..NO_BLOCKS },
    Row { size: 59, offset: 28, ..NO_BLOCKS },
    Row { size: 155, found: &[], fault: Some(InputFault::Cut), offset: 92, ..BLOCKS },
];

// Returns the octets of a capture, or None where it has fewer.
fn octets_of(alloc: Global, row: &Row) -> Result<Option<Vec<u8>>, AllocError> {
    let mut octets = joined(alloc, row.parts)?;
    match octets.get_mut(row.change.0) {
        Some(target) => *target = row.change.1,
        None => return Ok(None),
    }
    if octets.len() < row.size {
        return Ok(None);
    }
    octets.truncate(row.size);
    Ok(Some(octets))
}

// Returns whether a capture is read as its case says, in parts of `piece` octets.
fn is_read(alloc: Global, row: &Row, piece: usize) -> Result<bool, AllocError> {
    let mut buf = vec![in alloc; 0u8; MAX_CAPTURED as usize]?;
    let Some(octets) = octets_of(alloc, row)? else {
        return Ok(false);
    };
    let mut source = MemSource::new(octets, piece.max(1), Vec::new(alloc));
    let wanted = Outcome {
        head: row.head,
        fault: row.fault,
        offset: row.offset,
    };
    Ok(outcome_of(row.inside, &mut source, &mut buf, row.found) == Some(wanted))
}

// Returns the index of the first capture with another result.
fn first_other(alloc: Global, rows: &[Row], piece: usize) -> Result<Option<usize>, AllocError> {
    for (index, row) in rows.iter().enumerate() {
        if !is_read(alloc, row, piece)? {
            return Ok(Some(index));
        }
    }
    Ok(None)
}

#[test]
fn captures_of_both_kinds_are_read(rt: HostRuntime) -> Result<(), AllocError> {
    for piece in [1, 7, 65536] {
        assert_eq!(rt; first_other(rt.alloc(), ROWS, piece)?, None);
    }
    Ok(())
}

// The call that fails, where each call returns at most four octets, and the offset of the fault.
const FAILING: &[(u32, u64)] = &[(1, 0), (2, 0), (9, 28), (24, 60), (26, 92), (39, 92)];

// Returns the fault of reading a first record, its offset, and the number of faults of the source.
fn fault_of(source: &mut MemSource, buf: &mut [u8]) -> (Option<InputFault>, u64, u64)
    requires { MAX_CAPTURED ≤ length buf.old }
{
    match Input::open(None, source) {
        Err(stop) => (Some(stop.fault), stop.offset, source.faults()),
        Ok(mut input) => {
            let fault = if input.is_open() {
                next_of(&mut input, source, buf).err()
            } else {
                None
            };
            (fault, input.offset(), source.faults())
        }
    }
}

fn failing_at(alloc: Global, call: u32) -> Result<(Option<InputFault>, u64, u64), AllocError> {
    let mut buf = vec![in alloc; 0u8; MAX_CAPTURED as usize]?;
    let octets = joined(alloc, &[&SECTION, &PACKET])?;
    let mut source = MemSource::new(octets, 4, vec![in alloc; call]?);
    Ok(fault_of(&mut source, &mut buf))
}

// Returns the first call with another fault.
fn first_other_call(alloc: Global, rows: &[(u32, u64)]) -> Result<Option<u32>, AllocError> {
    for (call, offset) in rows {
        if failing_at(alloc, *call)? != (Some(InputFault::ReadFault), *offset, 1) {
            return Ok(Some(*call));
        }
    }
    Ok(None)
}

#[test]
fn a_source_that_fails_is_told(rt: HostRuntime) -> Result<(), AllocError> {
    assert_eq!(rt; first_other_call(rt.alloc(), FAILING)?, None);
    Ok(())
}
