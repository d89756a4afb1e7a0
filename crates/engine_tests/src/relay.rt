//! Records by one engine and by two, in worked cases: the frames written, and the lines.
ghost use Rattle.std.specs.Prelude.{◌≡◌};
ghost use Rattle.wire_base.specs.declared.address.Link.TheVariants.{Raw};
ghost use Rattle.both_sides.specs.RelayState.{link_of};

use crate::packets::{ABCD, ABXD, ACK, PROBE, RESET, SYN, SYN_ACK};
use crate::settings::{Chosen, STANDARD, settings};
use both_sides::{Relay, RelayFault};
use edge_io::{MemSink, NoMemory};
use pcap_file::{Head, Order, Record};
use std::alloc::Global;
use wire_base::Link;

/// Head of a written record of 40 octets and of one of 44, at second 7 and 9 microseconds.
const FRONT: &[u8] = &[7, 0, 0, 0, 9, 0, 0, 0, 40, 0, 0, 0, 40, 0, 0, 0];

const FRONT_44: &[u8] = &[7, 0, 0, 0, 9, 0, 0, 0, 44, 0, 0, 0, 44, 0, 0, 0];

const RAW: Head = Head {
    order: Order::Little,
    nano: false,
    link: Link::Raw,
};

/// Five packets, which one engine relays or two, to sinks whose call with the given number fails, 0
/// for none. The number of frames written for the last packet, or the first fault; the octets
/// written, in parts.
struct Row {
    both: bool,
    packets: [&'static [u8]; 5],
    failing: (u32, u32),
    answer: Result<u64, RelayFault>,
    report: &'static [&'static [u8]],
    capture: &'static [&'static [u8]],
}

/// Relays the record of this packet, and returns the number of frames written.
fn give(
    relay: &mut Relay,
    packet: &[u8],
    capture: &mut MemSink,
    report: &mut MemSink,
) -> Result<u64, RelayFault>
    requires { link_of relay.old ≡ Raw }
    ensures { link_of relay.new ≡ Raw }
{
    if relay.is_full() {
        return Ok(0);
    }
    let length = packet.len().min(65_535) as u32;
    let input = Record::new(7, 9, length, 24, packet);
    relay.relay(&RAW, &input, capture, report)
}

/// Relays five packets, one after another, up to the first fault.
fn give_all(
    relay: &mut Relay,
    packets: [&[u8]; 5],
    capture: &mut MemSink,
    report: &mut MemSink,
) -> Result<u64, RelayFault>
    requires { link_of relay.old ≡ Raw }
{
    let [first, second, third, fourth, fifth] = packets;
    give(relay, first, capture, report)?;
    give(relay, second, capture, report)?;
    give(relay, third, capture, report)?;
    give(relay, fourth, capture, report)?;
    give(relay, fifth, capture, report)
}

// Owns the relay, which no other function does, since a function that owns one is slow to prove.
fn answer_to(
    alloc: Global,
    row: &Row,
    capture: &mut MemSink,
    report: &mut MemSink,
) -> Result<Result<u64, RelayFault>, NoMemory> {
    let chosen = Chosen {
        both: row.both,
        ..STANDARD
    };
    let mut relay = Relay::open(alloc, settings(chosen))?;
    let answer = give_all(&mut relay, row.packets, capture, report);
    Ok(answer)
}

/// Returns a sink whose call with this number fails; 0 is none.
fn sink(alloc: Global, failing: u32) -> Result<MemSink, NoMemory> {
    let mut calls = Vec::new(alloc);
    if failing > 0 {
        calls.push(failing)?;
    }
    MemSink::new(alloc, 4096, calls)
}

/// Returns whether the octets are these parts, one after another.
fn is_made_of(octets: &[u8], parts: &[&[u8]]) -> bool {
    let mut left = octets;
    for part in parts {
        match left.strip_prefix(part) {
            Some(rest) => left = rest,
            None => return false,
        }
    }
    left.is_empty()
}

/// Returns whether the relay of a case gives its answer and writes its octets.
fn is_relayed(alloc: Global, row: &Row) -> Result<bool, NoMemory> {
    let mut capture = sink(alloc, row.failing.0)?;
    let mut report = sink(alloc, row.failing.1)?;
    let answer = answer_to(alloc, row, &mut capture, &mut report)?;
    let frames = is_made_of(capture.held(), row.capture);
    Ok(answer == row.answer && frames && is_made_of(report.held(), row.report))
}

/// The lines of a connection whose other side sends `abcd`, and then `abXd` at the same sequence
/// numbers.
const MENDED: &[u8] =
    b"1 in pass 1 @1 +1\n/1 out pass 1 @1 +1\n2 out pass 1 @1\n/2 in pass 1 @1\n3 in pass 1 @1\n/3 out pass 1 @1\n4 out pass 1 @1\n/4 in pass 1 @1\n5 out pass 1 @1\n/5 in fix 1 T_CLASH @1\n";

// Two engines: the second compares what the first passes outwards with the octets sent first, and
// reports it.
const CLASH: Row = Row {
    both: true,
    packets: [&SYN, &SYN_ACK, &ACK, &ABCD, &ABXD],
    failing: (0, 0),
    answer: Ok(1),
    report: &[MENDED],
    capture: &[
        FRONT, &SYN, FRONT, &SYN_ACK, FRONT, &ACK, FRONT_44, &ABCD, FRONT_44, &ABCD,
    ],
};

/// The lines of two engines of a reset of no connection and of the opening of one; the second
/// engine counts frames.
const LINES: &[u8] =
    b"1 in drop 0 T_COLD\n2 in pass 1 @1 +1\n/1 out pass 1 @1 +1\n3 out pass 1 @1\n/2 in pass 1 @1\n4 in pass 1 @1\n/3 out pass 1 @1\n";

/// The lines of the reset of the connection: of the first engine, and of the second.
const RESETTING: &[u8] = b"5 in fix 2 C_PROBE @1\n";

const ENDED: &[u8] = b"/4 out pass 1 @1 -1:reset:0\n/5 out pass 1 @2 +2\n";

// A reset of no connection, the opening of one, and a reset of it, which a probe follows. Two
// engines: a record without frames has one line, and one with two has three, after both frames.
const RESETS: Row = Row {
    both: true,
    packets: [&RESET, &SYN, &SYN_ACK, &ACK, &RESET],
    failing: (0, 0),
    answer: Ok(2),
    report: &[LINES, RESETTING, ENDED],
    capture: &[
        FRONT, &SYN, FRONT, &SYN_ACK, FRONT, &ACK, FRONT, &RESET, FRONT, &PROBE,
    ],
};

/// The lines of one engine for them.
const ALONE: &[u8] =
    b"1 in drop 0 T_COLD\n2 in pass 1 @1 +1\n3 out pass 1 @1\n4 in pass 1 @1\n5 in fix 2 C_PROBE @1\n";

const ROWS: &[Row] = &[
    CLASH,
    RESETS,
    // A fault at the second frame of a record leaves none of its lines.
    Row {
        failing: (10, 0),
        answer: Err(RelayFault::Capture),
        report: &[LINES],
        capture: &[
            FRONT, &SYN, FRONT, &SYN_ACK, FRONT, &ACK, FRONT, &RESET, FRONT,
        ],
        ..RESETS
    },
    // A fault at a line of the second engine leaves the lines before it, and all frames.
    Row {
        failing: (0, 9),
        answer: Err(RelayFault::Report),
        report: &[LINES, RESETTING],
        ..RESETS
    },
    // One engine: a line for each record.
    Row {
        both: false,
        report: &[ALONE],
        ..RESETS
    },
];

/// Returns the index of the first case with another result.
fn first_other(alloc: Global, rows: &[Row]) -> Result<Option<usize>, NoMemory> {
    for (index, row) in rows.iter().enumerate() {
        if !is_relayed(alloc, row)? {
            return Ok(Some(index));
        }
    }
    Ok(None)
}

#[test]
fn frames_are_written_before_their_lines(rt: HostRuntime) -> Result<(), NoMemory> {
    assert_eq!(rt; first_other(rt.alloc(), ROWS)?, None);
    Ok(())
}
