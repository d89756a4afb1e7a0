//! Both sides protected, by worked cases: the entries of each engine for a packet and its frames,
//! and the frames written.
use crate::packets::{ABCD, ABXD, ACK, PROBE, RESET, SYN, SYN_ACK};
use crate::settings::{STANDARD, settings};
use both_sides::Both;
use edge_io::{NoMemory, Outbox};
use pcap_file::Record;
use rule_book::{Entry, Rule, Verdict};
use std::alloc::Global;
use wire_base::Link;

/// Inwards, a port unreachable (RFC 792) that quotes a segment of the connection.
const UNREACHABLE: [u8; 56] = [
    0x45, 0x00, 0x00, 0x38, 0x00, 0x01, 0x00, 0x00, 0x40, 0x01, 0x46, 0x89, 0xc6, 0x33, 0x64, 0x07,
    0x0a, 0x00, 0x00, 0x01, 0x03, 0x00, 0x60, 0x6f, 0x00, 0x00, 0x00, 0x00, 0x45, 0x00, 0x00, 0x1c,
    0x00, 0x01, 0x00, 0x00, 0x40, 0x06, 0x46, 0xa0, 0x0a, 0x00, 0x00, 0x01, 0xc6, 0x33, 0x64, 0x07,
    0x00, 0x50, 0x9c, 0x40, 0x00, 0x00, 0x00, 0x00,
];

/// ARP (RFC 826) after an Ethernet header, with padding.
const ARP: [u8; 60] = [
    0xff, 0xff, 0xff, 0xff, 0xff, 0xff, 2, 0, 0, 0, 0, 1, 8, 6, 0, 1, 8, 0, 6, 4, 0, 1, 2, 0, 0, 0,
    0, 1, 10, 0, 0, 1, 0, 0, 0, 0, 0, 0, 10, 0, 0, 2, 0, 0, 0, 0, 0, 0, 0, 0, 0, 0, 0, 0, 0, 0, 0,
    0, 0, 0,
];

/// Expected entry of a record.
struct Told {
    verdict: Verdict,
    rules: &'static [Rule],
    era: Option<u32>,
}

const PASSED: Told = Told {
    verdict: Verdict::Pass,
    rules: &[],
    era: Some(1),
};

const BESIDE: Told = Told {
    verdict: Verdict::Pass,
    rules: &[],
    era: None,
};

/// Packet, its entry in the first engine, and for each frame that this writes the entry in the
/// second engine and the frame written.
struct Row {
    packet: &'static [u8],
    front: Told,
    back: &'static [(Told, &'static [u8])],
}

const OPENED: [Row; 3] = [
    Row {
        packet: &SYN,
        front: PASSED,
        back: &[(PASSED, &SYN)],
    },
    Row {
        packet: &SYN_ACK,
        front: PASSED,
        back: &[(PASSED, &SYN_ACK)],
    },
    Row {
        packet: &ACK,
        front: PASSED,
        back: &[(PASSED, &ACK)],
    },
];

/// The octets written outwards first replace those that differ.
const CLASHED: [Row; 2] = [
    Row {
        packet: &ABCD,
        front: PASSED,
        back: &[(PASSED, &ABCD)],
    },
    Row {
        packet: &ABXD,
        front: PASSED,
        back: &[(
            Told {
                verdict: Verdict::Fix,
                rules: &[Rule::TClash],
                era: Some(1),
            },
            &ABCD,
        )],
    },
];

/// An error of the connection, and a reset, followed by the probe: each frame passes the second
/// engine.
const INWARDS: [Row; 2] = [
    Row {
        packet: &UNREACHABLE,
        front: BESIDE,
        back: &[(BESIDE, &UNREACHABLE)],
    },
    Row {
        packet: &RESET,
        front: Told {
            verdict: Verdict::Fix,
            rules: &[Rule::CProbe],
            era: Some(1),
        },
        back: &[
            (PASSED, &RESET),
            (
                Told {
                    verdict: Verdict::Pass,
                    rules: &[],
                    era: Some(2),
                },
                &PROBE,
            ),
        ],
    },
];

/// A reset of no connection is dropped, so the second engine reads nothing.
const STRAY: [Row; 1] = [Row {
    packet: &RESET,
    front: Told {
        verdict: Verdict::Drop,
        rules: &[Rule::TCold],
        era: None,
    },
    back: &[],
}];

const ADDRESSES: [Row; 1] = [Row {
    packet: &ARP,
    front: BESIDE,
    back: &[(BESIDE, &ARP)],
}];

/// Returns whether an entry is the expected one, with this number.
fn says(entry: &Entry, told: &Told, number: u32) -> bool {
    let own = (entry.number, entry.verdict, entry.era);
    own == (number, told.verdict, told.era) && entry.rules.as_slice() == told.rules
}

/// Returns whether the only frame is this one.
fn holds(out: &Outbox, octets: &[u8]) -> bool {
    out.frames() == 1 && out.frame(0) == octets
}

/// Returns whether the first engine gives the expected entry for the packet, which is the record
/// with this number, and writes the expected number of frames.
fn fronts(both: &mut Both, row: &Row, records: u32) -> bool {
    if both.records() >= 1000 || both.pending() > 0 {
        return false;
    }
    let length = row.packet.len().min(65_535) as u32;
    let input = Record::new(7, 9, length, 24, row.packet);
    let right = says(&both.front(&input), &row.front, records);
    right && both.pending() == row.back.len()
}

/// Returns whether the second engine gives the expected entry for the next frame, which is the one
/// with this number, and these octets are written.
fn backs(both: &mut Both, told: &Told, octets: &[u8], number: u32, out: &mut Outbox) -> bool {
    if both.pending() == 0 {
        return false;
    }
    let right = says(&both.back(out), told, number);
    right && holds(out, octets)
}

/// Returns whether both engines give the expected entries for the packet, which is the record with
/// this number; the second engine has read `frames` frames before.
fn relays(both: &mut Both, row: &Row, records: u32, frames: u32, out: &mut Outbox) -> bool {
    let mut right = fronts(both, row, records);
    let mut number = frames;
    for (told, octets) in row.back {
        number = number.wrapping_add(1);
        right = right && backs(both, told, octets, number, out);
    }
    right && both.pending() == 0
}

/// Returns whether both engines give the expected entries for these packets, one after another.
fn relay_each(both: &mut Both, before: &[Row], rows: &[Row], out: &mut Outbox) -> bool {
    let mut records = 0u32;
    let mut frames = 0u32;
    let mut right = true;
    for row in before.iter().chain(rows) {
        records = records.wrapping_add(1);
        right = right && relays(both, row, records, frames, out);
        frames = frames.wrapping_add(row.back.len().min(2) as u32);
    }
    right
}

/// Returns whether two engines give the expected entries for the packets of a run. It only calls
/// them, since a function that owns an engine is slow to prove.
fn is_relayed(alloc: Global, run: &Run) -> Result<bool, NoMemory> {
    let mut out = Outbox::open(alloc)?;
    let mut both = Both::open(alloc, settings(STANDARD))?;
    both.set_link(run.link);
    Ok(relay_each(&mut both, run.before, run.rows, &mut out))
}

/// Returns the index of the first run with another entry or frame.
fn first_other(alloc: Global, runs: &[Run]) -> Result<Option<usize>, NoMemory> {
    for (index, run) in runs.iter().enumerate() {
        if !is_relayed(alloc, run)? {
            return Ok(Some(index));
        }
    }
    Ok(None)
}

/// Packets on this link, one after another.
struct Run {
    link: Link,
    before: &'static [Row],
    rows: &'static [Row],
}

#[rattlefmt::skip]
const RUNS: &[Run] = &[
    // An open connection passes both engines.
    Run { link: Link::Raw, before: &OPENED, rows: &[] },
    // Octets that are sent outwards again are rewritten.
    Run { link: Link::Raw, before: &OPENED, rows: &CLASHED },
    // What goes inwards passes the second engine.
    Run { link: Link::Raw, before: &OPENED, rows: &INWARDS },
    Run { link: Link::Ethernet, before: &ADDRESSES, rows: &[] },
    // A record that is dropped has no frame.
    Run { link: Link::Raw, before: &STRAY, rows: &[] },
];

#[test]
fn frames_of_the_first_engine_are_judged_by_the_second(rt: HostRuntime) -> Result<(), NoMemory> {
    assert_eq!(rt; first_other(rt.alloc(), RUNS)?, None);
    Ok(())
}
