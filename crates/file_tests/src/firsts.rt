//! The records that first sent octets, by lines and changes written by hand: what is acknowledged
//! and what an era that ended had is forgotten, which no run shows.
use crate::changes::octets;
use arrayvec::ArrayVec;
use edge_io::NoMemory;
use frame_view::{Change, PayloadChange, Replaced};
use rule_book::{Ended, Entry, Reason, Verdict};
use run_notes::{Firsts, NotedLine};
use std::alloc::Global;
use wire_base::{Link, Side};

// Inbound segments: 8 octets from the sequence number 2^32 - 4 on, and 4 from 0 and from 4 on.
const EIGHT: &str =
    "450000300001000040060000c63364070a0000019c400050fffffffc0000138950182000000000006162636465666768";

const MIDDLE: &str =
    "4500002c0001000040060000c63364070a0000019c4000500000000000001389501820000000000065666768";

const LAST: &str =
    "4500002c0001000040060000c63364070a0000019c4000500000000400001389501820000000000077777777";

// An outbound segment that acknowledges the number 6.
const ACK: &str =
    "4500002800010000400600000a000001c633640700509c4000001389000000065010200000000000";

/// What norm did with a record.
#[derive(Clone, Copy)]
enum Did {
    /// Wrote it.
    Wrote,
    /// Replaced the octet at this offset, which this record first sent.
    Replaced(usize, Option<u32>),
    /// Passed an outbound record.
    Passed,
    /// Wrote it, and its era ended before.
    Ended,
}

use Did::{Passed, Wrote};

// The records of a run, from 1, and what norm did with each.
#[rattlefmt::skip]
const RUN: &[(&str, Did)] = &[
    (EIGHT, Wrote),
    (MIDDLE, Did::Replaced(2, Some(1))),
    (LAST, Wrote),
    (ACK, Passed),
    (MIDDLE, Did::Replaced(2, None)),
    (LAST, Did::Replaced(3, Some(3))),
    (LAST, Did::Ended),
    (LAST, Did::Replaced(0, Some(7))),
];

// Returns the entry of a record of era 1.
fn entry(number: u32, did: Did) -> Entry {
    let mut ended = ArrayVec::new();
    if matches!(did, Did::Ended) {
        let _ = ended.try_push(Ended {
            era: 1,
            reason: Reason::Idle,
            octets: None,
        });
    }
    Entry {
        number,
        side: Some(if matches!(did, Passed) {
            Side::Outward
        } else {
            Side::Inward
        }),
        verdict: Verdict::Pass,
        packets: 1,
        rules: ArrayVec::new(),
        era: Some(1),
        begun: None,
        ended,
    }
}

// Returns what differs between a record and its frame.
fn changes_of(alloc: Global, did: Did) -> Result<Vec<Change>, NoMemory> {
    let mut changes = Vec::new(alloc);
    if let Did::Replaced(at, _) = did {
        let (from, to) = (Vec::from_slice(alloc, b"X")?, Vec::from_slice(alloc, b"g")?);
        let mut replaced = Vec::new(alloc);
        replaced.push(Replaced { at, from, to })?;
        let payload = PayloadChange {
            front: Vec::new(alloc),
            end: Vec::new(alloc),
            longer: Vec::new(alloc),
            replaced,
        };
        changes.push(Change::InPayload { frame: 1, payload })?;
    }
    Ok(changes)
}

fn are_firsts(firsts: &[Option<u32>], did: Did) -> bool {
    match did {
        Did::Replaced(_, first) => firsts == [first].as_slice(),
        _ => firsts.is_empty(),
    }
}

// Takes a record, and returns whether what is known of its octets is what its case says.
fn takes(
    alloc: Global,
    firsts: &mut Firsts,
    number: u32,
    row: &(&str, Did),
) -> Result<bool, NoMemory> {
    let (digits, did) = *row;
    let octets = octets(alloc, digits)?;
    let entry = entry(number, did);
    let line = NotedLine {
        link: Link::Raw,
        octets: &octets,
        entry: &entry,
    };
    let clash = firsts.take(alloc, line)?;
    let changes = changes_of(alloc, did)?;
    let known = firsts.wrote(alloc, false, &entry, &changes)?;
    Ok(clash.is_none() && are_firsts(&known, did))
}

// Returns the number of the first record of which something else is known.
fn first_other(alloc: Global, rows: &[(&str, Did)]) -> Result<Option<u32>, NoMemory> {
    let mut firsts = Firsts::new(alloc);
    let mut number = 0u32;
    for row in rows {
        number = number.saturating_add(1);
        if !takes(alloc, &mut firsts, number, row)? {
            return Ok(Some(number));
        }
    }
    Ok(None)
}

#[test]
fn replaced_octets_have_the_record_that_first_sent_them(rt: HostRuntime) -> Result<(), NoMemory> {
    assert_eq!(rt; first_other(rt.alloc(), RUN)?, None);
    Ok(())
}
