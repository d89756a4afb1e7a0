//! Steps of an engine over TCP segments: the rules on their header, a segment in fragments, and an
//! engine with the greatest number of connections.
use crate::packets::SYN;
use crate::settings::{Chosen, STANDARD, settings};
use edge_io::{NoMemory, Outbox};
use norm_engine::Engine;
use pcap_file::Record;
use rule_book::{Entry, Rule, Verdict};
use std::alloc::Global;
use wire_base::{Addr, protocol, pseudo_sum, put_u16, sum_for};

/// Octets at some indices of the SYN, and whether checksums are left to the interface; the verdict,
/// and its rules.
struct Row {
    changes: &'static [(usize, u8)],
    offload: bool,
    verdict: Verdict,
    rules: &'static [Rule],
}

/// From 10.0.0.1 to 198.51.100.7, with another checksum.
const WRONG_OUTWARD: &[(usize, u8)] = &[
    (12, 0x0a),
    (13, 0),
    (14, 0),
    (15, 1),
    (16, 0xc6),
    (17, 0x33),
    (18, 0x64),
    (19, 7),
    (37, 0x2e),
];

#[rattlefmt::skip]
const ROWS: &[Row] = &[
    Row { changes: &[], offload: false, verdict: Verdict::Pass, rules: &[] },
    Row { changes: &[(37, 0x2e)], offload: false, verdict: Verdict::Drop, rules: &[Rule::TSum] },
    Row { changes: &[(37, 0x2e)], offload: true, verdict: Verdict::Drop, rules: &[Rule::TSum] },
    Row { changes: WRONG_OUTWARD, offload: false, verdict: Verdict::Drop, rules: &[Rule::TSum] },
    Row { changes: WRONG_OUTWARD, offload: true, verdict: Verdict::Fix, rules: &[Rule::TSumOut] },
    Row { changes: &[(33, 3), (37, 0x2e)], offload: false, verdict: Verdict::Drop, rules: &[Rule::TFlags] },
    Row { changes: &[(32, 0x40)], offload: false, verdict: Verdict::Drop, rules: &[Rule::THlen] },
    Row { changes: &[(32, 0x60)], offload: false, verdict: Verdict::Drop, rules: &[Rule::THlen] },
];

/// Returns the entry of this packet, captured completely at time 0.
fn step(engine: &mut Engine, packet: &[u8; 40], out: &mut Outbox) -> Option<Entry> {
    if engine.records() == u32::MAX {
        return None;
    }
    let input = Record {
        seconds: 0,
        fraction: 0,
        original: 40,
        offset: 24,
        side: None,
        bytes: packet,
    };
    Some(engine.step(&input, out))
}

/// Returns whether an entry is that of the case, with the first era begun exactly if a frame is
/// written.
fn is_first(entry: &Entry, row: &Row) -> bool {
    let frames = u8::from(row.verdict != Verdict::Drop);
    let era = if frames == 1 { Some(1) } else { None };
    let own = (
        entry.number,
        entry.verdict,
        entry.packets,
        entry.era,
        entry.begun,
    );
    let same = own == (1, row.verdict, frames, era, era);
    same && entry.rules.as_slice() == row.rules && entry.ended.is_empty()
}

/// Writes these octets at their indices.
fn change(packet: &mut [u8; 40], changes: &[(usize, u8)]) {
    for (at, octet) in changes {
        if let Some(place) = packet.get_mut(*at) {
            *place = *octet;
        }
    }
}

/// Returns whether a new engine judges the SYN as in this case.
fn judges(engine: &mut Engine, out: &mut Outbox, row: &Row) -> bool {
    let mut packet = SYN;
    change(&mut packet, row.changes);
    let frames = usize::from(row.verdict != Verdict::Drop);
    match step(engine, &packet, out) {
        Some(entry) => is_first(&entry, row) && out.frames() == frames,
        None => false,
    }
}

// Only calls its engine, as the two functions like it below do, since a function that owns one is
// slow to prove.
fn is_judged(alloc: Global, row: &Row) -> Result<bool, NoMemory> {
    let mut out = Outbox::open(alloc)?;
    let chosen = Chosen {
        offload: row.offload,
        ..STANDARD
    };
    let mut engine = Engine::open(alloc, settings(chosen))?;
    Ok(judges(&mut engine, &mut out, row))
}

/// Returns the index of the first case with another result.
fn first_other(alloc: Global, rows: &[Row]) -> Result<Option<usize>, NoMemory> {
    for (index, row) in rows.iter().enumerate() {
        if !is_judged(alloc, row)? {
            return Ok(Some(index));
        }
    }
    Ok(None)
}

#[test]
fn segments_are_judged_by_their_header(rt: HostRuntime) -> Result<(), NoMemory> {
    assert_eq!(rt; first_other(rt.alloc(), ROWS)?, None);
    Ok(())
}

/// The SYN in two fragments with identification 7: 16 octets of its segment, and the last four.
const FRONT: [u8; 36] = [
    0x45, 0x00, 0x00, 0x24, 0x00, 0x07, 0x20, 0x00, 0x40, 0x06, 0x26, 0x92, 0xc6, 0x33, 0x64, 0x07,
    0x0a, 0x00, 0x00, 0x01, 0x9c, 0x40, 0x00, 0x50, 0x00, 0x00, 0x03, 0xe7, 0x00, 0x00, 0x00, 0x00,
    0x50, 0x02, 0x20, 0x00,
];

const BACK: [u8; 24] = [
    0x45, 0x00, 0x00, 0x18, 0x00, 0x07, 0x00, 0x02, 0x40, 0x06, 0x46, 0x9c, 0xc6, 0x33, 0x64, 0x07,
    0x0a, 0x00, 0x00, 0x01, 0xbb, 0x2f, 0x00, 0x00,
];

/// Returns whether this fragment, captured completely at time 0, has this verdict and this one
/// rule, in this era.
fn becomes(
    engine: &mut Engine,
    fragment: &[u8],
    told: (Verdict, Rule, Option<u32>),
    out: &mut Outbox,
) -> bool {
    if engine.records() == u32::MAX {
        return false;
    }
    let input = Record {
        seconds: 0,
        fraction: 0,
        original: 0,
        offset: 24,
        side: None,
        bytes: fragment,
    };
    let entry = engine.step(&input, out);
    entry.verdict == told.0 && entry.rules.as_slice() == [told.1].as_slice() && entry.era == told.2
}

/// Numbers of datagrams, of cells for fragments and of connections, and of frames written.
type Counts = (u32, u32, u32, usize);

fn counts_of(engine: &Engine, out: &Outbox) -> Counts {
    let datagrams = engine.datagrams();
    (datagrams, engine.frag_cells(), engine.flows(), out.frames())
}

/// Returns whether both fragments become what they should, and the numbers after each of them.
fn reassembles(engine: &mut Engine, out: &mut Outbox) -> (bool, Counts, Counts) {
    let held = becomes(engine, &FRONT, (Verdict::Hold, Rule::FHeld, None), out);
    let between = counts_of(engine, out);
    let done = becomes(engine, &BACK, (Verdict::Fix, Rule::FDone, Some(1)), out);
    (held && done, between, counts_of(engine, out))
}

fn reassembled(alloc: Global) -> Result<(bool, Counts, Counts), NoMemory> {
    let mut out = Outbox::open(alloc)?;
    let mut engine = Engine::open(alloc, settings(STANDARD))?;
    Ok(reassembles(&mut engine, &mut out))
}

#[test]
fn a_fragment_is_held_until_its_datagram_is_whole(rt: HostRuntime) -> Result<(), NoMemory> {
    let expected = (true, (1, 1, 0, 0), (0, 0, 1, 1));
    assert_eq!(rt; reassembled(rt.alloc())?, expected);
    Ok(())
}

/// Returns the SYN from this port.
fn syn_from(port: u16) -> [u8; 40] {
    let mut packet = SYN;
    put_u16(&mut packet, 20, port);
    put_u16(&mut packet, 36, 0);
    let sum = sum_for(
        &packet[20..],
        pseudo_sum(Addr(0xc633_6407), Addr(0x0a00_0001), protocol::TCP, 20),
    );
    put_u16(&mut packet, 36, sum);
    packet
}

/// Returns whether the SYN from this port passes under no rule, in the era that it begins, or that
/// it began before.
fn passes(engine: &mut Engine, port: u16, begins: bool, out: &mut Outbox) -> bool {
    let Some(entry) = step(engine, &syn_from(port), out) else {
        return false;
    };
    let era = Some(u32::from(port) + 1);
    let begun = if begins { era } else { None };
    let told = entry.verdict == Verdict::Pass && entry.packets == 1 && entry.rules.is_empty();
    told && entry.era == era && entry.begun == begun && entry.ended.is_empty()
}

/// Begins an era from each port, and returns the first port whose SYN does not pass.
fn first_refused(engine: &mut Engine, out: &mut Outbox) -> Option<u16> {
    for port in 0..=65_535u16 {
        if !passes(engine, port, true, out) {
            return Some(port);
        }
    }
    None
}

/// Finds the era of a pseudorandom port four million times, and returns the first port whose SYN
/// does not pass or changes the number of eras.
fn first_lost(engine: &mut Engine, out: &mut Outbox) -> Option<u16> {
    let mut state = 7u64;
    for _ in 0..4_000_000 {
        state = state
            .wrapping_mul(6_364_136_223_846_793_005)
            .wrapping_add(1_442_695_040_888_963_407);
        let port = ((state >> 33) % 65_536) as u16;
        if !passes(engine, port, false, out) || engine.flows() != 65_536 {
            return Some(port);
        }
    }
    None
}

fn fills(engine: &mut Engine, out: &mut Outbox) -> (Option<u16>, Option<u16>) {
    (first_refused(engine, out), first_lost(engine, out))
}

fn filled(alloc: Global) -> Result<(Option<u16>, Option<u16>), NoMemory> {
    let mut out = Outbox::open(alloc)?;
    let wide = Chosen {
        wide: true,
        ..STANDARD
    };
    let mut engine = Engine::open(alloc, settings(wide))?;
    Ok(fills(&mut engine, &mut out))
}

// A search from end to end would look at more than 10^11 eras.
#[test]
fn four_million_segments_of_a_full_engine_pass_within_a_minute(
    rt: HostRuntime,
) -> Result<(), NoMemory> {
    assert_eq!(rt; filled(rt.alloc())?, (None, None));
    Ok(())
}
