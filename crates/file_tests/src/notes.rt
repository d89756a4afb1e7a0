//! Notes on captures that are bad, and what else is counted of records that are not judged.
use crate::views::has_lines;
use edge_io::NoMemory;
use rule_book::read_entry;
use run_notes::{HostCount, Note, NotedLine, Notes, NumberCount, has_warning};
use std::alloc::Global;
use view_text::{Format, notes_text};
use wire_base::{Addr, Link};

/// The first four octets of an IPv4 packet after a VLAN tag, and in PPPoE.
const VLAN: &[u8] = b"abcdefghijkl\x81\x00\x00\x05\x08\x00\x45\x00\x00\x14";

const PPPOE: &[u8] = b"abcdefghijkl\x88\x64\x11\x00\x00\x01\x00\x16\x00\x21\x45\x00\x00\x14";

const OF_TYPE: &str = "1 - drop 0 L_TYPE\n";

/// A GRE packet (protocol 47) without octets.
const TUNNEL: &[u8] = b"\x45\0\0\x14\0\x01\0\0\x40\x2f\0\0\xc6\x33\x64\x07\x0a\0\0\x01";

/// A UDP datagram without octets of another host with the same last octet, and its answer.
const DATAGRAM: &[u8] =
    b"\x45\0\0\x1c\0\0\0\0\x40\x11\0\0\xc6\x33\x63\x07\x0a\0\0\x01\x9c\x40\0\x35\0\x08\0\0";

const ANSWER: &[u8] =
    b"\x45\0\0\x1c\0\0\0\0\x40\x11\0\0\x0a\0\0\x01\xc6\x33\x63\x07\0\x35\x9c\x40\0\x08\0\0";

/// The first fragment of a datagram, of 8 octets.
const FRAGMENT: &[u8] =
    b"\x45\0\0\x1c\0\x01\x20\0\x40\x11\0\0\xc6\x33\x64\x07\x0a\0\0\x01\x9c\x40\0\x35\0\x18\0\0";

/// The link of a record, its octets, and its line in the report.
type Taken = (Link, &'static [u8], &'static str);

/// Records of which more than half are not judged.
const UNJUDGED: &[Taken] = &[
    (Link::Ethernet, VLAN, OF_TYPE),
    (Link::Ethernet, PPPOE, OF_TYPE),
    (Link::Raw, TUNNEL, "1 in drop 0 P_PROTO\n"),
    (Link::Raw, DATAGRAM, "1 in pass 1\n"),
    (Link::Raw, FRAGMENT, "1 in hold 0 F_HELD\n"),
    (Link::Raw, ANSWER, "1 out pass 1\n"),
];

#[rattlefmt::skip]
const TEXT: &str =
    "note tagged vlan 1 pppoe 1 mpls 0: IPv4 after VLAN tags is dropped: tcprewrite --enet-vlan=del -i IN -o UNTAGGED, and run norm on UNTAGGED; \
     IPv4 in PPPoE or MPLS is dropped: capture where packets have neither\n\
     note tunnels records 1: tunnels and SCTP are dropped: capture inside of a tunnel\n\
     note unjudged records 3 of 6 rules L_TYPE 2, P_PROTO 1: most records are no IPv4: see tagged and ipv6\n";

#[rattlefmt::skip]
const VALUES: &[&str] = &[
    "{\"event\":\"note\",\"note\":\"tagged\",\"vlan\":1,\"pppoe\":1,\"mpls\":0,\"advice\":\"IPv4 after VLAN tags is dropped: \
     tcprewrite --enet-vlan=del -i IN -o UNTAGGED, and run norm on UNTAGGED; IPv4 in PPPoE or MPLS is dropped: capture where packets have neither\"}",
    "{\"event\":\"note\",\"note\":\"tunnels\",\"records\":1,\"advice\":\"tunnels and SCTP are dropped: capture inside of a tunnel\"}",
    "{\"event\":\"note\",\"note\":\"unjudged\",\"records\":3,\"of\":6,\"by_rule\":[{\"rule\":\"L_TYPE\",\"count\":2},\
     {\"rule\":\"P_PROTO\",\"count\":1}],\"advice\":\"most records are no IPv4: see tagged and ipv6\"}",
];

// Takes a record; returns false if its line is no entry's.
fn take_one(taken: &Taken, notes: &mut Notes) -> Result<bool, NoMemory> {
    let (link, octets, line) = *taken;
    let Some(entry) = read_entry(line.as_bytes(), 2) else {
        return Ok(false);
    };
    notes.take(NotedLine {
        link,
        octets,
        entry: &entry,
    })?;
    Ok(true)
}

// Takes records; returns false if one has no line.
fn take_all(records: &[Taken], notes: &mut Notes) -> Result<bool, NoMemory> {
    for taken in records {
        if !take_one(taken, notes)? {
            return Ok(false);
        }
    }
    Ok(true)
}

// Returns whether the notes are these lines, and these values in JSON.
fn are_notes(alloc: Global, list: &[Note], text: &str, values: &[&str]) -> Result<bool, NoMemory> {
    let same = is_text(alloc, list, text)?;
    let json = notes_text(alloc, Format::Json, list)?;
    Ok(same && has_lines(alloc, true, json.as_str(), values))
}

fn is_text(alloc: Global, list: &[Note], expected: &str) -> Result<bool, NoMemory> {
    let text = notes_text(alloc, Format::Text, list)?;
    Ok(text.as_str() == expected)
}

// Returns whether records have these notes, one of which is a warning.
fn have_warning(
    alloc: Global,
    records: &[Taken],
    text: &str,
    values: &[&str],
) -> Result<bool, NoMemory> {
    let mut notes = Notes::new(alloc);
    let taken = take_all(records, &mut notes)?;
    let list = notes.list(alloc)?;
    Ok(taken && has_warning(&list) && are_notes(alloc, &list, text, values)?)
}

#[test]
fn notes_have_their_lines(rt: HostRuntime) -> Result<(), NoMemory> {
    assert!(rt; have_warning(rt.alloc(), UNJUDGED, TEXT, VALUES)?);
    Ok(())
}

// Returns an address and its count.
fn host(ip: u32, count: u64) -> HostCount {
    HostCount {
        ip: Addr(ip),
        count,
    }
}

// Returns whether the addresses of a run are these.
fn are_hosts(
    alloc: Global,
    notes: &Notes,
    outside: &[HostCount],
    inside: &[HostCount],
) -> Result<bool, NoMemory> {
    let hosts = notes.hosts(alloc)?;
    Ok(hosts.outside.as_slice() == outside && hosts.inside.as_slice() == inside)
}

fn is_number(found: &NumberCount, expected: &(u32, u64)) -> bool {
    (found.number, found.count) == *expected
}

fn are_numbers(found: &[NumberCount], expected: &[(u32, u64)]) -> bool {
    for (one, number) in found.iter().zip(expected.iter()) {
        if !is_number(one, number) {
            return false;
        }
    }
    found.len() == expected.len()
}

// Returns whether what is counted of UNJUDGED is right.
fn are_counted(alloc: Global, notes: &Notes) -> Result<bool, NoMemory> {
    let outside = [host(0xc633_6307, 2), host(0xc633_6407, 2)];
    let hosts = are_hosts(alloc, notes, &outside, &[host(0x0a00_0001, 4)])?;
    let types = are_numbers(&notes.types(alloc)?, &[(0x8100, 1), (0x8864, 1)]);
    let protocols = are_numbers(&notes.protocols(alloc)?, &[(47, 1)]);
    Ok(hosts && types && protocols && notes.unfinished() == 1)
}

#[test]
fn what_is_not_judged_is_counted_by_kind(rt: HostRuntime) -> Result<(), NoMemory> {
    let mut notes = Notes::new(rt.alloc());
    assert!(rt; take_all(UNJUDGED, &mut notes)?);
    assert!(rt; are_counted(rt.alloc(), &notes)?);
    Ok(())
}
