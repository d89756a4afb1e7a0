//! Each call of frame_view once: its contracts say the rest.
use crate::lines::{ACK, UDP};
use edge_io::NoMemory;
use frame_view::{
    Change, Flow, Made, Ports, Said, add_changes, add_made, ethertype_of, flow_of, length_of,
};
use hex::FromHexError;
use std::alloc::Global;
use wire_base::Link;

// The octets `hi` in UDP, from port 40000 to 53.
const HI: &str = "4500001e0001000040114693c63364070a0000019c400035000ac6bf6869";

const HI_FLOW: Flow = Flow {
    ports: Some(Ports {
        src: 40000,
        dst: 53,
    }),
    length: 2,
    ..UDP
};

// An ARP frame with two octets after its link header.
const ARP: &str = "02000000000202000000000108060001";

// The same with the TTL 30, and with 31.
const LOW: &str = "4500001e000100001e116893c63364070a0000019c400035000ac6bf6869";

const RAISED: &str = "4500001e000100001f116793c63364070a0000019c400035000ac6bf6869";

// An acknowledgment alone, with the sequence number 999.
const PROBE: &str =
    "450000280001000040064694c63364070a0000019c400050000003e70000138950102000a7980000";

fn fails(_: FromHexError) -> NoMemory {
    NoMemory
}

/// Returns the octets of these digits in hexadecimal.
pub(crate) fn octets(alloc: Global, digits: &str) -> Result<Vec<u8>, NoMemory> {
    hex::decode(alloc, digits).map_err(fails)
}

// The link of a frame, its octets in hexadecimal, and its expected header fields, payload length in
// octets, and EtherType.
type Headers = (Link, &'static str, Option<Flow>, u64, Option<u16>);

fn has_headers(alloc: Global, row: &Headers) -> Result<bool, NoMemory> {
    let (link, digits, flow, length, kind) = *row;
    let frame = octets(alloc, digits)?;
    Ok(
        flow_of(link, &frame) == flow
            && length_of(link, &frame) == length
            && ethertype_of(link, &frame) == kind,
    )
}

#[test]
fn headers_are_read(rt: HostRuntime) -> Result<(), NoMemory> {
    let udp = (Link::Raw, HI, Some(HI_FLOW), 2, None);
    let arp = (Link::Ethernet, ARP, None, 2, Some(0x0806));
    assert!(rt; has_headers(rt.alloc(), &udp)?);
    assert!(rt; has_headers(rt.alloc(), &arp)?);
    Ok(())
}

// Returns whether a change is one of this field of frame 1, from one number to another.
fn is_in_field(change: Option<&Change>, name: &str, before: u32, after: u32) -> bool {
    match change {
        Some(
            Change::InField {
                frame,
                field,
                from: Said::Number(from),
                to: Said::Number(to),
            },
        ) => *frame == 1 && field.name() == name && *from == before && *to == after,
        _ => false,
    }
}

// Adds what differs between LOW and RAISED. Returns whether the changes are the expected ones.
fn are_compared(alloc: Global, changes: &mut Vec<Change>) -> Result<bool, NoMemory> {
    let record = octets(alloc, LOW)?;
    let frame = octets(alloc, RAISED)?;
    add_changes(alloc, Link::Raw, &record, &frame, 1, changes)?;
    let ttl = is_in_field(changes.first(), "ttl", 30, 31);
    Ok(ttl && is_in_field(changes.get(1), "header_checksum", 0x6893, 0x6793))
}

// Adds a probe as frame 2. Returns whether the last change is it.
fn is_made(alloc: Global, changes: &mut Vec<Change>) -> Result<bool, NoMemory> {
    let frame = octets(alloc, PROBE)?;
    add_made(Link::Raw, &frame, 2, Made::Probe, changes)?;
    Ok(match changes.last() {
        Some(
            Change::Made {
                frame,
                kind,
                flow,
                length,
            },
        ) => (*frame, *kind, *flow, *length) == (2, Made::Probe, Some(ACK), 0),
        _ => false,
    })
}

fn are_added(alloc: Global, changes: &mut Vec<Change>) -> Result<bool, NoMemory> {
    let compared = are_compared(alloc, changes)?;
    let made = is_made(alloc, changes)?;
    Ok(compared && made && changes.len() == 3)
}

#[test]
fn changes_and_made_frames_are_added(rt: HostRuntime) -> Result<(), NoMemory> {
    let mut changes = Vec::new(rt.alloc());
    assert!(rt; are_added(rt.alloc(), &mut changes)?);
    Ok(())
}
