//! Each rule on a packet for which it holds, and on packets for which it almost holds.
ghost use Rattle.std.specs.Prelude.{◌≤◌, All};

use arrayvec::ArrayVec;
use ip_rules::{Fixes, IpJudged, IpPacket, judge_ip};
use norm_settings::Settings;
use pcap_file::Record;
use std::alloc::{AllocError, Global};
use std::test::Fail;
use wire_base::{Addr, Link, Prefix, Side};

/// A UDP datagram of 30 octets from 198.51.100.7 port 40000 to 10.0.0.1 port 53 with payload `hi`,
/// and an octet after it.
const DATAGRAM: [u8; 31] = [
    0x45, 0x00, 0x00, 0x1e, 0x00, 0x01, 0x00, 0x00, 0x40, 0x11, 0x46, 0x93, 0xc6, 0x33, 0x64, 0x07,
    0x0a, 0x00, 0x00, 0x01, 0x9c, 0x40, 0x00, 0x35, 0x00, 0x0a, 0xc6, 0xbf, 0x68, 0x69, 0x00,
];

/// The same with four no-operations as options.
const OPTIONS: [u8; 35] = [
    0x46, 0x00, 0x00, 0x22, 0x00, 0x01, 0x00, 0x00, 0x40, 0x11, 0x43, 0x8d, 0xc6, 0x33, 0x64, 0x07,
    0x0a, 0x00, 0x00, 0x01, 0x01, 0x01, 0x01, 0x01, 0x9c, 0x40, 0x00, 0x35, 0x00, 0x0a, 0xc6, 0xbf,
    0x68, 0x69, 0x00,
];

/// An Ethernet frame of 42 octets with an ARP request (RFC 826): 10.0.0.2 asks who has 10.0.0.1.
const ARP: [u8; 42] = [
    0xff, 0xff, 0xff, 0xff, 0xff, 0xff, 0x02, 0x00, 0x00, 0x00, 0x00, 0x02, 0x08, 0x06, 0x00, 0x01,
    0x08, 0x00, 0x06, 0x04, 0x00, 0x01, 0x02, 0x00, 0x00, 0x00, 0x00, 0x02, 0x0a, 0x00, 0x00, 0x02,
    0x00, 0x00, 0x00, 0x00, 0x00, 0x00, 0x0a, 0x00, 0x00, 0x01,
];

/// The Ethernet headers of IPv4, IPv6 and ARP, the first without its last octet, and none.
const IPV4: [u8; 14] = [2, 0, 0, 0, 0, 1, 2, 0, 0, 0, 0, 2, 0x08, 0x00];

const IPV6: [u8; 14] = [2, 0, 0, 0, 0, 1, 2, 0, 0, 0, 0, 2, 0x86, 0xdd];

const ARP_HEADER: [u8; 14] = [2, 0, 0, 0, 0, 1, 2, 0, 0, 0, 0, 2, 0x08, 0x06];

const CUT: [u8; 13] = [2, 0, 0, 0, 0, 1, 2, 0, 0, 0, 0, 2, 0x08];

const RAW: &[u8] = &[];

/// A case: the octets before the packet (none on a raw link); the packet, the octets changed in it,
/// and its number of octets. Also the number of octets of the frame that were not captured, and the
/// result, with the length of the payload. The prefix is 10.0.0.0/8, and `hops` is 30.
struct Row {
    front: &'static [u8],
    packet: &'static [u8],
    changes: &'static [(usize, u8)],
    size: usize,
    missing: u32,
    says: &'static str,
}

#[rattlefmt::skip]
const ROWS: &[Row] = &[
    Row { front: RAW, packet: &DATAGRAM, changes: &[], size: 30, missing: 0, says: "in whole 10" },
    Row { front: RAW, packet: &DATAGRAM, changes: &[], size: 30, missing: 1, says: "- drop L_SNAP" },
    Row { front: RAW, packet: &DATAGRAM, changes: &[], size: 0, missing: 1, says: "- drop L_SNAP" },
    Row { front: &CUT, packet: &DATAGRAM, changes: &[], size: 0, missing: 0, says: "- drop L_SHORT" },
    Row { front: &IPV4, packet: &DATAGRAM, changes: &[], size: 0, missing: 0, says: "- drop I_SHORT" },
    Row { front: &ARP, packet: &DATAGRAM, changes: &[], size: 0, missing: 0, says: "arp" },
    Row { front: &IPV6, packet: &DATAGRAM, changes: &[], size: 30, missing: 0, says: "- drop L_TYPE" },
    Row { front: &ARP_HEADER, packet: &DATAGRAM, changes: &[], size: 0, missing: 0, says: "arp" },
    Row { front: &IPV4, packet: &DATAGRAM, changes: &[], size: 30, missing: 0, says: "in whole 10" },
    Row { front: &IPV4, packet: &DATAGRAM, changes: &[], size: 31, missing: 0, says: "in whole 10 I_TRAIL" },
    Row { front: RAW, packet: &DATAGRAM, changes: &[], size: 19, missing: 0, says: "- drop I_SHORT" },
    Row { front: &IPV4, packet: &DATAGRAM, changes: &[], size: 19, missing: 0, says: "- drop I_SHORT" },
    Row { front: RAW, packet: &DATAGRAM, changes: &[(3, 0x14), (11, 0x9d)], size: 20, missing: 0, says: "in whole 0" },
    Row { front: RAW, packet: &DATAGRAM, changes: &[(0, 0x35), (10, 0x56)], size: 30, missing: 0, says: "- drop I_VERSION" },
    Row { front: RAW, packet: &DATAGRAM, changes: &[(0, 0x55), (10, 0x36)], size: 30, missing: 0, says: "- drop I_VERSION" },
    Row { front: RAW, packet: &DATAGRAM, changes: &[(0, 0x44), (10, 0x47)], size: 30, missing: 0, says: "- drop I_HLEN" },
    Row { front: RAW, packet: &DATAGRAM, changes: &[(0, 0x48), (10, 0x43)], size: 30, missing: 0, says: "- drop I_HLEN" },
    Row { front: RAW, packet: &DATAGRAM, changes: &[(3, 0x13), (11, 0x9e)], size: 30, missing: 0, says: "- drop I_LEN" },
    Row { front: RAW, packet: &DATAGRAM, changes: &[(3, 0x1f), (11, 0x92)], size: 30, missing: 0, says: "- drop I_LEN" },
    Row { front: RAW, packet: &DATAGRAM, changes: &[(3, 0x1f), (11, 0x00)], size: 30, missing: 0, says: "- drop I_LEN" },
    Row { front: RAW, packet: &DATAGRAM, changes: &[(11, 0x94)], size: 30, missing: 0, says: "- drop I_SUM" },
    Row { front: RAW, packet: &DATAGRAM, changes: &[(10, 0x6f), (11, 0xcf), (12, 0x00), (13, 0xff), (14, 0xff), (15, 0xff)], size: 30, missing: 0, says: "- drop I_SRC" },
    Row { front: RAW, packet: &DATAGRAM, changes: &[(10, 0xf1), (11, 0xcd), (12, 0x7f), (13, 0x00), (14, 0x00), (15, 0x00)], size: 30, missing: 0, says: "- drop I_SRC" },
    Row { front: RAW, packet: &DATAGRAM, changes: &[(10, 0xf0), (11, 0xce), (12, 0x7f), (13, 0xff), (14, 0xff), (15, 0xff)], size: 30, missing: 0, says: "- drop I_SRC" },
    Row { front: RAW, packet: &DATAGRAM, changes: &[(10, 0x90), (11, 0xcd), (12, 0xe0), (13, 0x00), (14, 0x00), (15, 0x00)], size: 30, missing: 0, says: "- drop I_SRC" },
    Row { front: RAW, packet: &DATAGRAM, changes: &[(10, 0x70), (11, 0xce), (12, 0xff), (13, 0xff), (14, 0xff), (15, 0xff)], size: 30, missing: 0, says: "- drop I_SRC" },
    Row { front: RAW, packet: &DATAGRAM, changes: &[(10, 0x66), (11, 0xcd), (12, 0x0a), (13, 0x00), (14, 0x00), (15, 0x01)], size: 30, missing: 0, says: "- drop I_SRC" },
    Row { front: RAW, packet: &DATAGRAM, changes: &[(10, 0x6f), (11, 0xce), (12, 0x01), (13, 0x00), (14, 0x00), (15, 0x00)], size: 30, missing: 0, says: "in whole 10" },
    Row { front: RAW, packet: &DATAGRAM, changes: &[(10, 0xf1), (11, 0xce), (12, 0x7e), (13, 0xff), (14, 0xff), (15, 0xff)], size: 30, missing: 0, says: "in whole 10" },
    Row { front: RAW, packet: &DATAGRAM, changes: &[(10, 0xf0), (11, 0xcd), (12, 0x80), (13, 0x00), (14, 0x00), (15, 0x00)], size: 30, missing: 0, says: "in whole 10" },
    Row { front: RAW, packet: &DATAGRAM, changes: &[(10, 0x90), (11, 0xce), (12, 0xdf), (13, 0xff), (14, 0xff), (15, 0xff)], size: 30, missing: 0, says: "in whole 10" },
    Row { front: RAW, packet: &DATAGRAM, changes: &[(10, 0xaa), (11, 0xcd), (12, 0xe0), (13, 0x00), (14, 0x00), (15, 0x00), (16, 0xf0), (19, 0x00)], size: 30, missing: 0, says: "- drop I_SRC" },
    Row { front: RAW, packet: &DATAGRAM, changes: &[(10, 0x50), (16, 0x00)], size: 30, missing: 0, says: "- drop I_DST" },
    Row { front: RAW, packet: &DATAGRAM, changes: &[(10, 0xd1), (11, 0x92), (16, 0x7f)], size: 30, missing: 0, says: "- drop I_DST" },
    Row { front: RAW, packet: &DATAGRAM, changes: &[(10, 0x60), (16, 0xf0), (19, 0x00)], size: 30, missing: 0, says: "- drop I_DST" },
    Row { front: RAW, packet: &DATAGRAM, changes: &[(10, 0x50), (11, 0x94), (16, 0xff), (17, 0xff), (18, 0xff), (19, 0xff)], size: 30, missing: 0, says: "- drop I_DST" },
    Row { front: RAW, packet: &DATAGRAM, changes: &[(10, 0x60), (11, 0x91), (16, 0xef), (17, 0x01), (18, 0x01)], size: 30, missing: 0, says: "- drop I_SIDE" },
    Row { front: RAW, packet: &DATAGRAM, changes: &[(10, 0x80), (11, 0xcb), (12, 0x0a), (13, 0x00), (14, 0x00), (15, 0x01), (16, 0xef), (17, 0x01), (18, 0x01)], size: 30, missing: 0, says: "out whole 10" },
    Row { front: RAW, packet: &DATAGRAM, changes: &[(10, 0x66), (11, 0xcc), (12, 0x0a), (13, 0x00), (14, 0x00), (15, 0x02)], size: 30, missing: 0, says: "- drop I_SIDE" },
    Row { front: RAW, packet: &DATAGRAM, changes: &[(10, 0x65), (11, 0xd0), (12, 0x0a), (13, 0xff), (14, 0xff), (15, 0xff), (19, 0x00)], size: 30, missing: 0, says: "- drop I_SIDE" },
    Row { front: RAW, packet: &DATAGRAM, changes: &[(10, 0x45), (11, 0x94), (16, 0x0b), (19, 0x00)], size: 30, missing: 0, says: "- drop I_SIDE" },
    Row { front: RAW, packet: &DATAGRAM, changes: &[(10, 0x65), (11, 0xce), (12, 0x0b), (13, 0x00), (14, 0x00), (15, 0x00)], size: 30, missing: 0, says: "in whole 10" },
    Row { front: RAW, packet: &DATAGRAM, changes: &[(12, 0x0a), (13, 0x00), (14, 0x00), (15, 0x01), (16, 0xc6), (17, 0x33), (18, 0x64), (19, 0x07)], size: 30, missing: 0, says: "out whole 10" },
    Row { front: RAW, packet: &OPTIONS, changes: &[(10, 0x3e), (11, 0x8e), (20, 0x07), (22, 0x00), (23, 0x00)], size: 34, missing: 0, says: "in drop I_OPT_BAD" },
    Row { front: RAW, packet: &OPTIONS, changes: &[(10, 0x3e), (11, 0x8a), (20, 0x07), (21, 0x05), (22, 0x00), (23, 0x00)], size: 34, missing: 0, says: "in drop I_OPT_BAD" },
    Row { front: RAW, packet: &OPTIONS, changes: &[(11, 0x87), (23, 0x07)], size: 34, missing: 0, says: "in drop I_OPT_BAD" },
    Row { front: RAW, packet: &OPTIONS, changes: &[(10, 0x01), (11, 0x8f), (20, 0x44), (21, 0x00), (22, 0x00), (23, 0x00)], size: 34, missing: 0, says: "in drop I_OPT_BAD" },
    Row { front: RAW, packet: &OPTIONS, changes: &[(10, 0x3e), (11, 0x8e), (12, 0x0a), (13, 0x00), (14, 0x00), (15, 0x01), (16, 0xc6), (17, 0x33), (18, 0x64), (19, 0x07), (20, 0x07), (22, 0x00), (23, 0x00)], size: 34, missing: 0, says: "out drop I_OPT_BAD" },
    Row { front: RAW, packet: &OPTIONS, changes: &[(10, 0xbe), (11, 0x84), (20, 0x83), (21, 0x03), (22, 0x04), (23, 0x07)], size: 34, missing: 0, says: "in drop I_OPT_BAD" },
    Row { front: RAW, packet: &OPTIONS, changes: &[(10, 0x44), (11, 0x88), (20, 0x00), (21, 0x07), (23, 0x00)], size: 34, missing: 0, says: "in whole 10 I_OPT" },
    Row { front: RAW, packet: &OPTIONS, changes: &[(10, 0x3a), (11, 0x8b), (20, 0x07), (21, 0x04), (22, 0x04), (23, 0x00)], size: 34, missing: 0, says: "in whole 10 I_OPT" },
    Row { front: RAW, packet: &OPTIONS, changes: &[(10, 0x42), (11, 0x08), (20, 0x00), (21, 0x83), (22, 0x03), (23, 0x04)], size: 34, missing: 0, says: "in whole 10 I_OPT" },
    Row { front: RAW, packet: &OPTIONS, changes: &[(10, 0xbb), (11, 0x87), (20, 0x07), (21, 0x04), (22, 0x83), (23, 0x03)], size: 34, missing: 0, says: "in whole 10 I_OPT" },
    Row { front: RAW, packet: &OPTIONS, changes: &[], size: 34, missing: 0, says: "in whole 10 I_OPT" },
    Row { front: RAW, packet: &OPTIONS, changes: &[(10, 0xbe), (11, 0x8b), (20, 0x83), (21, 0x03), (22, 0x04), (23, 0x00)], size: 34, missing: 0, says: "in drop I_ROUTE" },
    Row { front: RAW, packet: &OPTIONS, changes: &[(10, 0xb8), (11, 0x8b), (20, 0x89), (21, 0x03), (22, 0x04), (23, 0x00)], size: 34, missing: 0, says: "in drop I_ROUTE" },
    Row { front: RAW, packet: &OPTIONS, changes: &[(10, 0x41), (11, 0x08), (21, 0x83), (22, 0x03), (23, 0x04)], size: 34, missing: 0, says: "in drop I_ROUTE" },
    Row { front: RAW, packet: &OPTIONS, changes: &[(9, 0x02), (10, 0xbe), (11, 0x9a), (20, 0x83), (21, 0x03), (22, 0x04), (23, 0x00)], size: 34, missing: 0, says: "in drop I_ROUTE" },
    Row { front: RAW, packet: &DATAGRAM, changes: &[(9, 0x02), (11, 0xa2)], size: 30, missing: 0, says: "in drop P_PROTO" },
    Row { front: RAW, packet: &DATAGRAM, changes: &[(9, 0x00), (11, 0xa4), (12, 0x0a), (13, 0x00), (14, 0x00), (15, 0x01), (16, 0xc6), (17, 0x33), (18, 0x64), (19, 0x07)], size: 30, missing: 0, says: "out drop P_PROTO" },
    Row { front: RAW, packet: &DATAGRAM, changes: &[(9, 0x01), (11, 0xa3)], size: 30, missing: 0, says: "in whole 10" },
    Row { front: RAW, packet: &DATAGRAM, changes: &[(9, 0x06), (11, 0x9e)], size: 30, missing: 0, says: "in whole 10" },
    Row { front: RAW, packet: &DATAGRAM, changes: &[], size: 31, missing: 0, says: "in whole 10 I_TRAIL" },
    Row { front: RAW, packet: &DATAGRAM, changes: &[(6, 0x80), (10, 0xc6), (11, 0x92)], size: 30, missing: 0, says: "in whole 10 I_RES" },
    Row { front: RAW, packet: &DATAGRAM, changes: &[(6, 0x40), (10, 0x06)], size: 30, missing: 0, says: "in whole 10" },
    Row { front: RAW, packet: &DATAGRAM, changes: &[(8, 0x1e), (10, 0x68)], size: 30, missing: 0, says: "in whole 10 I_TTL" },
    Row { front: RAW, packet: &DATAGRAM, changes: &[(8, 0x1f), (10, 0x67)], size: 30, missing: 0, says: "in whole 10" },
    Row { front: RAW, packet: &DATAGRAM, changes: &[(8, 0x00), (10, 0x86)], size: 30, missing: 0, says: "in whole 10 I_TTL" },
    Row { front: RAW, packet: &DATAGRAM, changes: &[(8, 0x01), (10, 0x85), (12, 0x0a), (13, 0x00), (14, 0x00), (15, 0x01), (16, 0xc6), (17, 0x33), (18, 0x64), (19, 0x07)], size: 30, missing: 0, says: "out whole 10" },
    Row { front: RAW, packet: &OPTIONS, changes: &[(6, 0x80), (8, 0x1e), (10, 0xe5), (11, 0x8c)], size: 35, missing: 0, says: "in whole 10 I_TRAIL I_OPT I_RES I_TTL" },
    Row { front: RAW, packet: &DATAGRAM, changes: &[(6, 0x20), (10, 0x26)], size: 30, missing: 0, says: "in piece 10" },
    Row { front: RAW, packet: &DATAGRAM, changes: &[(7, 0x01), (11, 0x92)], size: 30, missing: 0, says: "in piece 10" },
    Row { front: RAW, packet: &DATAGRAM, changes: &[(6, 0x20), (8, 0x1e), (10, 0x48)], size: 30, missing: 0, says: "in piece 10" },
    Row { front: RAW, packet: &OPTIONS, changes: &[(6, 0xa0), (8, 0x1e), (10, 0xc5), (11, 0x8c)], size: 35, missing: 0, says: "in piece 10 I_TRAIL I_OPT I_RES" },
];

fn settings() -> Settings
    ensures { All (λ prefix. prefix.len ≤ 32) result.prefixes.items }
{
    let mut prefixes = ArrayVec::new();
    prefixes.push(Prefix {
        addr: Addr(0x0a00_0000),
        len: 8,
    });
    Settings::standard(prefixes)
}

fn side_word(side: Option<Side>) -> &'static str {
    match side {
        None => "-",
        Some(Side::Inward) => "in",
        Some(Side::Outward) => "out",
    }
}

fn packet_text(alloc: Global, word: &str, packet: &IpPacket<'_>) -> Result<String, AllocError> {
    let side = side_word(Some(packet.side));
    let size = packet.payload.len();
    let mut text = format!(in alloc; "{side} {word} {size}")?;
    for rule in packet.fixes.iter() {
        text.push_str(" ")?;
        text.push_str(rule.name())?;
    }
    Ok(text)
}

fn answer_text(alloc: Global, judged: &IpJudged<'_>) -> Result<String, AllocError> {
    match judged {
        IpJudged::Arp => String::from_str(alloc, "arp"),
        IpJudged::Drop(side, rule) => {
            format!(in alloc; "{} drop {}", side_word(*side), rule.name())
        }
        IpJudged::Piece(packet) => packet_text(alloc, "piece", packet),
        IpJudged::Whole(packet) => packet_text(alloc, "whole", packet),
    }
}

/// Returns the captured octets of the frame of a case.
fn frame_of(alloc: Global, row: &Row) -> Result<Vec<u8>, AllocError> {
    let mut frame = Vec::from_slice(alloc, row.front)?;
    let mut packet = Vec::from_slice(alloc, row.packet)?;
    for (at, octet) in row.changes {
        if let Some(place) = packet.get_mut(*at) {
            *place = *octet;
        }
    }
    packet.truncate(row.size);
    frame.extend_from_slice(&packet)?;
    Ok(frame)
}

/// Returns the result for the frame of a case, in a record with this side.
fn answer_on(
    alloc: Global,
    settings: &Settings,
    given: Option<Side>,
    row: &Row,
) -> Result<String, AllocError>
    requires { All (λ prefix. prefix.len ≤ 32) settings.now.prefixes.items }
{
    let frame = frame_of(alloc, row)?;
    let link = if row.front.is_empty() {
        Link::Raw
    } else {
        Link::Ethernet
    };
    let original = u32::try_from(frame.len())
        .unwrap_or(0)
        .saturating_add(row.missing);
    let record = Record {
        side: given,
        ..Record::new(0, 0, original, 24, &frame)
    };
    let judged = judge_ip(settings, link, &record);
    answer_text(alloc, &judged)
}

#[test]
fn each_row_holds_of_its_packet_and_not_of_its_neighbour(rt: HostRuntime) -> Result<(), Fail> {
    let settings = settings();
    for (number, row) in ROWS.iter().enumerate() {
        let text = answer_on(rt.alloc(), &settings, None, row)?;
        assert_eq!(rt; text.as_str(), row.says, "row {number}");
    }
    Ok(())
}

/// Records with their own side: the addresses give the other side, or none because both are trusted
/// or neither is; an invalid source.
#[rattlefmt::skip]
const GIVEN: &[(Side, Row)] = &[
    (Side::Outward, Row { front: RAW, packet: &DATAGRAM, changes: &[(8, 0x1e), (10, 0x68)], size: 30, missing: 0, says: "out whole 10" }),
    (Side::Inward, Row { front: RAW, packet: &DATAGRAM, changes: &[(8, 0x01), (10, 0x85), (12, 0x0a), (13, 0x00), (14, 0x00), (15, 0x01), (16, 0xc6), (17, 0x33), (18, 0x64), (19, 0x07)], size: 30, missing: 0, says: "in whole 10 I_TTL" }),
    (Side::Inward, Row { front: RAW, packet: &DATAGRAM, changes: &[(10, 0x66), (11, 0xcc), (12, 0x0a), (13, 0x00), (14, 0x00), (15, 0x02)], size: 30, missing: 0, says: "in whole 10" }),
    (Side::Outward, Row { front: RAW, packet: &DATAGRAM, changes: &[(10, 0x45), (11, 0x94), (16, 0x0b), (19, 0x00)], size: 30, missing: 0, says: "out whole 10" }),
    (Side::Outward, Row { front: RAW, packet: &DATAGRAM, changes: &[(6, 0x20), (10, 0x26)], size: 30, missing: 0, says: "out piece 10" }),
    (Side::Outward, Row { front: RAW, packet: &DATAGRAM, changes: &[(9, 0x02), (11, 0xa2)], size: 30, missing: 0, says: "out drop P_PROTO" }),
    (Side::Inward, Row { front: RAW, packet: &DATAGRAM, changes: &[(10, 0x66), (11, 0xcd), (12, 0x0a), (13, 0x00), (14, 0x00), (15, 0x01)], size: 30, missing: 0, says: "- drop I_SRC" }),
];

#[test]
fn a_side_of_its_own_wins_over_the_addresses(rt: HostRuntime) -> Result<(), Fail> {
    let settings = settings();
    for (number, (given, row)) in GIVEN.iter().enumerate() {
        let text = answer_on(rt.alloc(), &settings, Some(*given), row)?;
        assert_eq!(rt; text.as_str(), row.says, "row {number}");
    }
    Ok(())
}

#[test]
fn arp_passes_up_to_its_longest_frame(rt: HostRuntime) -> Result<(), Fail> {
    let settings = settings();
    let mut frame = Vec::from_slice(rt.alloc(), &ARP_HEADER)?;
    frame.resize(65_550, 0)?;
    for (size, says) in [(65_549, "arp"), (65_550, "- drop L_TYPE")] {
        let record = Record::new(0, 0, size, 24, &frame[..size as usize]);
        let judged = judge_ip(&settings, Link::Ethernet, &record);
        let text = answer_text(rt.alloc(), &judged)?;
        assert_eq!(rt; text.as_str(), says);
    }
    Ok(())
}
