//! Each rule on a datagram for which it holds, and on datagrams for which it almost holds.
ghost use Rattle.std.specs.Prelude.{◌≤◌, All};

use arrayvec::ArrayVec;
use dgram_rules::{DgramJudged, judge_icmp, judge_udp};
use ip_rules::{Fixes, IpPacket};
use ipv4_codec::Ipv4;
use norm_settings::Settings;
use std::alloc::{AllocError, Global};
use std::test::Fail;
use wire_base::{Addr, Prefix, Side, protocol};

/// A UDP message (RFC 768) from port 40000 to port 53 with payload `hi`, an octet after it, and a
/// right checksum without that octet.
const UDP: [u8; 11] = [
    0x9c, 0x40, 0x00, 0x35, 0x00, 0x0a, 0xc6, 0xbf, 0x68, 0x69, 0x00,
];

/// An echo message (RFC 792) of nine octets; its checksum is right with the last octet as the high
/// octet of its word.
const ECHO: [u8; 9] = [0x08, 0x00, 0x4c, 0xfd, 0x00, 0x01, 0x00, 0x01, 0xab];

/// A message of zeros.
const ZERO: [u8; 8] = [0, 0, 0, 0, 0, 0, 0, 0];

/// A host unreachable message (RFC 792): it quotes eight octets of a TCP segment from 10.0.0.1 port
/// 80 to 198.51.100.7 port 40000.
const QUOTE: [u8; 36] = [
    0x03, 0x01, 0x5c, 0x87, 0x00, 0x00, 0x00, 0x00, 0x45, 0x00, 0x00, 0x28, 0x00, 0x01, 0x00, 0x00,
    0x40, 0x06, 0x46, 0x94, 0x0a, 0x00, 0x00, 0x01, 0xc6, 0x33, 0x64, 0x07, 0x00, 0x50, 0x9c, 0x40,
    0x00, 0x00, 0x03, 0xe7,
];

/// A case: the direction of a message between 198.51.100.7 and 10.0.0.1, which is trusted, and the
/// settings; the message, the octets changed in it, and its number of octets; and the result.
struct Row {
    way: Way,
    octets: &'static [u8],
    changes: &'static [(usize, u8)],
    size: usize,
    says: &'static str,
}

#[derive(Clone, Copy, PartialEq, Eq)]
enum Way {
    In,
    Out,
    /// Outward, with checksums left to the network card.
    Offload,
    /// Inward, with checksums left to the network card.
    InOffload,
    /// Inward, with a live era for the quoted connection.
    Live,
}

use Way::{In, InOffload, Live, Offload, Out};

#[rattlefmt::skip]
const UDP_ROWS: &[Row] = &[
    Row { way: In, octets: &UDP, changes: &[], size: 10, says: "pass" },
    Row { way: Out, octets: &UDP, changes: &[], size: 10, says: "pass" },
    Row { way: Offload, octets: &UDP, changes: &[], size: 10, says: "pass" },
    Row { way: In, octets: &UDP, changes: &[(6, 0x00), (7, 0x00)], size: 10, says: "pass" },
    Row { way: Offload, octets: &UDP, changes: &[(6, 0x00), (7, 0x00)], size: 10, says: "pass" },
    Row { way: In, octets: &UDP, changes: &[(6, 0xff), (7, 0xff), (8, 0x2f), (9, 0x29)], size: 10, says: "pass" },
    Row { way: In, octets: &UDP, changes: &[(5, 0x09), (6, 0xc7), (7, 0x2a)], size: 9, says: "pass" },
    Row { way: In, octets: &UDP, changes: &[(5, 0x08), (6, 0x2f), (7, 0x2d)], size: 8, says: "pass" },
    Row { way: In, octets: &UDP, changes: &[], size: 7, says: "U_SHORT" },
    Row { way: Offload, octets: &UDP, changes: &[(5, 0x07)], size: 7, says: "U_SHORT" },
    Row { way: In, octets: &UDP, changes: &[], size: 0, says: "U_SHORT" },
    Row { way: In, octets: &UDP, changes: &[], size: 11, says: "U_LEN" },
    Row { way: In, octets: &UDP, changes: &[(5, 0x0b), (7, 0xbe)], size: 10, says: "U_LEN" },
    Row { way: In, octets: &UDP, changes: &[(5, 0x09), (7, 0xc1)], size: 10, says: "U_LEN" },
    Row { way: Offload, octets: &UDP, changes: &[(5, 0x09), (7, 0xc1)], size: 10, says: "U_LEN" },
    Row { way: In, octets: &UDP, changes: &[(5, 0x09), (6, 0x00), (7, 0x00)], size: 10, says: "U_LEN" },
    Row { way: In, octets: &UDP, changes: &[(7, 0xc0)], size: 10, says: "U_SUM" },
    Row { way: Out, octets: &UDP, changes: &[(7, 0xc0)], size: 10, says: "U_SUM" },
    Row { way: InOffload, octets: &UDP, changes: &[(7, 0xc0)], size: 10, says: "U_SUM" },
    Row { way: In, octets: &UDP, changes: &[(5, 0x09), (6, 0x2e), (7, 0xc3)], size: 9, says: "U_SUM" },
    Row { way: Offload, octets: &UDP, changes: &[(7, 0xc0)], size: 10, says: "mend" },
];

#[rattlefmt::skip]
const ICMP_ROWS: &[Row] = &[
    Row { way: In, octets: &ZERO, changes: &[(2, 0xff), (3, 0xff)], size: 8, says: "pass" },
    Row { way: In, octets: &ECHO, changes: &[], size: 9, says: "pass" },
    Row { way: Out, octets: &ECHO, changes: &[(2, 0xf7)], size: 8, says: "pass" },
    Row { way: In, octets: &ECHO, changes: &[(2, 0xf7), (3, 0xfe)], size: 7, says: "M_SHORT" },
    Row { way: In, octets: &ECHO, changes: &[], size: 0, says: "M_SHORT" },
    Row { way: In, octets: &ZERO, changes: &[], size: 8, says: "M_SUM" },
    Row { way: In, octets: &ECHO, changes: &[(2, 0xf7), (3, 0x52)], size: 9, says: "M_SUM" },
    Row { way: Offload, octets: &ECHO, changes: &[(3, 0xfe)], size: 9, says: "M_SUM" },
    Row { way: In, octets: &ZERO, changes: &[(0, 0x05)], size: 8, says: "M_SUM" },
    Row { way: In, octets: &ZERO, changes: &[(0, 0x05), (2, 0xfa), (3, 0xff)], size: 8, says: "M_TYPE" },
    Row { way: Out, octets: &ZERO, changes: &[(0, 0x05), (2, 0xfa), (3, 0xff)], size: 8, says: "M_TYPE" },
    Row { way: In, octets: &ZERO, changes: &[(0, 0x04), (2, 0xfb), (3, 0xff)], size: 8, says: "M_TYPE" },
    Row { way: In, octets: &ZERO, changes: &[(0, 0x0a), (2, 0xf5), (3, 0xff)], size: 8, says: "M_TYPE" },
    Row { way: In, octets: &ZERO, changes: &[(0, 0x0f), (2, 0xf0), (3, 0xff)], size: 8, says: "M_TYPE" },
    Row { way: In, octets: &ZERO, changes: &[(0, 0x0d), (2, 0xf2), (3, 0xff)], size: 8, says: "pass" },
    Row { way: In, octets: &ZERO, changes: &[(0, 0x0e), (2, 0xf1), (3, 0xff)], size: 8, says: "pass" },
    Row { way: In, octets: &QUOTE, changes: &[], size: 36, says: "M_QUOTE" },
    Row { way: Live, octets: &QUOTE, changes: &[], size: 36, says: "pass" },
    Row { way: Out, octets: &QUOTE, changes: &[], size: 36, says: "pass" },
    Row { way: Live, octets: &QUOTE, changes: &[(2, 0x5d), (3, 0x6e)], size: 35, says: "M_QUOTE" },
    Row { way: Out, octets: &QUOTE, changes: &[(2, 0x5d), (3, 0x6e)], size: 35, says: "pass" },
    Row { way: Live, octets: &QUOTE, changes: &[(2, 0x3c), (8, 0x65)], size: 36, says: "M_QUOTE" },
    Row { way: Live, octets: &QUOTE, changes: &[(2, 0x5b), (20, 0x0b)], size: 36, says: "M_QUOTE" },
    Row { way: Live, octets: &QUOTE, changes: &[(2, 0x7c), (3, 0xc0), (24, 0x0a), (25, 0x00), (26, 0x00), (27, 0x02)], size: 36, says: "M_QUOTE" },
    Row { way: Live, octets: &QUOTE, changes: &[(20, 0xc6), (21, 0x33), (22, 0x64), (23, 0x07), (24, 0x0a), (25, 0x00), (26, 0x00), (27, 0x01)], size: 36, says: "M_QUOTE" },
    Row { way: In, octets: &QUOTE, changes: &[(3, 0x7c), (17, 0x11)], size: 36, says: "pass" },
    Row { way: In, octets: &QUOTE, changes: &[(0, 0x0b), (2, 0x54)], size: 36, says: "M_QUOTE" },
    Row { way: Live, octets: &QUOTE, changes: &[(0, 0x0b), (2, 0x54)], size: 36, says: "pass" },
    Row { way: In, octets: &QUOTE, changes: &[(0, 0x0c), (2, 0x53)], size: 36, says: "M_QUOTE" },
    Row { way: Live, octets: &QUOTE, changes: &[(0, 0x0c), (2, 0x53)], size: 36, says: "pass" },
    Row { way: In, octets: &QUOTE, changes: &[(0, 0x0d), (2, 0x52)], size: 36, says: "pass" },
];

fn settings(offload: bool) -> Settings
    ensures { All (λ prefix. prefix.len ≤ 32) result.prefixes.items }
{
    let mut prefixes = ArrayVec::new();
    prefixes.push(Prefix {
        addr: Addr(0x0a00_0000),
        len: 8,
    });
    let mut settings = Settings::standard(prefixes);
    settings.offload = offload;
    settings
}

fn side_of(way: Way) -> Side {
    match way {
        Way::In | Way::InOffload | Way::Live => Side::Inward,
        Way::Out | Way::Offload => Side::Outward,
    }
}

/// Returns the packet of this protocol that carries these octets.
fn packet_of(way: Way, protocol: u8, octets: &[u8]) -> IpPacket<'_> {
    let side = side_of(way);
    let outside = Addr(0xc633_6407);
    let inside = Addr(0x0a00_0001);
    let (src, dst) = match side {
        Side::Inward => (outside, inside),
        Side::Outward => (inside, outside),
    };
    let head = Ipv4 {
        header: 20,
        tos: 0,
        total: 20 + octets.len().min(65_515) as u16,
        ident: 1,
        reserved: false,
        df: false,
        more: false,
        offset: 0,
        ttl: 64,
        protocol,
        sum: 0,
        src,
        dst,
    };
    IpPacket {
        side,
        head,
        frame: octets,
        payload: octets,
        fixes: Fixes::new(),
    }
}

/// Returns the octets of the message of a case.
fn octets_of(alloc: Global, row: &Row) -> Result<Vec<u8>, AllocError> {
    let mut octets = Vec::from_slice(alloc, row.octets)?;
    for (at, octet) in row.changes {
        if let Some(place) = octets.get_mut(*at) {
            *place = *octet;
        }
    }
    octets.truncate(row.size);
    Ok(octets)
}

fn word_of(judged: DgramJudged) -> &'static str {
    match judged {
        DgramJudged::Pass => "pass",
        DgramJudged::Mend => "mend",
        DgramJudged::Drop(rule) => rule.name(),
    }
}

#[test]
fn each_udp_row_holds_of_its_message_and_not_of_its_neighbour(rt: HostRuntime) -> Result<(), Fail> {
    for (number, row) in UDP_ROWS.iter().enumerate() {
        let settings = settings(matches!(row.way, Way::Offload | Way::InOffload));
        let octets = octets_of(rt.alloc(), row)?;
        let judged = judge_udp(&settings, &packet_of(row.way, protocol::UDP, &octets));
        assert_eq!(rt; word_of(judged), row.says, "row {number}");
    }
    Ok(())
}

#[test]
fn each_icmp_row_holds_of_its_message_and_not_of_its_neighbour(
    rt: HostRuntime,
) -> Result<(), Fail> {
    for (number, row) in ICMP_ROWS.iter().enumerate() {
        let settings = settings(row.way == Way::Offload);
        let octets = octets_of(rt.alloc(), row)?;
        let judged = judge_icmp(
            &settings,
            &packet_of(row.way, protocol::ICMP, &octets),
            row.way == Way::Live,
        );
        assert_eq!(rt; word_of(judged), row.says, "row {number}");
    }
    Ok(())
}
