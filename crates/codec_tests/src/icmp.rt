//! Messages with each fault, and what an error message quotes.
use icmp_codec::{Icmp, IcmpFault, QuotedKey, parse, quoted};
use wire_base::{Addr, protocol};

// Words of 0; echo (RFC 792) with an even and an odd number of octets; an odd last octet summed
// as the low octet; a redirect; too few octets.
#[test]
fn a_message_has_eight_octets_and_a_right_sum(rt: HostRuntime) {
    let rows: [(&[u8], Result<Icmp, IcmpFault>); 10] = [
        (&[0, 0, 0, 0, 0, 0, 0, 0], Err(IcmpFault::Sum)),
        (
            &[0, 0, 0xff, 0xff, 0, 0, 0, 0],
            Ok(Icmp { kind: 0, code: 0 }),
        ),
        (
            &[8, 0, 0xf7, 0xfd, 0, 1, 0, 1],
            Ok(Icmp { kind: 8, code: 0 }),
        ),
        (&[8, 0, 0xfd, 0xf7, 0, 1, 0, 1], Err(IcmpFault::Sum)),
        (
            &[8, 0, 0x4c, 0xfd, 0, 1, 0, 1, 0xab],
            Ok(Icmp { kind: 8, code: 0 }),
        ),
        (&[8, 0, 0xf7, 0x52, 0, 1, 0, 1, 0xab], Err(IcmpFault::Sum)),
        (
            &[5, 1, 0xfa, 0xfe, 0, 0, 0, 0],
            Ok(Icmp { kind: 5, code: 1 }),
        ),
        (&[5, 1, 0xfa, 0xff, 0, 0, 0, 0], Err(IcmpFault::Sum)),
        (&[8, 0, 0xf7, 0xfe, 0, 1, 0], Err(IcmpFault::Short)),
        (&[], Err(IcmpFault::Short)),
    ];
    for (bytes, expected) in rows {
        assert_eq!(rt; parse(bytes), expected, "{bytes:?}");
    }
}

/// Returns a host unreachable message (RFC 792). It quotes 12 octets of a TCP segment from
/// 10.0.0.1 port 80 to 198.51.100.7 port 40000, after a header that begins with `first`.
fn unreachable_host(first: u8) -> [u8; 40] {
    [
        0x03, 0x01, 0x48, 0xfe, 0x00, 0x00, 0x00, 0x00, first, 0x00, 0x00, 0x28, 0x00, 0x01, 0x00,
        0x00, 0x40, 0x06, 0x46, 0x94, 0x0a, 0x00, 0x00, 0x01, 0xc6, 0x33, 0x64, 0x07, 0x00, 0x50,
        0x9c, 0x40, 0x00, 0x00, 0x03, 0xe7, 0x00, 0x00, 0x13, 0x89,
    ]
}

/// Returns the key of a TCP segment from 10.0.0.1 to 198.51.100.7 with these ports.
fn segment(sport: u16, dport: u16) -> Option<QuotedKey> {
    Some(QuotedKey {
        src: Addr(0x0a00_0001),
        dst: Addr(0xc633_6407),
        protocol: protocol::TCP,
        sport,
        dport,
    })
}

// Five words and eight octets after them are enough; with six words the ports are four octets
// later.
#[test]
fn a_quote_has_a_header_and_eight_octets(rt: HostRuntime) {
    let rows = [
        (0x45, 40, segment(80, 40000)),
        (0x45, 36, segment(80, 40000)),
        (0x45, 35, None),
        (0x46, 40, segment(0, 999)),
        (0x46, 39, None),
        (0x44, 40, None),
        (0x65, 40, None),
        (0x45, 9, None),
        (0x45, 8, None),
        (0x45, 7, None),
        (0x45, 0, None),
    ];
    for (first, len, expected) in rows {
        let message = unreachable_host(first);
        let bytes = &message[..len.min(message.len())];
        assert_eq!(rt; quoted(bytes), expected, "{first} and {len} octets");
    }
}
