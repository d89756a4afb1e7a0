//! Headers with fields that all differ, each fault, option areas, and headers written.
use ipv4_codec::{BadOption, IpFault, Ipv4, OptionFacts, options, parse, parse_into, write_plain};
use wire_base::{Addr, protocol, u32_at};

/// A UDP datagram of 30 octets from 198.51.100.7 to 10.0.0.1.
const DATAGRAM: [u8; 30] = [
    0x45, 0x00, 0x00, 0x1e, 0x00, 0x01, 0x00, 0x00, 0x40, 0x11, 0x46, 0x93, 0xc6, 0x33, 0x64, 0x07,
    0x0a, 0x00, 0x00, 0x01, 0x9c, 0x40, 0x00, 0x35, 0x00, 0x0a, 0xc6, 0xbf, 0x68, 0x69,
];

/// A header of six words whose fields all differ, with the reserved flag and more fragments,
/// and 16 octets after it.
const PIECE: [u8; 40] = [
    0x46, 0x2e, 0x00, 0x24, 0xab, 0xcd, 0xa1, 0x02, 0x01, 0x06, 0x35, 0x9a, 0xc6, 0x33, 0x64, 0x07,
    0x0a, 0x00, 0x00, 0x01, 0x01, 0x01, 0x01, 0x00, 0x00, 0x00, 0x00, 0x00, 0x00, 0x00, 0x00, 0x00,
    0x00, 0x00, 0x00, 0x00, 0x00, 0x00, 0x00, 0x00,
];

/// Returns the datagram with `octet` at the offset `at`.
fn changed(at: usize, octet: u8) -> [u8; 30] {
    let mut packet = DATAGRAM;
    if at < packet.len() {
        packet[at] = octet;
    }
    packet
}

#[test]
fn fields_stand_where_the_standard_puts_them(rt: HostRuntime) {
    let datagram = Ipv4 {
        header: 20,
        tos: 0,
        total: 30,
        ident: 1,
        reserved: false,
        df: false,
        more: false,
        offset: 0,
        ttl: 64,
        protocol: protocol::UDP,
        sum: 0x4693,
        src: Addr(0xc633_6407),
        dst: Addr(0x0a00_0001),
    };
    let piece = Ipv4 {
        header: 24,
        tos: 0x2e,
        total: 36,
        ident: 0xabcd,
        reserved: true,
        df: false,
        more: true,
        offset: 2064,
        ttl: 1,
        protocol: protocol::TCP,
        sum: 0x359a,
        src: Addr(0xc633_6407),
        dst: Addr(0x0a00_0001),
    };
    assert_eq!(rt; parse(&DATAGRAM), Ok(datagram));
    assert_eq!(rt; parse(&PIECE), Ok(piece));
    let mut head = piece;
    assert_eq!(rt; parse_into(&DATAGRAM, &mut head), Ok(()));
    assert_eq!(rt; head, datagram);
    assert_eq!(rt; parse_into(&DATAGRAM[..19], &mut head), Err(IpFault::Short));
    assert_eq!(rt; head, datagram);
}

#[test]
fn the_first_fault_is_told(rt: HostRuntime) {
    let faults = [
        (0, 0x44, IpFault::HeaderLength),
        (0, 0x47, IpFault::Sum),
        (0, 0x48, IpFault::HeaderLength),
        (0, 0x35, IpFault::Version),
        (0, 0x55, IpFault::Version),
        (0, 0x54, IpFault::Version),
        (3, 0x13, IpFault::Length),
        (3, 0x14, IpFault::Sum),
        (3, 0x1f, IpFault::Length),
        (2, 0x01, IpFault::Length),
        (8, 0x3f, IpFault::Sum),
        (19, 0x02, IpFault::Sum),
    ];
    for (at, octet, fault) in faults {
        assert_eq!(rt; parse(&changed(at, octet)), Err(fault), "{octet} at {at}");
    }
    assert_eq!(rt; parse(&[]), Err(IpFault::Short));
    assert_eq!(rt; parse(&DATAGRAM[..19]), Err(IpFault::Short));
    assert_eq!(rt; parse(&DATAGRAM[..20]), Err(IpFault::Length));
}

// RFC 791 section 3.1: 130 is security, 68 a time stamp.
#[test]
fn options_are_told(rt: HostRuntime) {
    let plain = Ok(OptionFacts {
        some: true,
        route: false,
    });
    let routed = Ok(OptionFacts {
        some: true,
        route: true,
    });
    let none = Ok(OptionFacts {
        some: false,
        route: false,
    });
    let rows: [(&[u8], Result<OptionFacts, BadOption>); 18] = [
        (&[], none),
        (&[1, 1, 1, 0], plain),
        (&[131, 3, 4], routed),
        (&[137, 3, 4, 0], routed),
        (&[1, 7, 3, 4, 0, 131, 3, 4], plain),
        (&[68, 4, 5, 0, 131, 3, 4, 0], routed),
        (&[68, 4, 131, 137], plain),
        (&[130, 3, 4, 136, 4, 0, 1], plain),
        (&[0, 131, 3, 4], plain),
        (&[0, 131], plain),
        (&[0, 7, 1, 0], plain),
        (&[7, 2], plain),
        (&[7, 1, 1, 0], Err(BadOption)),
        (&[7, 0, 1, 0], Err(BadOption)),
        (&[131, 4, 4], Err(BadOption)),
        (&[1, 1, 131], Err(BadOption)),
        (&[131, 3, 4, 7, 3], Err(BadOption)),
        (&[7, 255, 0, 0], Err(BadOption)),
    ];
    for (area, facts) in rows {
        assert_eq!(rt; options(area), facts, "{area:?}");
    }
}

// The fields that `write_plain` does not copy differ here from those of the written headers.
const HEAD: Ipv4 = Ipv4 {
    header: 60,
    tos: 0,
    total: 60000,
    ident: 1,
    reserved: true,
    df: false,
    more: true,
    offset: 800,
    ttl: 64,
    protocol: protocol::UDP,
    sum: 0xabcd,
    src: Addr(0xc633_6407),
    dst: Addr(0x0a00_0001),
};

// A query to 10.0.0.1, the same with a lower time to live, and the longest datagram, with don't
// fragment.
#[test]
fn headers_are_written_with_their_sums(rt: HostRuntime) {
    let nearer = Ipv4 { ttl: 31, ..HEAD };
    let whole = Ipv4 {
        tos: 0xb8,
        ident: 0x1234,
        df: true,
        src: Addr(0xc0a8_0001),
        dst: Addr(0xc0a8_00c7),
        ..HEAD
    };
    let rows = [
        (
            HEAD,
            10,
            [
                0x4500_001e,
                0x0001_0000,
                0x4011_4693,
                0xc633_6407,
                0x0a00_0001,
            ],
        ),
        (
            nearer,
            10,
            [
                0x4500_001e,
                0x0001_0000,
                0x1f11_6793,
                0xc633_6407,
                0x0a00_0001,
            ],
        ),
        (
            whole,
            65515,
            [
                0x45b8_ffff,
                0x1234_4000,
                0x4011_a5e8,
                0xc0a8_0001,
                0xc0a8_00c7,
            ],
        ),
    ];
    for (head, payload, words) in rows {
        let mut buf = [0xee; 20];
        assert_eq!(rt; write_plain(&head, payload, &mut buf), 20);
        for (i, word) in words.iter().enumerate() {
            assert_eq!(rt; u32_at(&buf, 4 * i), *word, "word {i}");
        }
    }
}
