//! Segments with fields that all differ, each fault, options read and cleaned, and segments
//! written.
ghost use Rattle.std.specs.Prelude.{◌≡◌, []};

use arrayvec::ArrayVec;
use std::test::Fail;
use tcp_codec::{
    SegmentParts, SumRule, Tcp, TcpFault, clean_options, options_change, parse, parse_into,
    scale_of, write_cleaned, write_segment,
};
use wire_base::{Addr, Flags, protocol, pseudo_sum};

/// `abcd` from port 40000 to port 80, PSH ACK, at the sequence number 1000 with the acknowledgment
/// 5001.
const SEGMENT: [u8; 24] = [
    0x9c, 0x40, 0x00, 0x50, 0x00, 0x00, 0x03, 0xe8, 0x00, 0x00, 0x13, 0x89, 0x50, 0x18, 0x20, 0x00,
    0xe2, 0xc4, 0x00, 0x00, 0x61, 0x62, 0x63, 0x64,
];

/// A SYN ACK whose fields all differ, with a segment size, a window scale and three octets.
const MARKED: [u8; 31] = [
    0x01, 0x02, 0x03, 0x04, 0x05, 0x06, 0x07, 0x08, 0x09, 0x0a, 0x0b, 0x0c, 0x7d, 0x12, 0x0e, 0x0f,
    0x3c, 0x1d, 0x10, 0x11, 0x02, 0x04, 0x05, 0xb4, 0x01, 0x03, 0x03, 0x07, 0x61, 0x62, 0x63,
];

/// Returns the sum of the pseudo-header of a segment of `len` octets from 198.51.100.7 to
/// 10.0.0.1.
fn pseudo(len: u16) -> u32 {
    pseudo_sum(Addr(0xc633_6407), Addr(0x0a00_0001), protocol::TCP, len)
}

/// Returns the segment with another data offset octet, flags, and last four octets, and the old
/// checksum.
fn changed(offset: u8, flags: u8, last: [u8; 4]) -> [u8; 24] {
    let mut segment = SEGMENT;
    segment[12] = offset;
    segment[13] = flags;
    segment[20..].copy_from_slice(&last);
    segment
}

#[test]
fn fields_stand_where_the_standard_puts_them(rt: HostRuntime) {
    let segment = Tcp {
        sport: 40000,
        dport: 80,
        seq: 1000,
        ack: 5001,
        header: 20,
        reserved: 0,
        flags: Flags(0x18),
        window: 8192,
        sum_right: true,
        urgent: 0,
    };
    let marked = Tcp {
        sport: 0x0102,
        dport: 0x0304,
        seq: 0x0506_0708,
        ack: 0x090a_0b0c,
        header: 28,
        reserved: 13,
        flags: Flags(0x12),
        window: 0x0e0f,
        sum_right: true,
        urgent: 0x1011,
    };
    assert_eq!(rt; parse(&SEGMENT, pseudo(24), SumRule::Must), Ok(segment));
    assert_eq!(rt; parse(&MARKED, pseudo(31), SumRule::Must), Ok(marked));
    let mut head = marked;
    assert_eq!(rt;
        parse_into(&SEGMENT, pseudo(24), SumRule::Must, &mut head),
        Ok(())
    );
    assert_eq!(rt; head, segment);
    assert_eq!(rt;
        parse_into(&SEGMENT, 0, SumRule::Must, &mut head),
        Err(TcpFault::Sum)
    );
    assert_eq!(rt; head, segment);
}

// The checksum; the data offset; flags; options that reach past the header, with one octet or a
// length below 2, and after the end option; the first of two faults.
#[test]
fn the_first_fault_is_told(rt: HostRuntime) {
    let last = *b"abcd";
    let nops = [1, 1, 1, 1];
    let rows = [
        (0x50, 0x18, last, SumRule::Must, Ok(true)),
        (0x50, 0x18, *b"abcd", SumRule::Skip, Ok(true)),
        (0x50, 0x18, *b"abXd", SumRule::Must, Err(TcpFault::Sum)),
        (0x50, 0x18, *b"abXd", SumRule::Skip, Ok(false)),
        (0x40, 0x18, last, SumRule::Must, Err(TcpFault::DataOffset)),
        (0x40, 0x18, last, SumRule::Skip, Err(TcpFault::DataOffset)),
        (0x60, 0x18, nops, SumRule::Skip, Ok(false)),
        (0x70, 0x18, nops, SumRule::Skip, Err(TcpFault::DataOffset)),
        (0x50, 0x02, last, SumRule::Skip, Ok(false)),
        (0x50, 0x12, last, SumRule::Skip, Ok(false)),
        (0x50, 0x10, last, SumRule::Skip, Ok(false)),
        (0x50, 0x11, last, SumRule::Skip, Ok(false)),
        (0x50, 0x04, last, SumRule::Skip, Ok(false)),
        (0x50, 0x14, last, SumRule::Skip, Ok(false)),
        (0x50, 0xfa, last, SumRule::Skip, Ok(false)),
        (0x50, 0x00, last, SumRule::Skip, Err(TcpFault::Flags)),
        (0x50, 0xe8, last, SumRule::Skip, Err(TcpFault::Flags)),
        (0x50, 0x01, last, SumRule::Skip, Err(TcpFault::Flags)),
        (0x50, 0x03, last, SumRule::Skip, Err(TcpFault::Flags)),
        (0x50, 0x13, last, SumRule::Skip, Err(TcpFault::Flags)),
        (0x50, 0x05, last, SumRule::Skip, Err(TcpFault::Flags)),
        (0x50, 0x15, last, SumRule::Skip, Err(TcpFault::Flags)),
        (0x50, 0x06, last, SumRule::Skip, Err(TcpFault::Flags)),
        (0x50, 0x16, last, SumRule::Skip, Err(TcpFault::Flags)),
        (0x60, 0x02, [2, 4, 5, 180], SumRule::Skip, Ok(false)),
        (
            0x60,
            0x02,
            [2, 5, 5, 180],
            SumRule::Skip,
            Err(TcpFault::Options),
        ),
        (0x60, 0x02, [254, 2, 254, 2], SumRule::Skip, Ok(false)),
        (
            0x60,
            0x02,
            [254, 1, 1, 1],
            SumRule::Skip,
            Err(TcpFault::Options),
        ),
        (
            0x60,
            0x02,
            [254, 0, 1, 1],
            SumRule::Skip,
            Err(TcpFault::Options),
        ),
        (
            0x60,
            0x02,
            [1, 1, 1, 2],
            SumRule::Skip,
            Err(TcpFault::Options),
        ),
        (0x60, 0x02, [1, 0, 2, 99], SumRule::Skip, Ok(false)),
        (0x40, 0x03, last, SumRule::Must, Err(TcpFault::DataOffset)),
        (0x60, 0x03, last, SumRule::Must, Err(TcpFault::Sum)),
        (0x60, 0x03, last, SumRule::Skip, Err(TcpFault::Flags)),
    ];
    for (offset, flags, octets, rule, expected) in rows {
        let told = parse(&changed(offset, flags, octets), pseudo(24), rule);
        assert_eq!(rt;
            told.map(|head| head.sum_right),
            expected,
            "{offset} {flags} {octets:?}"
        );
    }
    let rows = [
        (0, Some(TcpFault::Short)),
        (19, Some(TcpFault::Short)),
        (20, None),
    ];
    for (len, expected) in rows {
        assert_eq!(rt;
            parse(&SEGMENT[..len], pseudo(24), SumRule::Skip).err(),
            expected,
            "{len} octets"
        );
    }
}

/// Returns a SYN with these options, words of four octets, and with a wrong checksum.
fn syn_with(options: &[u8]) -> [u8; 60] {
    let size = options.len().min(40);
    let mut segment = [0; 60];
    segment[12] = 16 * (5 + size / 4) as u8;
    segment[13] = 0x02;
    segment[20..20 + size].copy_from_slice(&options[..size]);
    segment
}

// The first of two; one of another length, and one of another kind; after the end option; above
// 14, which is limited to 14 (RFC 7323).
#[test]
fn the_first_window_scale_counts(rt: HostRuntime) -> Result<(), Fail> {
    let rows: [(&[u8], Option<u8>); 10] = [
        (&[], None),
        (&[3, 3, 7, 0], Some(7)),
        (&[1, 3, 3, 14], Some(14)),
        (&[1, 3, 3, 15], Some(14)),
        (&[3, 3, 255, 3, 3, 1, 0, 0], Some(14)),
        (&[3, 3, 1, 3, 3, 2, 0, 0], Some(1)),
        (&[3, 4, 5, 6, 3, 3, 2, 0], Some(2)),
        (&[254, 3, 3, 254, 3, 3, 1, 1], None),
        (&[2, 4, 3, 3, 4, 2, 1, 1], None),
        (&[0, 3, 3, 7], None),
    ];
    for (area, expected) in rows {
        let segment = syn_with(area);
        let header = parse(&segment, 0, SumRule::Skip)?.header;
        assert_eq!(rt; header - 20, area.len());
        assert_eq!(rt; scale_of(&segment[20..header]), expected, "{area:?}");
    }
    Ok(())
}

// Option areas (RFC 9293 section 3.2, RFC 7323, RFC 2018). Known kinds and an unknown one; kinds of
// a SYN on another segment; wrong lengths. A second option of a kind, also after one that was not
// kept; octets after the end option.
#[test]
fn options_are_kept_or_cleared(rt: HostRuntime) -> Result<(), Fail> {
    let rows: [(bool, &[u8], &[u8]); 17] = [
        (false, &[], &[]),
        (false, &[0xfe, 4, 0xaa, 0xbb], &[1, 1, 1, 1]),
        (
            true,
            &[2, 4, 5, 180, 4, 2, 3, 3, 7, 1, 1, 1],
            &[2, 4, 5, 180, 4, 2, 3, 3, 7, 1, 1, 1],
        ),
        (
            false,
            &[2, 4, 5, 180, 4, 2, 3, 3, 7, 1, 1, 1],
            &[1, 1, 1, 1, 1, 1, 1, 1, 1, 1, 1, 1],
        ),
        (
            true,
            &[1, 1, 2, 3, 5, 3, 4, 7, 0, 4, 3, 0],
            &[1, 1, 1, 1, 1, 1, 1, 1, 1, 1, 1, 1],
        ),
        (
            true,
            &[2, 4, 5, 180, 2, 4, 2, 24],
            &[2, 4, 5, 180, 1, 1, 1, 1],
        ),
        (true, &[3, 2, 3, 3, 7, 3, 3, 8], &[1, 1, 3, 3, 7, 1, 1, 1]),
        (
            false,
            &[1, 1, 8, 10, 0, 0, 0, 1, 0, 0, 0, 2],
            &[1, 1, 8, 10, 0, 0, 0, 1, 0, 0, 0, 2],
        ),
        (
            false,
            &[8, 10, 0, 0, 0, 1, 0, 0, 0, 2, 8, 10, 0, 0, 0, 3, 0, 0, 0, 4],
            &[8, 10, 0, 0, 0, 1, 0, 0, 0, 2, 1, 1, 1, 1, 1, 1, 1, 1, 1, 1],
        ),
        (
            false,
            &[1, 1, 1, 8, 9, 0, 0, 0, 1, 0, 0, 0],
            &[1, 1, 1, 1, 1, 1, 1, 1, 1, 1, 1, 1],
        ),
        (
            false,
            &[1, 1, 5, 10, 0, 0, 0, 9, 0, 0, 0, 19],
            &[1, 1, 5, 10, 0, 0, 0, 9, 0, 0, 0, 19],
        ),
        (
            false,
            &[1, 5, 11, 0, 0, 0, 9, 0, 0, 0, 19, 0],
            &[1, 1, 1, 1, 1, 1, 1, 1, 1, 1, 1, 1],
        ),
        (false, &[5, 2, 0, 0], &[1, 1, 0, 0]),
        (false, &[1, 1, 0, 7], &[1, 1, 0, 0]),
        (
            true,
            &[2, 4, 5, 180, 0, 4, 2, 9],
            &[2, 4, 5, 180, 0, 0, 0, 0],
        ),
        (false, &[0xfe, 2, 0, 0], &[1, 1, 0, 0]),
        (false, &[0, 0, 0, 0], &[0, 0, 0, 0]),
    ];
    for (syn, old, new) in rows {
        let mut segment = syn_with(old);
        let header = parse(&segment, 0, SumRule::Skip)?.header;
        assert_eq!(rt; header - 20, old.len());
        let changes = options_change(&segment[20..header], syn);
        let changed = clean_options(&mut segment[20..header], syn);
        assert_eq!(rt; &segment[20..header], new, "{old:?}");
        assert_eq!(rt; changed, old != new, "{old:?}");
        assert_eq!(rt; changes, changed, "{old:?}");
    }
    Ok(())
}

/// Returns the parts of a segment from 198.51.100.7 port 40000 to 10.0.0.1 port 80 without
/// options.
fn parts(seq: u32, ack: u32, flags: Flags) -> SegmentParts
    ensures options { result.options.items ≡ [] }
    ensures flags { result.flags ≡ flags }
{
    SegmentParts {
        src: Addr(0xc633_6407),
        dst: Addr(0x0a00_0001),
        sport: 40000,
        dport: 80,
        seq,
        ack,
        flags,
        window: 8192,
        options: ArrayVec::new(),
    }
}

// Payload without options; options without payload; an odd number of octets, and fields that
// all differ.
#[test]
fn segments_are_written_with_their_sums(rt: HostRuntime) -> Result<(), Fail> {
    let mut buf = [0xee; 28];
    let size = write_segment(&parts(1000, 5001, Flags(0x18)), b"abcd", &mut buf);
    assert_eq!(rt;
        &buf[..size],
        [
            0x9c, 0x40, 0x00, 0x50, 0x00, 0x00, 0x03, 0xe8, 0x00, 0x00, 0x13, 0x89, 0x50, 0x18,
            0x20, 0x00, 0xe2, 0xc4, 0x00, 0x00, 0x61, 0x62, 0x63, 0x64
        ]
        .as_slice()
    );

    let mut syn = parts(999, 5001, Flags(0x12));
    syn.options
        .try_extend_from_slice(&[2, 4, 5, 180, 1, 3, 3, 7])?;
    let size = write_segment(&syn, &[], &mut buf);
    assert_eq!(rt;
        &buf[..size],
        [
            0x9c, 0x40, 0x00, 0x50, 0x00, 0x00, 0x03, 0xe7, 0x00, 0x00, 0x13, 0x89, 0x70, 0x12,
            0x20, 0x00, 0x7b, 0xcc, 0x00, 0x00, 0x02, 0x04, 0x05, 0xb4, 0x01, 0x03, 0x03, 0x07
        ]
        .as_slice()
    );

    let other = SegmentParts {
        sport: 0x0102,
        dport: 0x0304,
        window: 0x0e0f,
        ..parts(0x0506_0708, 0x090a_0b0c, Flags(0xd0))
    };
    let size = write_segment(&other, b"abc", &mut buf);
    assert_eq!(rt;
        &buf[..size],
        [
            0x01, 0x02, 0x03, 0x04, 0x05, 0x06, 0x07, 0x08, 0x09, 0x0a, 0x0b, 0x0c, 0x50, 0xd0,
            0x0e, 0x0f, 0x84, 0x3a, 0x00, 0x00, 0x61, 0x62, 0x63
        ]
        .as_slice()
    );
    assert_eq!(rt; &buf[size..], [180, 1, 3, 3, 7].as_slice());
    Ok(())
}

// On a SYN all these options are kept; on another segment none is (RFC 9293, RFC 7323).
#[test]
fn segments_are_written_with_cleaned_options(rt: HostRuntime) {
    let area = [2, 4, 5, 180, 1, 3, 3, 7];
    let mut buf = [0xee; 28];
    let size = write_cleaned(&parts(999, 5001, Flags(0x12)), &area, true, &[], &mut buf);
    assert_eq!(rt;
        &buf[..size],
        [
            0x9c, 0x40, 0x00, 0x50, 0x00, 0x00, 0x03, 0xe7, 0x00, 0x00, 0x13, 0x89, 0x70, 0x12,
            0x20, 0x00, 0x7b, 0xcc, 0x00, 0x00, 0x02, 0x04, 0x05, 0xb4, 0x01, 0x03, 0x03, 0x07
        ]
        .as_slice()
    );
    let size = write_cleaned(&parts(999, 5001, Flags(0x10)), &area, false, &[], &mut buf);
    assert_eq!(rt;
        &buf[..size],
        [
            0x9c, 0x40, 0x00, 0x50, 0x00, 0x00, 0x03, 0xe7, 0x00, 0x00, 0x13, 0x89, 0x70, 0x10,
            0x20, 0x00, 0x83, 0x8c, 0x00, 0x00, 1, 1, 1, 1, 1, 1, 1, 1
        ]
        .as_slice()
    );
}
