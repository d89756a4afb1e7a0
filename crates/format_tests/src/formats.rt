//! Frames by their EtherType, checksums by worked examples, sequence numbers, and prefixes.
use wire_base::{
    Addr, FrameKind, Link, Prefix, PrefixFault, frame_kind, link_octets, packet_in, read_prefix,
    sequence_before, sequence_distance, sequence_plus, sum_for, sum_right,
};

/// The start of an Ethernet II frame with an IPv4 packet, from 02:00:00:00:00:01 to
/// 02:00:00:00:00:02.
const HEADER: [u8; 14] = [2, 0, 0, 0, 0, 2, 2, 0, 0, 0, 0, 1, 0x08, 0x00];

/// EtherTypes, and the kinds of the frames that have them.
const ETHERTYPES: &[([u8; 2], FrameKind)] = &[
    ([0x08, 0x00], FrameKind::Ip(14)),
    ([0x08, 0x06], FrameKind::Arp),
    ([0x00, 0x08], FrameKind::Other),
    ([0x08, 0x01], FrameKind::Other),
    ([0x81, 0x00], FrameKind::Other),
    ([0x86, 0xdd], FrameKind::Other),
];

// Returns the kinds of a frame with this EtherType: as Ethernet, as Ethernet without the last octet
// of the EtherType, and without a link header.
fn kinds(ethertype: [u8; 2]) -> (FrameKind, FrameKind, FrameKind) {
    let mut frame = HEADER;
    frame[12] = ethertype[0];
    frame[13] = ethertype[1];
    (
        frame_kind(Link::Ethernet, &frame),
        frame_kind(Link::Ethernet, &frame[..13]),
        frame_kind(Link::Raw, &frame),
    )
}

// Returns the first EtherType whose kinds differ from its row.
fn first_other_kind(rows: &[([u8; 2], FrameKind)]) -> Option<[u8; 2]> {
    for (ethertype, kind) in rows {
        if kinds(*ethertype) != (*kind, FrameKind::Short, FrameKind::Ip(0)) {
            return Some(*ethertype);
        }
    }
    None
}

// Returns the kinds of frames without octets.
fn empty_kinds() -> (FrameKind, FrameKind) {
    (frame_kind(Link::Ethernet, &[]), frame_kind(Link::Raw, &[]))
}

#[test]
fn frames_are_told_by_their_ethertype(rt: HostRuntime) {
    assert_eq!(rt; first_other_kind(ETHERTYPES), None);
    assert_eq!(rt; empty_kinds(), (FrameKind::Short, FrameKind::Ip(0)));
}

/// The header, and the first two octets of a packet.
const FRAME: [u8; 16] = [2, 0, 0, 0, 0, 2, 2, 0, 0, 0, 0, 1, 0x08, 0x00, 0x45, 0x46];

// Returns whether the first `size` octets have this number of link octets, and the others as their
// packet; without a link header all of them are the packet.
fn is_split(size: usize, link: usize) -> bool {
    let short = FRAME.get(..size).unwrap_or(&[]);
    let Some((header, packet)) = short.split_at_checked(link) else {
        return false;
    };
    let raw = link_octets(Link::Raw, short).is_empty() && packet_in(Link::Raw, short) == short;
    raw && short.len() == size
        && link_octets(Link::Ethernet, short) == header
        && packet_in(Link::Ethernet, short) == packet
}

// Returns the first number of octets whose split differs from its row.
fn first_other_split(rows: &[(usize, usize)]) -> Option<usize> {
    for (size, link) in rows {
        if !is_split(*size, *link) {
            return Some(*size);
        }
    }
    None
}

#[test]
fn a_frame_is_its_link_octets_and_its_packet(rt: HostRuntime) {
    assert_eq!(rt;
        first_other_split(&[(0, 0), (3, 3), (14, 14), (16, 14)]),
        None
    );
}

/// Octets, a sum before them, whether both together sum to a right total, and the checksum of both.
type Sum = (&'static [u8], u32, bool, u16);

// The example of RFC 1071 section 3, alone and with its checksum; a sum of 0; an odd last
// octet; a word of ones; a sum before the octets.
#[rattlefmt::skip]
const SUMS: &[Sum] = &[
    (&[0x00, 0x01, 0xf2, 0x03, 0xf4, 0xf5, 0xf6, 0xf7], 0, false, 0x220d),
    (&[0x00, 0x01, 0xf2, 0x03, 0xf4, 0xf5, 0xf6, 0xf7, 0x22, 0x0d], 0, true, 0),
    (&[], 0, false, 0xffff),
    (&[0, 0, 0, 0, 0, 0, 0, 0], 0, false, 0xffff),
    (&[1], 0, false, 0xfeff),
    (&[0xff, 0xff, 0, 0, 0], 0, true, 0),
    (&[0, 1], 0x1_fffd, true, 0),
    (&[0, 1], 0x1_fffe, false, 0xfffe),
];

// Returns the index of the first octets whose sum differs from its row.
fn first_other_sum(rows: &[Sum]) -> Option<usize> {
    for (index, (bytes, extra, right, checksum)) in rows.iter().enumerate() {
        if sum_right(bytes, *extra) != *right || sum_for(bytes, *extra) != *checksum {
            return Some(index);
        }
    }
    None
}

#[test]
fn words_sum_as_the_standards_say(rt: HostRuntime) {
    assert_eq!(rt; first_other_sum(SUMS), None);
}

/// Sequence numbers, numbers of octets, and the sequence numbers after them: they wrap at 2^32 (RFC
/// 9293 section 3.4).
const SEQUENCES: &[(u32, u64, u32)] = &[
    (0, 0, 0),
    (0, 1, 1),
    (u32::MAX, 1, 0),
    (u32::MAX, 1 << 32, u32::MAX),
    (7, (1 << 33) + 5, 12),
    (1 << 31, 1 << 31, 0),
];

// Returns the index of the first sequence number whose successor differs from its row.
fn first_other_sequence(rows: &[(u32, u64, u32)]) -> Option<usize> {
    for (index, (first, octets, last)) in rows.iter().enumerate() {
        let distance = sequence_distance(*first, *last);
        if sequence_plus(*first, *octets) != *last || distance != *octets % (1 << 32) {
            return Some(index);
        }
    }
    None
}

#[test]
fn numbers_go_round(rt: HostRuntime) {
    assert_eq!(rt; first_other_sequence(SEQUENCES), None);
    assert_eq!(rt; (sequence_before(0), sequence_before(8)), (u32::MAX, 7));
}

const TEN: Prefix = Prefix {
    addr: Addr(0x0a00_0000),
    len: 8,
};

const HOST: Prefix = Prefix {
    addr: Addr(0xc000_0201),
    len: 32,
};

const ALL: Prefix = Prefix {
    addr: Addr(0xffff_ffff),
    len: 0,
};

const PREFIXES: &[(&str, Result<Prefix, PrefixFault>)] = &[
    ("10.0.0.0/8", Ok(TEN)),
    ("010.0.0.000/08", Ok(TEN)),
    ("192.0.2.1/32", Ok(HOST)),
    ("255.255.255.255/0", Ok(ALL)),
    ("", Err(PrefixFault::Shape)),
    ("10.0.0/8", Err(PrefixFault::Shape)),
    ("10.0.0.0", Err(PrefixFault::Shape)),
    ("10.0.0.0/", Err(PrefixFault::Shape)),
    ("10.0.0.0/100", Err(PrefixFault::Shape)),
    ("10.0.0.0/8/9", Err(PrefixFault::Shape)),
    ("1.2.3.4.5/8", Err(PrefixFault::Shape)),
    ("0010.0.0.0/8", Err(PrefixFault::Shape)),
    (" 10.0.0.0/8", Err(PrefixFault::Shape)),
    ("256.0.0.0/8", Err(PrefixFault::Part)),
    ("10.0.0.256/33", Err(PrefixFault::Part)),
    ("10.0.0.0/33", Err(PrefixFault::Length)),
];

// Returns the index of the first text whose result differs from its row.
fn first_other_prefix(rows: &[(&str, Result<Prefix, PrefixFault>)]) -> Option<usize> {
    for (index, (text, prefix)) in rows.iter().enumerate() {
        if read_prefix(text) != *prefix {
            return Some(index);
        }
    }
    None
}

#[test]
fn prefixes_are_read(rt: HostRuntime) {
    assert_eq!(rt; first_other_prefix(PREFIXES), None);
}
