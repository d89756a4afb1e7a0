//! Frames that are cut, whose expected segments are worked out by hand.
ghost use Rattle.std.specs.Prelude.{◌≡◌, ◌≤◌, ◌==◌, ◌&&◌, not, length, drop, IsTrue, IfOk, None};
ghost use Rattle.tcp_codec.specs.declared.header.SumRule.TheVariants.{Skip};
ghost use Rattle.tcp_codec.specs.HeaderFields.{fault_of};
ghost use Rattle.emit_mtu.specs.FrameParts.{IsSent, IsWhole};
ghost use Rattle.wire_base.specs.declared.limits.TheConstants.{MAX_LINK};

use arrayvec::ArrayVec;
use emit_mtu::{Cutter, LongKind, long_kind};
use ipv4_codec::{Ipv4, write_plain};
use std::test::Fail;
use tcp_codec::{SegmentParts, SumRule, write_segment};
use wire_base::{
    Addr, Flags, FrameKind, Link, MAX_FRAME, frame_kind, packet_in, protocol, pseudo_sum,
    sum_right, u16_at, u32_at,
};

// An Ethernet header before IPv4, from 02:00:00:00:00:01 to 02:00:00:00:00:02 (RFC 894).
const ETHERNET: [u8; 14] = [2, 0, 0, 0, 0, 2, 2, 0, 0, 0, 0, 1, 0x08, 0x00];

// Length of an IPv4 header without options, in octets.
const HEADER: usize = 20;

// Timestamps between no-operations (RFC 7323 section 3.2).
const TIMESTAMPS: [u8; 12] = [1, 1, 8, 10, 0, 0, 0, 1, 0, 0, 0, 2];

// Maximum length of a frame in octets.
const ROOM: usize = MAX_FRAME;

// The payload octets count up modulo 251.
const LONGEST: usize = 1300;

fn payload() -> [u8; LONGEST] {
    let mut octets = [0; LONGEST];
    for (i, octet) in octets.iter_mut().enumerate() {
        *octet = (i % 251) as u8;
    }
    octets
}

/// A frame, and its expected segments.
#[derive(Drop)]
struct Row {
    link: Link,
    ident: u16,
    seq: u32,
    flags: u8,
    options: &'static [u8],
    len: usize,
    segments: &'static [Cut],
}

/// The fields of a segment that differ from those of the frame.
struct Cut {
    total: u16,
    ident: u16,
    seq: u32,
    flags: u8,
}

#[rattlefmt::skip]
const ROWS: &[Row] = &[
    // Parts of 536 octets; PSH on the last.
    Row { link: Link::Raw, ident: 1, seq: 1000, flags: 0x18, options: &[], len: 1100, segments: &[
        Cut { total: 576, ident: 1, seq: 1000, flags: 0x10 },
        Cut { total: 576, ident: 2, seq: 1536, flags: 0x10 },
        Cut { total: 68, ident: 3, seq: 2072, flags: 0x18 },
    ] },
    // Only full parts; identification and sequence number wrap; CWR and ECE, PSH and FIN.
    Row { link: Link::Raw, ident: 65535, seq: 0xffff_fe00, flags: 0xd9, options: &[], len: 1072, segments: &[
        Cut { total: 576, ident: 65535, seq: 0xffff_fe00, flags: 0xd0 },
        Cut { total: 576, ident: 0, seq: 24, flags: 0x59 },
    ] },
    // Options in each, on Ethernet; one octet is left.
    Row { link: Link::Ethernet, ident: 7, seq: 0, flags: 0x11, options: &TIMESTAMPS, len: 1049, segments: &[
        Cut { total: 576, ident: 7, seq: 0, flags: 0x10 },
        Cut { total: 576, ident: 8, seq: 524, flags: 0x10 },
        Cut { total: 53, ident: 9, seq: 1048, flags: 0x11 },
    ] },
];

fn head_of(protocol: u8, ident: u16) -> Ipv4 {
    Ipv4 {
        header: HEADER,
        tos: 0x20,
        total: 0,
        ident,
        reserved: false,
        df: true,
        more: false,
        offset: 0,
        ttl: 64,
        protocol,
        sum: 0,
        src: Addr(0xc633_6407),
        dst: Addr(0x0a00_0001),
    }
}

// Writes the frame of a case, and returns its length in octets.
fn frame_of(row: &Row, buf: &mut [u8; 1400]) -> Result<usize, Fail>
    ensures { IfOk result (λ size. size ≤ 1400) }
{
    let at = link_size(row.link);
    buf[..at].copy_from_slice(&ETHERNET[..at]);
    let mut parts = SegmentParts {
        src: Addr(0xc633_6407),
        dst: Addr(0x0a00_0001),
        sport: 40000,
        dport: 80,
        seq: row.seq,
        ack: 5001,
        flags: Flags(row.flags),
        window: 8192,
        options: ArrayVec::new(),
    };
    parts.options.try_extend_from_slice(row.options)?;
    if row.len > LONGEST || parts.options.len() % 4 != 0 || parts.flags.urg() {
        return Err("no such row")?;
    }
    let octets = payload();
    let size = write_segment(&parts, &octets[..row.len], &mut buf[at + HEADER..]);
    write_plain(
        &head_of(protocol::TCP, row.ident),
        size as u16,
        &mut buf[at..],
    );
    Ok(at + HEADER + size)
}

// Returns whether the frame may be written.
fn is_sent(link: Link, frame: &[u8]) -> bool
    ensures { IsTrue result → IsSent link frame.now }
{
    match frame_kind(link, frame) {
        FrameKind::Arp => true,
        FrameKind::Ip(_) => is_whole(packet_in(link, frame)),
        _ => false,
    }
}

fn is_whole(packet: &[u8]) -> bool
    ensures { IsTrue result → IsWhole packet.now }
{
    match ipv4_codec::parse(packet) {
        Ok(head) => is_single(&head, packet.len()) && is_segment(&head, packet),
        Err(_) => false,
    }
}

fn is_single(head: &Ipv4, len: usize) -> bool
    ensures { result ≡ ((head.now.header == 20) && not head.now.more && (head.now.offset == 0) && (head.now.total == len)) }
{
    head.header == HEADER && !head.more && head.offset == 0 && usize::from(head.total) == len
}

fn is_segment(head: &Ipv4, packet: &[u8]) -> bool
    requires { 20 ≤ length packet.now }
    ensures { IsTrue result → head.now.protocol ≡ 6 → fault_of Skip 0 (drop 20 packet.now) ≡ None }
{
    head.protocol != protocol::TCP || tcp_codec::parse(&packet[HEADER..], 0, SumRule::Skip).is_ok()
}

// Returns the segments of a frame, cut for packets of 576 octets.
fn cut_of(link: Link, frame: &[u8]) -> Result<Cutter<'_>, Fail> {
    if !is_sent(link, frame) {
        return Err("the frame is not one that goes out")?;
    }
    match long_kind(link, frame, 576) {
        LongKind::Cut => Ok(Cutter::new(link, 576, frame)),
        _ => Err("the frame is not cut")?,
    }
}

// Each segment has the fields of its case and right checksums; all other octets are those of the
// frame.
#[test]
fn frames_are_cut(rt: HostRuntime) -> Result<(), Fail> {
    let mut frame = [0; 1400];
    let mut buf = vec![in rt.alloc(); 0xee; ROOM]?;
    for row in ROWS {
        let size = frame_of(row, &mut frame)?;
        let before = check_cut(row, &frame[..size], &mut buf)?;
        assert_eq!(rt; before, row.len);
    }
    Ok(())
}

// Cuts the frame of a case, and returns the number of payload octets of its segments.
fn check_cut(row: &Row, frame: &[u8], buf: &mut [u8]) -> Result<usize, Fail> {
    if buf.len() < ROOM {
        return Err("the buffer is short")?;
    }
    let mut cutter = cut_of(row.link, frame)?;
    let mut before = 0;
    for cut in row.segments {
        let size = cutter.next(buf).ok_or("a segment is missing")?;
        before = follows(row.link, frame, &buf[..size], cut, before)?;
    }
    match cutter.next(buf) {
        None => Ok(before),
        Some(_) => Err("a segment too many")?,
    }
}

// Tests a segment of the frame after those with the first `before` octets of its payload; returns
// the number of payload octets up to its end.
fn follows(
    link: Link,
    frame: &[u8],
    segment: &[u8],
    cut: &Cut,
    before: usize,
) -> Result<usize, Fail> {
    let size = link_size(link);
    if frame.len() < 100 || segment.len() < size + 40 || segment[..size] != frame[..size] {
        return Err("the link octets changed")?;
    }
    let (old, new) = (&frame[size..], &segment[size..]);
    if (u16_at(new, 2), u16_at(new, 4)) != (cut.total, cut.ident)
        || usize::from(cut.total) != new.len()
    {
        return Err("a field of the IPv4 header is wrong")?;
    }
    if (u32_at(new, 24), new[33]) != (cut.seq, cut.flags) {
        return Err("a field of the TCP header is wrong")?;
    }
    if !sum_right(&new[..HEADER], 0) || !sum_right(&new[HEADER..], pseudo_of(new)) {
        return Err("a sum is wrong")?;
    }
    // The ranges between the fields that are a segment's own.
    for (from, to) in [(0, 2), (6, 10), (12, 24), (28, 33), (34, 36), (38, 40)] {
        if new[from..to] != old[from..to] {
            return Err("another field changed")?;
        }
    }
    same_octets(old, new, before)
}

// Tests that the options are the same, and that the octets after them are those of the frame's
// payload from offset `before` on.
fn same_octets(old: &[u8], new: &[u8], before: usize) -> Result<usize, Fail>
    requires old { 40 ≤ length old.now }
    requires new { 40 ≤ length new.now }
{
    let header = HEADER + 4 * usize::from(old[32] / 16);
    if new.len() < header
        || old.len() < header
        || new[40.min(header)..header] != old[40.min(header)..header]
    {
        return Err("the options changed")?;
    }
    let (octets, payload) = (&new[header..], &old[header..]);
    if payload.len() < before || payload.len() - before < octets.len() {
        return Err("an octet too many")?;
    }
    let there = &payload[before..];
    if there[..octets.len()] != octets[..] {
        return Err("an octet changed")?;
    }
    Ok(before + octets.len())
}

fn link_size(link: Link) -> usize
    ensures { result ≤ MAX_LINK }
{
    match link {
        Link::Ethernet => ETHERNET.len(),
        Link::Raw => 0,
    }
}

// Returns the sum of the pseudo-header of a packet.
fn pseudo_of(packet: &[u8]) -> u32
    requires { 20 ≤ length packet.now }
{
    let source = Addr(u32_at(packet, 12));
    let destination = Addr(u32_at(packet, 16));
    let size = packet.len() - HEADER;
    pseudo_sum(source, destination, protocol::TCP, (size % 65536) as u16)
}

// A long datagram of another protocol is dropped; one that fits is written, and ARP always.
#[test]
fn other_frames_stay_whole(rt: HostRuntime) -> Result<(), Fail> {
    let mut datagram = [0; 600];
    write_plain(&head_of(protocol::UDP, 1), 580, &mut datagram);
    let sent = is_sent(Link::Raw, &datagram);
    assert!(rt; sent);
    assert_eq!(rt; long_kind(Link::Raw, &datagram, 576), LongKind::Drop);
    assert_eq!(rt; long_kind(Link::Raw, &datagram, 599), LongKind::Drop);
    assert_eq!(rt; long_kind(Link::Raw, &datagram, 600), LongKind::Fits);
    let mut arp = [0; 700];
    arp[..14].copy_from_slice(&ETHERNET);
    arp[13] = 0x06;
    let sent = is_sent(Link::Ethernet, &arp);
    assert!(rt; sent);
    assert_eq!(rt; long_kind(Link::Ethernet, &arp, 576), LongKind::Fits);
    Ok(())
}

// A segment is cut from one octet above the MTU on; one with SYN, RST or URG is dropped.
#[test]
fn marked_segments_do_not_go_out(rt: HostRuntime) -> Result<(), Fail> {
    let mut frame = [0; 1400];
    for (flags, len, kind) in [
        (0x18, 600, LongKind::Cut),
        (0x10, 536, LongKind::Fits),
        (0x10, 537, LongKind::Cut),
        (0x02, 536, LongKind::Fits),
        (0x02, 537, LongKind::Drop),
        (0x12, 600, LongKind::Drop),
        (0x04, 600, LongKind::Drop),
        (0x14, 600, LongKind::Drop),
        (0x30, 600, LongKind::Drop),
    ] {
        let row = Row {
            flags: 0x18,
            len,
            ..ROWS[0]
        };
        let size = frame_of(&row, &mut frame)?;
        // The checksum is not tested.
        frame[33] = flags;
        let frame = &frame[..size];
        let sent = is_sent(Link::Raw, frame);
        assert!(rt; sent);
        assert_eq!(rt; long_kind(Link::Raw, frame, 576), kind, "{flags} {len}");
    }
    Ok(())
}
