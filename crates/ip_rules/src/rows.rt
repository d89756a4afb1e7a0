//! The rules on the link, the IPv4 header and the protocol, in the order of their numbers, and what
//! they make of a record.
ghost use Rattle.std.specs.Prelude.{◌≡◌, ◌+◌, ◌<◌, ◌≤◌, ◌++◌, ◌&&◌, ◌||◌, ◌==◌, nat_lt, nat_le, All, length, Option, Some, None};
ghost use Rattle.wire_base.specs.Ipv4 as ip;
ghost use Rattle.ipv4_codec.specs.HeaderFields.{fields_of};
ghost use Rattle.norm_settings.specs.SettingValues.{PlainSettings, plain_settings};
ghost use Rattle.pcap_file.specs.RecordReading.{shown};
ghost use Rattle.ip_rules.specs.RuleRows as table;
ghost use Rattle.ip_rules.specs.Datagrams.{goes_in};
ghost use Rattle.ip_rules.specs.JudgedRecord as spec;
ghost use Rattle.ip_rules.specs.working.LayerResults as working;

use arrayvec::ArrayVec;
use ipv4_codec::{IpFault, Ipv4, options, parse_into};
use norm_settings::{Settings, side_of};
use pcap_file::Record;
use rule_book::Rule;
use wire_base::{Addr, FrameKind, Link, MAX_FRAME, Side, frame_kind, protocol};

/// The fix rules that apply to a packet, in the order of their numbers.
pub type Fixes = ArrayVec<Rule, 16>;

/// A packet that no rule on the link, the header or the protocol drops.
#[derive(Debug, Drop)]
pub struct IpPacket<'a> {
    pub side: Side,
    /// The fields of its header, as captured.
    pub head: Ipv4,
    /// The whole frame as it was captured: link octets, header, payload and the octets after it.
    pub frame: &'a [u8],
    /// The octets from the header's end to the total length.
    pub payload: &'a [u8],
    pub fixes: Fixes,
}

impl<'a> IpPacket<'a> {
    ghost use Rattle.std.specs.Prelude.{◌≡◌, []};

    /// Returns a packet of this frame that is to be filled in.
    pub fn unread(frame: &'a [u8]) -> IpPacket<'a>
        ensures frame { result.frame.now ≡ frame.now }
        ensures fixes { result.fixes.items ≡ [] }
    {
        IpPacket {
            side: Side::Inward,
            head: Ipv4::default(),
            frame,
            payload: frame,
            fixes: Fixes::new(),
        }
    }
}

/// The result of judging a record whose packet the caller keeps.
#[derive(Clone, Copy, Debug)]
pub enum IpKind {
    /// ARP that no rule on the link drops.
    Arp,
    /// The rule that drops the record, and, from I_OPT_BAD on, the side.
    Drop(Option<Side>, Rule),
    /// A fragment. I_TTL is judged for its whole datagram only.
    Piece,
    /// A packet that is no fragment.
    Whole,
}

/// The result of judging a record.
#[derive(Debug, Drop)]
pub enum IpJudged<'a> {
    /// ARP that no rule on the link drops.
    Arp,
    /// The rule that drops the record, and, from I_OPT_BAD on, the side. The side is None under the
    /// rules 1 to 11.
    Drop(Option<Side>, Rule),
    /// A fragment. I_TTL is judged for its whole datagram only.
    Piece(IpPacket<'a>),
    /// A packet that is no fragment.
    Whole(IpPacket<'a>),
}

/// The result of the rules on the link.
enum Linked<'a> {
    Row(Rule),
    Arp,
    Packet(&'a [u8]),
}

/// Judges a record by the first rule on the link, the header or the protocol that holds. Rules 1 to
/// 14, and 41 to 44 if none of these drops the record.
pub fn judge_ip<'a>(settings: &Settings, link: Link, input: &Record<'a>) -> IpJudged<'a>
    requires prefixes { All (λ prefix. prefix.len ≤ 32) settings.now.prefixes.items }
    ensures { spec.IsJudged (plain_settings settings.now) link (shown input.now) result }
{
    let mut packet = IpPacket::unread(input.bytes);
    match judge_ip_into(settings, link, input, &mut packet) {
        IpKind::Arp => IpJudged::Arp,
        IpKind::Drop(side, rule) => IpJudged::Drop(side, rule),
        IpKind::Piece => IpJudged::Piece(packet),
        IpKind::Whole => IpJudged::Whole(packet),
    }
}

/// Judges a record by the first rule on the link, the header or the protocol that holds. Fills the
/// packet if none drops the record and it carries IPv4.
#[inline(always)]
pub fn judge_ip_into<'a>(
    settings: &Settings,
    link: Link,
    input: &Record<'a>,
    packet: &mut IpPacket<'a>,
) -> IpKind
    requires prefixes { All (λ prefix. prefix.len ≤ 32) settings.now.prefixes.items }
    ensures { spec.IsJudged (plain_settings settings.now) link (shown input.now) (spec.judged_with packet.new result) }
{
    match judge_link(link, input) {
        Linked::Row(rule) => IpKind::Drop(None, rule),
        Linked::Arp => IpKind::Arp,
        Linked::Packet(octets) => judge_packet(settings, input.side, input.bytes, octets, packet),
    }
}

/// Returns whether I_TTL applies to a datagram in this direction: it goes inwards, and its TTL does
/// not pass `hops` routers.
pub fn has_low_ttl(hops: u8, side: Side, ttl: u8) -> bool
    ensures { result ≡ (goes_in side && nat_le ttl hops) }
{
    match side {
        Side::Inward => ttl <= hops,
        Side::Outward => false,
    }
}

// Judges a record by the rules on the link.
fn judge_link<'a>(link: Link, input: &Record<'a>) -> Linked<'a>
    ensures { working.IsLinked link (shown input.now) result }
{
    if is_snapped(input) {
        return Linked::Row(Rule::LSnap);
    }
    let frame = input.bytes;
    let fits = frame.len() <= MAX_FRAME;
    match frame_kind(link, frame) {
        FrameKind::Short => Linked::Row(Rule::LShort),
        FrameKind::Arp if fits => Linked::Arp,
        FrameKind::Arp => Linked::Row(Rule::LType),
        FrameKind::Other => Linked::Row(Rule::LType),
        FrameKind::Ip(at) => Linked::Packet(&frame[at..]),
    }
}

// Returns whether fewer octets were captured than the frame had.
fn is_snapped(input: &Record<'_>) -> bool
    ensures { result ≡ table.l_snap (shown input.now) }
{
    (input.bytes.len() as u64) < u64::from(input.original)
}

// Judges the packet of a frame by the rules on the packet; `given` is the side of its record.
#[inline(always)]
fn judge_packet<'a>(
    settings: &Settings,
    given: Option<Side>,
    frame: &'a [u8],
    octets: &'a [u8],
    packet: &mut IpPacket<'a>,
) -> IpKind
    requires { All (λ prefix. prefix.len ≤ 32) settings.now.prefixes.items }
    ensures { working.IsJudgedIn (plain_settings settings.now) given frame.now octets.now (spec.judged_with packet.new result) }
{
    if let Err(fault) = parse_into(octets, &mut packet.head) {
        return IpKind::Drop(None, rule_of(fault));
    }
    let side = match side_or_row(settings, given, packet.head.src, packet.head.dst) {
        Ok(side) => side,
        Err(rule) => return IpKind::Drop(None, rule),
    };
    if let Some(rule) = content_row(&packet.head, octets) {
        return IpKind::Drop(Some(side), rule);
    }
    packet.side = side;
    packet.frame = frame;
    read_packet(settings.hops, octets, packet)
}

// Fills the payload and the fix rules of a packet that no rule drops, with these octets, and
// returns whether it is a fragment.
fn read_packet<'a>(hops: u8, octets: &'a [u8], packet: &mut IpPacket<'a>) -> IpKind
    requires fields { packet.old.head ≡ fields_of octets.now }
    requires order { packet.old.head.header ≤ packet.old.head.total }
    requires inside { packet.old.head.total ≤ length octets.now }
    ensures { (settings : PlainSettings) (given : Option Side) → settings.hops ≡ hops → working.packet_row settings given octets.now ≡ None → table.side_in settings given octets.now ≡ Some packet.old.side →
        working.IsJudgedIn settings given packet.old.frame.now octets.now (spec.judged_with packet.new result) }
{
    packet.payload = payload_of(&packet.head, octets);
    fill_fixes(&packet.head, octets, &mut packet.fixes);
    if is_fragment(&packet.head) {
        return IpKind::Piece;
    }
    let low = has_low_ttl(hops, packet.side, packet.head.ttl);
    note(&mut packet.fixes, Rule::ITtl, low);
    IpKind::Whole
}

fn is_fragment(head: &Ipv4) -> bool
    ensures { result ≡ (head.now.more || nat_lt 0 head.now.offset) }
{
    head.more || head.offset > 0
}

// Returns the rule of a fault of the header.
fn rule_of(fault: IpFault) -> Rule
    ensures { result ≡ working.rule_of fault }
{
    match fault {
        IpFault::Short => Rule::IShort,
        IpFault::Version => Rule::IVersion,
        IpFault::HeaderLength => Rule::IHlen,
        IpFault::Length => Rule::ILen,
        IpFault::Sum => Rule::ISum,
    }
}

// Returns the side of a packet from `src` to `dst`, or the rule on addresses that drops it; `given`
// is the side of its record.
fn side_or_row(settings: &Settings, given: Option<Side>, src: Addr, dst: Addr) -> Result<Side, Rule>
    requires { All (λ prefix. prefix.len ≤ 32) settings.now.prefixes.items }
    ensures { result ≡ working.side_or_row (plain_settings settings.now) given src.0 dst.0 }
{
    if is_bad_source(src, dst) {
        return Err(Rule::ISrc);
    }
    if is_bad_destination(dst) {
        return Err(Rule::IDst);
    }
    match given {
        Some(side) => Ok(side),
        None => side_of(settings, src, dst).ok_or(Rule::ISide),
    }
}

// Returns whether the source address is invalid, or is the destination address.
fn is_bad_source(src: Addr, dst: Addr) -> bool
    ensures { result ≡ table.is_bad_source src.0 dst.0 }
{
    let first = src.0 / 0x100_0000;
    first == 0 || first == 127 || first >= 224 || src.0 == dst.0
}

// Returns whether the destination address is invalid.
fn is_bad_destination(dst: Addr) -> bool
    ensures { result ≡ table.is_bad_destination dst.0 }
{
    let first = dst.0 / 0x100_0000;
    first == 0 || first == 127 || first >= 240
}

// Returns the first rule on the options and the protocol that drops the packet.
fn content_row(head: &Ipv4, packet: &[u8]) -> Option<Rule>
    requires fields { head.now ≡ fields_of packet.now }
    requires least { 20 ≤ head.now.header }
    requires inside { head.now.header ≤ length packet.now }
    ensures { result ≡ working.content_row packet.now }
{
    let Ok(facts) = options(options_of(head, packet)) else {
        return Some(Rule::IOptBad);
    };
    let known = is_known(head.protocol);
    if facts.route {
        return Some(Rule::IRoute);
    }
    if known {
        return None;
    }
    Some(Rule::PProto)
}

// Returns the options of the header.
fn options_of<'a>(head: &Ipv4, packet: &'a [u8]) -> &'a [u8]
    requires fields { head.now ≡ fields_of packet.now }
    requires least { 20 ≤ head.now.header }
    requires inside { head.now.header ≤ length packet.now }
    ensures { result.now ≡ ip.options packet.now }
{
    let header = &packet[..head.header];
    &header[20..]
}

// Returns whether the protocol is ICMP, TCP or UDP.
fn is_known(protocol: u8) -> bool
    ensures { result ≡ ((protocol == 1) || (protocol == 6) || (protocol == 17)) }
{
    protocol == protocol::ICMP || protocol == protocol::TCP || protocol == protocol::UDP
}

// Returns the payload of the packet, up to its total length.
fn payload_of<'a>(head: &Ipv4, packet: &'a [u8]) -> &'a [u8]
    requires fields { head.now ≡ fields_of packet.now }
    requires order { head.now.header ≤ head.now.total }
    requires inside { head.now.total ≤ length packet.now }
    ensures { result.now ≡ ip.payload packet.now }
{
    let whole = &packet[..usize::from(head.total)];
    &whole[head.header..]
}

// Makes these the fix rules that apply to a header, without I_TTL.
fn fill_fixes(head: &Ipv4, packet: &[u8], fixes: &mut Fixes)
    requires { head.now ≡ fields_of packet.now }
    ensures { fixes.new.items ≡ working.header_fixes packet.now }
{
    fixes.clear();
    let trail = usize::from(head.total) < packet.len();
    let longer = head.header > 20;
    note(fixes, Rule::ITrail, trail);
    note(fixes, Rule::IOpt, longer);
    note(fixes, Rule::IRes, head.reserved);
}

// Appends the rule if it holds.
fn note(fixes: &mut Fixes, rule: Rule, holds: bool)
    requires { length fixes.old.items < 16 }
    ensures { fixes.new.items ≡ fixes.old.items ++ spec.where_holds holds rule }
{
    if holds {
        fixes.push(rule);
    }
}
