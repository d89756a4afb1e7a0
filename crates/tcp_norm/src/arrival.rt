//! A datagram as it arrives, with the header of its segment read: what an era is asked about it,
//! its options as they are sent, and the rules that rewrite it.
ghost use Rattle.std.specs.Prelude.{◌≡◌, ◌≤◌, [], length, ◌<◌, ◌^◌, ◌+◌, ◌%◌, false, true, if◌then◌else◌, ◌++◌, ◌==◌, ◌&&◌, ◌||◌, nat_lt, ◌-◌, not};
ghost use Rattle.tcp_norm.specs.working.ReadHeads.{IsRead, AreBits};
ghost use Rattle.wire_base.specs.declared.limits.TheConstants.{MAX_FRAME, MAX_LINK, MAX_PAYLOAD};
ghost use Rattle.wire_base.specs.Options.{are_well_formed, cleaned};
ghost use Rattle.era_state.specs.SegmentFields.{received, sent, came};
ghost use Rattle.wire_base.specs.declared.address.Side.TheVariants.{Inward, Outward};
ghost use Rattle.tcp_norm.specs.Calls.{key_at, read};
ghost use Rattle.tcp_norm.specs.RuleRows.{differ};
ghost use Rattle.tcp_norm.specs.working.InwardSegments.{bare_read};
ghost use Rattle.tcp_norm.specs.working.RewriteTests.{header_rows, stream_rows, bare_rows};
ghost use Rattle.ip_rules.specs.JudgedRecord.{where_holds};
ghost use Rattle.wire_base.specs.Tcp as tcp;
ghost use Rattle.wire_base.specs.Options as spec;

use crate::emit::flags_sent;
use arrayvec::ArrayVec;
use era_state::{Interval, Seg};
use ip_rules::IpPacket;
use ipv4_codec::Ipv4;
use rule_book::Rule;
use tcp_codec::laws::{cleaned_keep_the_scale, cleaned_lose_the_scale, options_are_cleaned};
use tcp_codec::{Tcp, scale_of};
use wire_base::FlowKey;

/// A datagram that arrives at this time after these link octets.
#[derive(Clone, Copy)]
pub(crate) struct Arrival<'a> {
    pub(crate) time: u32,
    pub(crate) packet: &'a IpPacket<'a>,
    pub(crate) link: &'a [u8],
    pub(crate) head: &'a Tcp,
    ghost short: { length packet.now.payload.now ≤ MAX_PAYLOAD },
    ghost read: { IsRead packet.now.payload.now head.now },
    ghost brief: { length link.now ≤ MAX_LINK },
    ghost framed: { packet.now.fixes.items ≡ [] → length packet.now.frame.now ≤ MAX_FRAME },
    ghost few: { length packet.now.fixes.items ≤ 6 },
}

/// Returns the segment of these octets, whose header was read.
pub(crate) fn seg_of(arrival: &Arrival<'_>) -> Seg
    ensures inward { received result (tcp.payload arrival.now.packet.now.payload.now) ≡ read true arrival.now.packet.now.payload.now }
    ensures outward { sent result (tcp.payload arrival.now.packet.now.payload.now) ≡ read false arrival.now.packet.now.payload.now }
    ensures len { result.len ≡ length (tcp.payload arrival.now.packet.now.payload.now) }
    ensures flags { result.flags ≡ arrival.now.head.now.flags }
{
    let octets = arrival.packet.payload;
    let head = arrival.head;
    Seg {
        seq: head.seq,
        ack: head.ack,
        len: (octets.len() - head.header) as u32,
        window: head.window,
        flags: head.flags,
        scale: scale_of(options_of(arrival)),
    }
}

/// Returns the four-tuple of an outbound segment.
pub(crate) fn outward_key(arrival: &Arrival<'_>) -> FlowKey
    ensures { result ≡ key_at Outward arrival.now.packet.now.head arrival.now.packet.now.payload.now }
{
    let ip = &arrival.packet.head;
    let head = arrival.head;
    FlowKey {
        outside: ip.dst,
        outside_port: head.dport,
        inside: ip.src,
        inside_port: head.sport,
    }
}

/// Returns the four-tuple of an inbound segment.
pub(crate) fn inward_key(arrival: &Arrival<'_>) -> FlowKey
    ensures { result ≡ key_at Inward arrival.now.packet.now.head arrival.now.packet.now.payload.now }
{
    let ip = &arrival.packet.head;
    let head = arrival.head;
    FlowKey {
        outside: ip.src,
        outside_port: head.sport,
        inside: ip.dst,
        inside_port: head.dport,
    }
}

/// Proves that the addresses of a datagram have 32 bits, and its octets 8.
pub(crate) fn are_bits(ip: &Ipv4, octets: &[u8])
    ensures { AreBits ip.now octets.now }
{
    has_bits(ip.src.0);
    has_bits(ip.dst.0);
    let _count = octets.len();
}

// Proves that a number has 32 bits.
fn has_bits(number: u32)
    ensures { number < 2 ^ 32 }
{}

/// Returns what goes inwards of a SYN or a RST: without octets and urgent marks, with cleaned
/// options.
pub(crate) fn bare_seg(arrival: &Arrival<'_>) -> Seg
    ensures read { came result ≡ bare_read arrival.now.packet.now.payload.now }
    ensures flags { tcp.are_legal result.flags.0 ≡ true }
{
    let head = arrival.head;
    Seg {
        seq: head.seq,
        ack: head.ack,
        len: 0,
        window: head.window,
        flags: flags_sent(head.flags, true),
        scale: scale_sent(arrival),
    }
}

// Returns the window shift of the options of a segment as they are sent: only a SYN keeps it.
fn scale_sent(arrival: &Arrival<'_>) -> Option<u8>
    ensures { result ≡ spec.scale_of (cleaned (tcp.has_syn arrival.now.head.now.flags.0) (tcp.options arrival.now.packet.now.payload.now)) }
{
    cleaned_keep_the_scale();
    cleaned_lose_the_scale();
    if arrival.head.flags.syn() {
        scale_of(options_of(arrival))
    } else {
        None
    }
}

/// Returns what a segment carries.
pub(crate) fn payload_of<'a>(arrival: &Arrival<'a>) -> &'a [u8]
    ensures { result.now ≡ tcp.payload arrival.now.packet.now.payload.now }
{
    let octets = arrival.packet.payload;
    let head = arrival.head;
    &octets[head.header..]
}

/// Returns the options of a segment.
pub(crate) fn options_of<'a>(arrival: &Arrival<'a>) -> &'a [u8]
    ensures area { result.now ≡ tcp.options arrival.now.packet.now.payload.now }
    ensures formed { are_well_formed result.now ≡ true }
    ensures words { length result.now % 4 ≡ 0 }
    ensures size { 20 + length result.now ≡ arrival.now.head.now.header }
{
    &arrival.packet.payload[20..arrival.head.header]
}

/// Returns whether the options of a segment change as it is sent.
pub(crate) fn options_change(arrival: &Arrival<'_>) -> bool
    ensures changed { result ≡ differ (cleaned (tcp.has_syn arrival.now.head.now.flags.0) (tcp.options arrival.now.packet.now.payload.now)) (tcp.options arrival.now.packet.now.payload.now) }
    ensures words { length (cleaned (tcp.has_syn arrival.now.head.now.flags.0) (tcp.options arrival.now.packet.now.payload.now)) % 4 ≡ 0 }
    ensures size { 20 + length (cleaned (tcp.has_syn arrival.now.head.now.flags.0) (tcp.options arrival.now.packet.now.payload.now)) ≡ arrival.now.head.now.header }
{
    options_are_cleaned();
    let options = options_of(arrival);
    if options.is_empty() {
        return false;
    }
    tcp_codec::options_change(options, arrival.head.flags.syn())
}

// Appends the rule where it holds.
pub(crate) fn note(rules: &mut ArrayVec<Rule, 16>, rule: Rule, holds: bool)
    requires { length rules.old.items < 16 }
    ensures adds { rules.new.items ≡ rules.old.items ++ where_holds holds rule }
    ensures few { length rules.new.items ≤ length rules.old.items + 1 }
{
    if holds {
        rules.push(rule);
    }
}

// Returns whether URG is set or the urgent pointer is not 0.
fn is_urgent(head: &Tcp) -> bool
    ensures { result ≡ (tcp.has_urg head.now.flags.0 || not (head.now.urgent == 0)) }
{
    let flag = head.flags.urg();
    let pointer = head.urgent != 0;
    flag || pointer
}

// Returns the rules on the header that hold; `options` says whether options change.
#[inline]
fn rows_on_header(head: &Tcp, options: bool) -> ArrayVec<Rule, 16>
    ensures few { length result.items ≤ 5 }
    ensures rows { result.items ≡ header_rows head.now options }
{
    let mut rules = ArrayVec::new();
    let reserved = head.reserved != 0;
    let urgent = is_urgent(head);
    note(&mut rules, Rule::TRes, reserved);
    note(&mut rules, Rule::TUrg, urgent);
    note(&mut rules, Rule::TOpt, options);
    rules
}

/// Returns the rules that apply to a segment. `kept` is the interval that goes inwards, `options`
/// says whether options change, and `clash` whether an octet differs from the one that was sent
/// first at its offset.
pub(crate) fn rows_of(head: &Tcp, options: bool, kept: &Interval, clash: bool) -> ArrayVec<Rule, 16>
    ensures few { length result.items ≤ 9 }
    ensures rows { result.items ≡ stream_rows (header_rows head.now options) kept.now clash }
{
    let mut rules = rows_on_header(head, options);
    note(&mut rules, Rule::TOld, kept.below);
    note(&mut rules, Rule::TWindow, kept.window);
    note(&mut rules, Rule::TEnd, kept.end);
    note(&mut rules, Rule::TClash, clash);
    rules
}

// Returns whether a SYN or a RST carries octets.
fn is_loaded(arrival: &Arrival<'_>) -> bool
    ensures { result ≡ ((tcp.has_syn arrival.now.head.now.flags.0 || tcp.has_rst arrival.now.head.now.flags.0) && nat_lt 0 (length arrival.now.packet.now.payload.now - arrival.now.head.now.header)) }
{
    let syn = arrival.head.flags.syn();
    let rst = arrival.head.flags.rst();
    let some = arrival.packet.payload.len() > arrival.head.header;
    (syn || rst) && some
}

/// Returns the rules that apply to a segment that brings no octet of the stream; `options` says
/// whether options change, `probe` whether a probe is sent.
pub(crate) fn rows_beside(arrival: &Arrival<'_>, options: bool, probe: bool) -> ArrayVec<Rule, 16>
    ensures few { length result.items ≤ 9 }
    ensures rows { result.items ≡ bare_rows (header_rows arrival.now.head.now options)
        ((tcp.has_syn arrival.now.head.now.flags.0 || tcp.has_rst arrival.now.head.now.flags.0) && nat_lt 0 (length arrival.now.packet.now.payload.now - arrival.now.head.now.header)) probe }
{
    let loaded = is_loaded(arrival);
    let mut rules = rows_on_header(arrival.head, options);
    note(&mut rules, Rule::TStrip, loaded);
    note(&mut rules, Rule::CProbe, probe);
    rules
}
