//! The judgment of a record by the rules before those of eras, in the order of testing.
ghost use Rattle.std.specs.Prelude.{◌≡◌, ◌<◌, ◌≤◌, ◌^◌, ◌==◌, ◌&&◌, ◌||◌, not, true, ℕ, List, [], ◌∷◌, All, length, Some};
ghost use Rattle.norm_settings.specs.SettingValues.{PlainSettings, plain_settings};
ghost use Rattle.pcap_file.specs.RecordReading.{shown};
ghost use Rattle.icmp_codec.specs.QuotedPacket.{quoted_in};
ghost use Rattle.tcp_codec.specs.HeaderFields.{is_judged};
ghost use Rattle.ip_rules.specs.Datagrams.{datagram_with, goes_in};
ghost use Rattle.tcp_norm.specs.Calls.{Call};
ghost use Rattle.tcp_norm.specs.TableAndStore as flows;
ghost use Rattle.reassembly.specs.DatagramFragments.{fragment_of, IsPiece};
ghost use Rattle.reassembly.specs.Calls as reassembly;
ghost use Rattle.reassembly.specs.AssemblyState as fragments;
ghost use Rattle.reassembly.specs.RuleRows.{answer_at, call_of};
ghost use Rattle.norm_engine.specs.Fragments.{fragment_with, fragment_in, offering_of, with_offered};
ghost use Rattle.norm_engine.specs.Calls.{Past};
ghost use Rattle.norm_engine.specs.Trace.{is_quoted_live};
ghost use Rattle.norm_engine.specs.working.DatagramJudgment.{judged_with};
ghost use Rattle.norm_engine.specs.working.RecordJudgment.{judgment_of, judgment_with};
ghost use Rattle.norm_engine.specs.working.EngineAnswers as spec;
ghost use Rattle.wire_base.specs.declared.limits.TheConstants.{MAX_PAYLOAD};
ghost use Rattle.rule_book.specs.declared.entry.TheConstants.{MAX_NAMED};

use crate::written::have_octets;
use dgram_rules::laws::{datagrams_tell_the_rows, others_have_no_row};
use dgram_rules::{DgramJudged, judge_icmp, judge_udp};
use icmp_codec::quoted;
use ip_rules::laws::datagrams_are_known;
use ip_rules::{IpKind, IpPacket, has_low_ttl, judge_ip_into};
use norm_settings::Settings;
use pcap_file::Record;
use reassembly::{Assembly, Offered, Piece, Whole};
use rule_book::Rule;
use tcp_codec::{SumRule, Tcp, TcpFault, parse_into};
use tcp_norm::TcpNorm;
use wire_base::{FlowKey, Link, Side, protocol, pseudo_sum};

/// The packet of a record and the header of its segment, filled in as the rules on them are tested.
#[derive(Drop)]
pub struct Parsed<'a> {
    pub packet: IpPacket<'a>,
    pub head: Tcp,
}

impl<'a> Parsed<'a> {
    /// Returns a packet of this frame and a header, with no field read yet.
    pub fn unread(frame: &'a [u8]) -> Parsed<'a>
        ensures frame { result.packet.frame.now ≡ frame.now }
        ensures fixes { result.packet.fixes.items ≡ [] }
    {
        Parsed {
            packet: IpPacket::unread(frame),
            head: Tcp::default(),
        }
    }
}

/// Decision on a record.
#[derive(Clone, Copy, Debug)]
pub enum Decision {
    /// It is ARP, and is written as it was read.
    Arp,
    /// This rule drops it; its side, if it was known by then.
    Drop(Option<Side>, Rule),
    /// It is a fragment to this side that is held.
    Hold(Side),
    /// Its packet is written, rewritten by the rules that it names; the flag is true if its UDP
    /// checksum is corrected.
    Send(bool),
    /// It is a TCP segment, which its connection decides.
    Segment,
}

/// Answer of the rules on a complete datagram.
#[derive(Clone, Copy, Debug)]
pub enum Answer {
    /// No rule holds.
    Pass,
    /// It is written with its UDP checksum corrected.
    Mend,
    /// This rule drops it.
    Drop(Rule),
    /// It is a TCP segment.
    Segment,
}

/// Judges a record by the rules before those of eras. A fragment is offered to those held. If it
/// completes its datagram, the datagram is written to the front of the buffer and judged. Fills
/// what is read of the record.
#[inline(always)]
pub fn judge<'a>(
    settings: &Settings,
    link: Link,
    norm: &TcpNorm,
    pieces: &mut Assembly,
    buffer: &'a mut [u8],
    now: u32,
    input: &Record<'a>,
    parsed: &mut Parsed<'a>,
) -> Decision
    requires prefixes { All (λ prefix. prefix.len ≤ 32) settings.now.prefixes.items }
    requires buffer { MAX_PAYLOAD ≤ length buffer.old }
    requires late { fragments.last_time pieces.old ≤ now }
    ensures read { spec.SegmentIsRead (judgment_with parsed.new result) }
    ensures rows { (past : Past) → flows.StandsFor (plain_settings settings.now) norm.now past.calls → fragments.StandsFor (plain_settings settings.now) pieces.old past.pieces →
        spec.Judges (plain_settings settings.now) link (spec.read_with (plain_settings settings.now) link past (shown input.now)) (shown input.now) (judgment_with parsed.new result) }
    ensures pieces { (calls : List reassembly.Call) → fragments.StandsFor (plain_settings settings.now) pieces.old calls →
        fragments.StandsFor (plain_settings settings.now) pieces.new
        (with_offered (plain_settings settings.now) (fragment_in (plain_settings settings.now) link (shown input.now)) now calls) }
    ensures passed { fragments.last_time pieces.new ≤ now }
{
    datagrams_are_known();
    have_octets(input.bytes);
    match judge_ip_into(settings, link, input, &mut parsed.packet) {
        IpKind::Arp => Decision::Arp,
        IpKind::Drop(side, rule) => Decision::Drop(side, rule),
        IpKind::Piece => judge_piece(settings, norm, pieces, buffer, now, parsed),
        IpKind::Whole => judge_whole(settings, norm, parsed),
    }
}

// Judges a fragment by the rules on fragments, and the datagram that it completes by the rules
// after them.
#[inline(always)]
fn judge_piece<'a>(
    settings: &Settings,
    norm: &TcpNorm,
    pieces: &mut Assembly,
    buffer: &'a mut [u8],
    now: u32,
    parsed: &mut Parsed<'a>,
) -> Decision
    requires prefixes { All (λ prefix. prefix.len ≤ 32) settings.now.prefixes.items }
    requires buffer { MAX_PAYLOAD ≤ length buffer.old }
    requires late { fragments.last_time pieces.old ≤ now }
    requires piece { IsPiece (fragment_with parsed.old.packet.head parsed.old.packet.payload.now) }
    requires known { ((parsed.old.packet.head.protocol == 1) || (parsed.old.packet.head.protocol == 6) || (parsed.old.packet.head.protocol == 17)) ≡ true }
    requires few { length parsed.old.packet.fixes.items ≤ 4 }
    ensures read { spec.SegmentIsRead (judgment_with parsed.new result) }
    ensures rows { (calls : List Call) (offers : List reassembly.Call) → flows.StandsFor (plain_settings settings.now) norm.now calls →
        fragments.StandsFor (plain_settings settings.now) pieces.old offers →
        let o = offering_of (plain_settings settings.now) offers (fragment_with parsed.old.packet.head parsed.old.packet.payload.now) in
        spec.IsPieceJudged (plain_settings settings.now) calls o parsed.old.packet (judgment_with parsed.new result) (answer_at o.view o.piece) }
    ensures pieces { (offers : List reassembly.Call) → fragments.StandsFor (plain_settings settings.now) pieces.old offers →
        fragments.StandsFor (plain_settings settings.now) pieces.new (call_of (plain_settings settings.now) offers now (fragment_with parsed.old.packet.head parsed.old.packet.payload.now) ∷ offers) }
    ensures passed { fragments.last_time pieces.new ≤ now }
{
    match pieces.offer(now, &piece_of(&parsed.packet), buffer) {
        Offered::Held => Decision::Hold(parsed.packet.side),
        Offered::Drop(rule) => Decision::Drop(Some(parsed.packet.side), rule),
        Offered::Done(whole) => {
            let octets = &buffer[..whole.len];
            have_octets(octets);
            make_whole(&whole, octets, settings.hops, &mut parsed.packet);
            judge_whole(settings, norm, parsed)
        }
    }
}

// Judges a complete datagram by the rules on it.
#[inline(always)]
fn judge_whole(settings: &Settings, norm: &TcpNorm, parsed: &mut Parsed<'_>) -> Decision
    requires prefixes { All (λ prefix. prefix.len ≤ 32) settings.now.prefixes.items }
    requires known { ((parsed.old.packet.head.protocol == 1) || (parsed.old.packet.head.protocol == 6) || (parsed.old.packet.head.protocol == 17)) ≡ true }
    requires size { length parsed.old.packet.payload.now < 2 ^ 16 }
    requires few { length parsed.old.packet.fixes.items < 16 }
    ensures read { spec.SegmentIsRead (judgment_with parsed.new result) }
    ensures rows { (calls : List Call) (header : List ℕ) → flows.StandsFor (plain_settings settings.now) norm.now calls →
        spec.IsWholeJudged (plain_settings settings.now) calls header parsed.old.packet (judgment_with parsed.new result) }
{
    let answer = judge_datagram(settings, norm, &parsed.packet, &mut parsed.head);
    joined(answer, &mut parsed.packet)
}

// Returns the fragment in a packet.
fn piece_of<'a>(packet: &IpPacket<'a>) -> Piece<'a>
    ensures { fragment_of result ≡ fragment_with packet.now.head packet.now.payload.now }
{
    Piece {
        src: packet.head.src,
        dst: packet.head.dst,
        protocol: packet.head.protocol,
        ident: packet.head.ident,
        offset: packet.head.offset,
        more: packet.head.more,
        df: packet.head.df,
        tos: packet.head.tos,
        ttl: packet.head.ttl,
        bytes: packet.payload,
    }
}

// Makes the packet of a fragment that of its complete datagram, with these octets.
fn make_whole<'a>(whole: &Whole, octets: &'a [u8], hops: u8, packet: &mut IpPacket<'a>)
    requires { length packet.old.fixes.items ≤ MAX_NAMED }
    ensures { spec.IsMadeWhole hops packet.old whole.now octets.now packet.new }
{
    packet.head.tos = whole.tos;
    packet.head.df = whole.df;
    packet.head.more = false;
    packet.head.offset = 0;
    packet.head.ttl = whole.ttl;
    packet.payload = octets;
    if has_low_ttl(hops, packet.side, whole.ttl) {
        packet.fixes.push(Rule::ITtl);
    }
    packet.fixes.push(Rule::FDone);
}

// Returns the decision on a packet whose datagram has this answer.
fn joined(answer: Answer, packet: &mut IpPacket<'_>) -> Decision
    requires { length packet.old.fixes.items < 16 }
    ensures { (head : Tcp) → judgment_of packet.new head result ≡ spec.joined packet.old (judged_with head answer) }
{
    match answer {
        Answer::Pass => Decision::Send(false),
        Answer::Drop(rule) => Decision::Drop(Some(packet.side), rule),
        Answer::Mend => {
            packet.fixes.push(Rule::USumOut);
            Decision::Send(true)
        }
        Answer::Segment => Decision::Segment,
    }
}

// Returns the answer to the datagram of a packet, and fills the header of its segment. It is part
// of the step, and the rules on each protocol are separate functions, so that a record saves only
// the registers that its protocol needs.
#[inline(always)]
fn judge_datagram(
    settings: &Settings,
    norm: &TcpNorm,
    packet: &IpPacket<'_>,
    head: &mut Tcp,
) -> Answer
    requires prefixes { All (λ prefix. prefix.len ≤ 32) settings.now.prefixes.items }
    requires known { ((packet.now.head.protocol == 1) || (packet.now.head.protocol == 6) || (packet.now.head.protocol == 17)) ≡ true }
    requires size { length packet.now.payload.now < 2 ^ 16 }
    ensures read { (header : List ℕ) → spec.HeadIsRead (datagram_with header packet.now) (judged_with head.new result) }
    ensures rows { (calls : List Call) (header : List ℕ) → flows.StandsFor (plain_settings settings.now) norm.now calls →
        spec.Follows (plain_settings settings.now) (is_quoted_live calls (quoted_in packet.now.payload.now)) (datagram_with header packet.now) (judged_with head.new result) }
{
    datagrams_tell_the_rows();
    others_have_no_row();
    match packet.head.protocol {
        protocol::UDP => of_rows(judge_udp(settings, packet)),
        protocol::ICMP => {
            let live = quotes_live(norm, packet.payload);
            of_rows(judge_icmp(settings, packet, live))
        }
        _ => read_segment(settings, packet, head),
    }
}

// Returns the answer of the rules on UDP and ICMP.
fn of_rows(judged: DgramJudged) -> Answer
    ensures { (head : Tcp) → judged_with head result ≡ spec.of_rows judged }
{
    match judged {
        DgramJudged::Pass => Answer::Pass,
        DgramJudged::Mend => Answer::Mend,
        DgramJudged::Drop(rule) => Answer::Drop(rule),
    }
}

// Returns whether an era is live for the connection that an ICMP error quotes.
fn quotes_live(norm: &TcpNorm, message: &[u8]) -> bool
    ensures { (settings : PlainSettings) (calls : List Call) → flows.StandsFor settings norm.now calls →
        result ≡ is_quoted_live calls (quoted_in message.now) }
{
    let Some(quote) = quoted(message) else {
        return false;
    };
    norm.live(&FlowKey {
        outside: quote.dst,
        outside_port: quote.dport,
        inside: quote.src,
        inside_port: quote.sport,
    })
}

// Fills the header of a TCP segment, or returns the first rule on it that holds.
#[inline(never)]
fn read_segment(settings: &Settings, packet: &IpPacket<'_>, head: &mut Tcp) -> Answer
    requires { length packet.now.payload.now < 2 ^ 16 }
    ensures { (header : List ℕ) → spec.IsReadSegment (plain_settings settings.now) (datagram_with header packet.now) (judged_with head.new result) }
{
    let size = packet.payload.len() as u16;
    let pseudo = pseudo_sum(packet.head.src, packet.head.dst, packet.head.protocol, size);
    let rule = sum_rule(settings, packet.side);
    match parse_into(packet.payload, pseudo, rule, head) {
        Ok(()) => Answer::Segment,
        Err(fault) => Answer::Drop(rule_of(fault)),
    }
}

// Returns whether the checksum of a segment must be right: not if it is outbound and checksums are
// left to the sender's interface.
fn sum_rule(settings: &Settings, side: Side) -> SumRule
    ensures { is_judged result ≡ not (not (goes_in side) && settings.now.offload) }
{
    match side {
        Side::Outward if settings.offload => SumRule::Skip,
        _ => SumRule::Must,
    }
}

// Returns the rule for a fault of a segment's header.
fn rule_of(fault: TcpFault) -> Rule
    ensures { result ≡ spec.rule_of fault }
{
    match fault {
        TcpFault::Short => Rule::TShort,
        TcpFault::DataOffset => Rule::THlen,
        TcpFault::Sum => Rule::TSum,
        TcpFault::Flags => Rule::TFlags,
        TcpFault::Options => Rule::TOptBad,
    }
}
