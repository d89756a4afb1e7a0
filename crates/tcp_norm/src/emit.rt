//! Carries out a ruling: what is reported of a segment, and the packets that are sent for it.
ghost use Rattle.std.specs.Prelude.{◌≡◌, ◌<◌, ◌≤◌, ◌++◌, length, ◌+◌, [], ◌∷◌, ◌-◌, ◌%◌, drop, false, if◌then◌else◌, List, None, is_some};
ghost use Rattle.tcp_norm.specs.PassedPackets.{given, IsUnsent, Reports};
ghost use Rattle.tcp_norm.specs.working.PassingRoom.{IsBlank, HasRoom};
ghost use Rattle.tcp_norm.specs.working.Rulings.{probe_frames, outcome_of};
ghost use Rattle.ipv4_codec.specs.WrittenHeader.{plain_header};
ghost use Rattle.tcp_codec.specs.MendedSegment.{mended};
ghost use Rattle.tcp_codec.specs.WrittenSegment.{segment_octets};
ghost use Rattle.tcp_norm.specs.working.RewrittenSegments.{rewritten};
ghost use Rattle.tcp_norm.specs.EmittedPackets.{without_flag, flags_cleared};
ghost use Rattle.wire_base.specs.declared.limits.TheConstants.{MAX_LINK, MAX_PAYLOAD};
ghost use Rattle.wire_base.specs.Segments.{Written};
ghost use Rattle.norm_settings.specs.SettingValues.{PlainSettings};
ghost use Rattle.ip_rules.specs.Datagrams.{Datagram, IsDatagram, Packet};
ghost use Rattle.tcp_norm.specs.Outcomes.{verdict_of};
ghost use Rattle.tcp_norm.specs.working.EraSteps.{listed};
ghost use Rattle.tcp_norm.specs.working.InwardSegments.{passed};
ghost use Rattle.ip_rules.specs.Datagrams as spec;
ghost use Rattle.wire_base.specs.Checksums as sums;
ghost use Rattle.wire_base.specs.Tcp as tcp;
ghost use Rattle.rule_book.specs.declared.rule.Rule.TheVariants as rules;
ghost use Rattle.rule_book.specs.declared.entry.Verdict.TheVariants as verdicts;

use crate::arrival::{Arrival, note, options_of};
use crate::state::TcpNorm;
use crate::step::{Passage, Ruling, Step};
use arrayvec::ArrayVec;
use edge_io::Outbox;
use era_state::Probe;
use ip_rules::Fixes;
use ip_rules::write::{head_sent, put_anew, put_read, raised};
use ipv4_codec::Ipv4;
use reset_probe::write_probe;
use rule_book::{Ended, Entry, Rule, Verdict};
use tcp_codec::laws::mended_say_the_same;
use tcp_codec::{SegmentParts, mend, write_cleaned};
use wire_base::{Flags, Side, protocol, pseudo_sum};

impl TcpNorm {
    ghost use Rattle.std.specs.Prelude.{List, [], ◌∷◌, ◌==◌, false, true};
    ghost use Rattle.wire_base.specs.Segments.{Written};
    ghost use Rattle.norm_settings.specs.SettingValues.{PlainSettings};
    ghost use Rattle.ip_rules.specs.Datagrams.{Datagram, frames_of, IsDatagram};
    ghost use Rattle.rule_book.specs.declared.rule.Rule.{Rule};
    ghost use Rattle.tcp_norm.specs.TableAndStore.{IsFor};
    ghost use Rattle.tcp_norm.specs.PassedPackets.{given, IsUnsent};
    ghost use Rattle.tcp_norm.specs.working.PassingRoom.{IsBlank, HasRoom};
    ghost use Rattle.tcp_norm.specs.declared.step.Ruling.TheVariants.{Pass};
    ghost use Rattle.tcp_norm.specs.working.Rulings.{CarriesOut, Fits, outcome_of, IsCarried, IsSame, IsShort, IsRewritten};
    ghost use Rattle.tcp_norm.specs.EmittedPackets.{packet_by};
    ghost use Rattle.wire_base.specs.Tcp as tcp;

    /// Carries out a ruling: writes it into the entry, and puts its packets into the empty outbox.
    /// Returns true, with nothing in the outbox, only if there is one and it is the frame that was
    /// read.
    pub(crate) fn carry_out(
        &mut self,
        ruling: &Ruling,
        arrival: &Arrival<'_>,
        out: &mut Outbox,
        entry: &mut Entry,
    ) -> bool
        requires empty { IsBlank out.old }
        requires ended { HasRoom entry.old }
        requires short { IsShort arrival.now ruling.now }
        ensures { CarriesOut arrival.now self.old self.new entry.old entry.new out.new result ruling.now }
    {
        report(ruling, arrival, entry);
        self.emit(ruling, arrival, out)
    }

    /// Carries out the ruling of a segment that passes. Most are sent alone and as they were read:
    /// for these no ruling is built in memory.
    #[inline(always)]
    pub(crate) fn pass(
        &mut self,
        passage: Passage,
        arrival: &Arrival<'_>,
        out: &mut Outbox,
        entry: &mut Entry,
    ) -> bool
        requires empty { IsBlank out.old }
        requires ended { HasRoom entry.old }
        requires short { Fits arrival.now passage }
        ensures { CarriesOut arrival.now self.old self.new entry.old entry.new out.new result (Pass passage) }
    {
        if passage.rows.is_empty() && passage.probe.is_none() {
            let fixes = &arrival.packet.fixes;
            report_passed(&passage.step, fixes, &passage.rows, 1, entry);
            return self.emit_read(arrival, out);
        }
        self.carry_out(&Ruling::Pass(passage), arrival, out, entry)
    }

    // Puts the packets of a ruling into the empty outbox. Returns true, with nothing in it, only
    // if there is one and it is the frame that was read.
    fn emit(&mut self, ruling: &Ruling, arrival: &Arrival<'_>, out: &mut Outbox) -> bool
        requires empty { IsBlank out.old }
        requires short { IsShort arrival.now ruling.now }
        ensures same { IsSame self.old self.new }
        ensures unsent { IsUnsent result arrival.now.packet.now.frame.now out.new }
        ensures frames { (settings : PlainSettings) (ws : List Written) (d : Datagram) → IsFor settings self.old → IsDatagram arrival.now.packet.now arrival.now.link.now d →
            IsCarried ws d arrival.now self.old.scratch.items ruling.now →
            given result arrival.now.packet.now.frame.now out.new ≡ frames_of arrival.now.link.now (outcome_of settings ws d ruling.now).packets }
    {
        let hops = self.limits.hops;
        match ruling {
            Ruling::Drop(refusal) => {
                put_probe(arrival, hops, refusal.probe, out);
                false
            }
            Ruling::Ask(question) => {
                put_probe(arrival, hops, Some(question.probe), out);
                false
            }
            Ruling::Pass(passage) => match passage.probe {
                None => self.emit_own(passage, arrival, out),
                Some(probe) => {
                    let as_read = self.emit_own(passage, arrival, out);
                    put_given(as_read, arrival.packet.frame, out);
                    put_probe(arrival, hops, Some(probe), out);
                    false
                }
            },
        }
    }

    // Puts the packet of a segment that passes into the empty outbox. Returns true, with nothing in
    // it, only if it is the frame that was read.
    #[inline(always)]
    fn emit_own(&mut self, passage: &Passage, arrival: &Arrival<'_>, out: &mut Outbox) -> bool
        requires short { Fits arrival.now passage.now }
        requires empty { IsBlank out.old }
        ensures same { IsSame self.old self.new }
        ensures unsent { IsUnsent result arrival.now.packet.now.frame.now out.new }
        ensures one { result ≡ false → length out.new ≡ 1 }
        ensures frames { (settings : PlainSettings) (d : Datagram) (ws : List Written) → IsFor settings self.old → IsDatagram arrival.now.packet.now arrival.now.link.now d →
            IsRewritten ws d arrival.now self.old.scratch.items passage.now →
            given result arrival.now.packet.now.frame.now out.new ≡ frames_of arrival.now.link.now (packet_by settings ws d d.fixes passage.now.rows.items ∷ []) }
    {
        if !passage.rows.is_empty() {
            self.emit_rewritten(passage, arrival, out);
            return false;
        }
        self.emit_read(arrival, out)
    }

    // Puts the packet of a segment to which no rule of its connection applies into the empty
    // outbox. Returns true, with nothing in it, only if it is the frame that was read.
    #[inline(always)]
    fn emit_read(&self, arrival: &Arrival<'_>, out: &mut Outbox) -> bool
        requires empty { IsBlank out.old }
        ensures unsent { IsUnsent result arrival.now.packet.now.frame.now out.new }
        ensures one { result ≡ false → length out.new ≡ 1 }
        ensures frames { (settings : PlainSettings) (d : Datagram) (ws : List Written) (rows : List Rule) → IsFor settings self.now → IsDatagram arrival.now.packet.now arrival.now.link.now d →
            (length rows == 0) ≡ true →
            given result arrival.now.packet.now.frame.now out.new ≡ frames_of arrival.now.link.now (packet_by settings ws d d.fixes rows ∷ []) }
    {
        let packet = arrival.packet;
        if packet.fixes.is_empty() {
            return true;
        }
        let head = head_sent(packet, self.limits.hops);
        put_anew(arrival.link, &head, packet.payload, out);
        false
    }

    // Puts the packet of a segment that a rule rewrites: an inbound one with what its passage says,
    // an outbound one with a correct checksum.
    fn emit_rewritten(&mut self, passage: &Passage, arrival: &Arrival<'_>, out: &mut Outbox)
        requires short { Fits arrival.now passage.now }
        requires some { (length passage.now.rows.items == 0) ≡ false }
        requires empty { IsBlank out.old }
        ensures same { IsSame self.old self.new }
        ensures one { length out.new ≡ 1 }
        ensures frames { (settings : PlainSettings) (d : Datagram) (ws : List Written) → IsFor settings self.old → IsDatagram arrival.now.packet.now arrival.now.link.now d →
            IsRewritten ws d arrival.now self.old.scratch.items passage.now →
            out.new ≡ frames_of arrival.now.link.now (packet_by settings ws d d.fixes passage.now.rows.items ∷ []) }
    {
        let packet = arrival.packet;
        let head = head_sent(packet, self.limits.hops);
        match packet.side {
            Side::Inward => {
                let sent = &self.scratch[..passage.size];
                put_rewritten(arrival, &head, passage, sent, &mut self.page, out);
            }
            Side::Outward => {
                put_mended(arrival.link, &head, packet.payload, &mut self.page, out);
            }
        }
    }
}

/// Puts a frame into the empty outbox if it is sent as it was read.
pub(crate) fn put_given(as_read: bool, frame: &[u8], out: &mut Outbox)
    requires { IsUnsent as_read frame.now out.old }
    ensures { out.new ≡ given as_read frame.now out.old }
{
    if as_read {
        put_read(frame, out);
    }
}

// Puts a packet with a plain header and a correct checksum of its segment into the empty outbox.
fn put_mended(link: &[u8], head: &Ipv4, segment: &[u8], page: &mut [u8], out: &mut Outbox)
    requires empty { IsBlank out.old }
    requires link { length link.now ≤ MAX_LINK }
    requires short { length segment.now ≤ MAX_PAYLOAD }
    requires long { 20 ≤ length segment.now }
    requires words { 20 ≤ tcp.header_length segment.now }
    requires room { length segment.now ≤ length page.old }
    ensures { let m = mended (sums.pseudo_sum head.now.src.0 head.now.dst.0 6 (length segment.now)) segment.now in
        out.new ≡ (link.now ++ plain_header head.now (length m) ++ m) ∷ [] }
{
    mended_say_the_same();
    let copy = &mut page[..segment.len()];
    copy.copy_from_slice(segment);
    mend(
        copy,
        pseudo_sum(head.src, head.dst, protocol::TCP, segment.len() as u16),
    );
    put_anew(link, head, copy, out);
}

// Puts the packet of a segment that is rewritten, with these octets, into the empty outbox.
fn put_rewritten(
    arrival: &Arrival<'_>,
    ip: &Ipv4,
    passage: &Passage,
    octets: &[u8],
    page: &mut [u8],
    out: &mut Outbox,
)
    requires empty { IsBlank out.old }
    requires size { arrival.now.head.now.header + length octets.now ≤ MAX_PAYLOAD }
    requires room { MAX_PAYLOAD ≤ length page.old }
    ensures { let m = segment_octets (rewritten arrival.now ip.now passage.now octets.now) in
        out.new ≡ (arrival.now.link.now ++ plain_header ip.now (length m) ++ m) ∷ [] }
{
    let size = write_rewritten(arrival, ip, passage, octets, page);
    put_anew(arrival.link, ip, &page[..size], out);
}

// Puts the packet of a probe between the ends of an inbound segment, if there is one, into the
// outbox, after at most one other.
#[inline(always)]
fn put_probe(arrival: &Arrival<'_>, hops: u8, probe: Option<Probe>, out: &mut Outbox)
    requires passes { hops ≤ 254 }
    requires room { length out.old < 2 }
    ensures { out.new ≡ out.old ++ probe_frames arrival.now.link.now (spec.raised hops arrival.now.packet.now.head) arrival.now.head.now.sport arrival.now.head.now.dport probe }
{
    let Some(probe) = probe else {
        return;
    };
    let head = arrival.head;
    let ip = raised(&arrival.packet.head, hops);
    let mut packet = [0u8; 40];
    let _size = write_probe(&ip, head.sport, head.dport, &probe, &mut packet);
    out.begin();
    out.append(arrival.link);
    out.append(&packet);
}

/// Returns the flags without URG, and without FIN if it is not kept.
pub(crate) fn flags_sent(flags: Flags, fin: bool) -> Flags
    ensures exact { result.0 ≡ flags_cleared (if fin then flags.0 else without_flag 1 flags.0) }
    ensures urgent { tcp.has_urg result.0 ≡ false }
{
    let flags = if fin { flags.0 } else { without_fin(flags) };
    if flags / 32 % 2 == 1 {
        Flags(flags - 32)
    } else {
        Flags(flags)
    }
}

fn without_fin(flags: Flags) -> u8
    ensures { result ≡ without_flag 1 flags.0 }
{
    if flags.fin() { flags.0 - 1 } else { flags.0 }
}

// Writes the rewritten segment with these octets. Returns its length.
fn write_rewritten(
    arrival: &Arrival<'_>,
    ip: &Ipv4,
    passage: &Passage,
    octets: &[u8],
    buf: &mut [u8],
) -> usize
    requires size { arrival.now.head.now.header + length octets.now ≤ MAX_PAYLOAD }
    requires room { MAX_PAYLOAD ≤ length buf.old }
    ensures exact { buf.new ≡ segment_octets (rewritten arrival.now ip.now passage.now octets.now) ++ drop result buf.old }
    ensures size { result ≡ length (segment_octets (rewritten arrival.now ip.now passage.now octets.now)) }
    ensures short { result ≤ MAX_PAYLOAD }
{
    let head = arrival.head;
    let area = options_of(arrival);
    let parts = SegmentParts {
        src: ip.src,
        dst: ip.dst,
        sport: head.sport,
        dport: head.dport,
        seq: passage.seq,
        ack: head.ack,
        flags: flags_sent(head.flags, passage.fin),
        window: head.window,
        options: ArrayVec::new(),
    };
    write_cleaned(&parts, area, head.flags.syn(), octets, buf)
}

// Writes a ruling into the entry.
fn report(ruling: &Ruling, arrival: &Arrival<'_>, entry: &mut Entry)
    requires ended { HasRoom entry.old }
    ensures { (settings : PlainSettings) (ws : List Written) (d : Datagram) → IsDatagram arrival.now.packet.now arrival.now.link.now d →
        Reports entry.old entry.new (outcome_of settings ws d ruling.now) }
{
    let fixes = &arrival.packet.fixes;
    match ruling {
        Ruling::Drop(refusal) => {
            let packets = packets_in(refusal.probe);
            report_dropped(refusal.rule, refusal.era, packets, entry);
        }
        Ruling::Pass(passage) => {
            let packets = packets_with(passage.probe);
            report_passed(&passage.step, fixes, &passage.rows, packets, entry);
        }
        Ruling::Ask(question) => {
            report_passed(&Step::outside(false), fixes, &question.rows, 1, entry);
        }
    }
}

// Appends these rules.
fn extend(rules: &mut ArrayVec<Rule, 16>, more: &Fixes)
    requires { length rules.old.items + length more.now.items ≤ 16 }
    ensures { rules.new.items ≡ rules.old.items ++ more.now.items }
{
    if more.is_empty() {
        return;
    }
    rules.try_extend_from_slice(more.as_slice()).unwrap();
}

// Appends the era that ended, if one did.
fn add_ended(ended: &mut ArrayVec<Ended, 4>, more: Option<Ended>)
    requires { length ended.old.items ≤ 2 }
    ensures { ended.new.items ≡ ended.old.items ++ listed more }
{
    if let Some(more) = more {
        ended.push(more);
    }
}

// Returns Fix if a rule rewrites the datagram.
fn passed_verdict(fixes: &Fixes, rows: &ArrayVec<Rule, 16>) -> Verdict
    ensures { result ≡ verdict_of (fixes.now.items ++ rows.now.items) }
{
    if !fixes.is_empty() {
        return Verdict::Fix;
    }
    if rows.is_empty() {
        Verdict::Pass
    } else {
        Verdict::Fix
    }
}

// Reports a datagram that no rule drops, of which this number of packets is sent.
#[inline(always)]
fn report_passed(
    step: &Step,
    fixes: &Fixes,
    rows: &ArrayVec<Rule, 16>,
    packets: u8,
    entry: &mut Entry,
)
    requires fixes { length fixes.now.items ≤ 6 }
    requires rows { length rows.now.items ≤ 9 }
    requires ended { HasRoom entry.old }
    ensures { (sent : List Packet) → length sent ≡ packets → Reports entry.old entry.new (passed step.now fixes.now.items rows.now.items sent) }
{
    entry.verdict = passed_verdict(fixes, rows);
    entry.packets = packets;
    entry.rules = ArrayVec::new();
    note(&mut entry.rules, Rule::TFull, step.full);
    extend(&mut entry.rules, fixes);
    extend(&mut entry.rules, rows);
    entry.era = step.era;
    entry.begun = step.begun;
    add_ended(&mut entry.ended, step.ended);
}

// Returns how many packets are sent for a datagram with this probe after its own.
fn packets_with(probe: Option<Probe>) -> u8
    ensures { result ≡ (if is_some probe then 2 else 1) }
{
    match probe {
        None => 1,
        Some(_) => 2,
    }
}

// Returns how many packets this probe is.
fn packets_in(probe: Option<Probe>) -> u8
    ensures { result ≡ (if is_some probe then 1 else 0) }
{
    match probe {
        None => 0,
        Some(_) => 1,
    }
}

/// Reports that this rule drops a datagram of this era, for which this number of packets is sent.
pub(crate) fn report_dropped(rule: Rule, era: Option<u32>, packets: u8, entry: &mut Entry)
    ensures { (sent : List Packet) → length sent ≡ packets → Reports entry.old entry.new
        (record { verdict = verdicts.Drop; rules = rule ∷ []; era = era; begun = None; ended = []; packets = sent }) }
{
    entry.verdict = Verdict::Drop;
    entry.packets = packets;
    entry.rules = only(rule);
    entry.era = era;
    entry.begun = None;
}

// Returns this rule alone.
fn only(rule: Rule) -> ArrayVec<Rule, 16>
    ensures { result.items ≡ rule ∷ [] }
{
    let mut rules = ArrayVec::new();
    rules.push(rule);
    rules
}
