//! Judges a frame by the entry that it belongs to and by the state of its era.

ghost use Rattle.std.specs.Prelude.{◌≡◌, ℕ, Some, ◌^◌, ◌<◌, List, false, length, nat_eq, IfOk, IfNone, IfSome, IsSome};
ghost use Rattle.indexmap.specs.IndexMap.{get};
ghost use Rattle.wire_base.specs.Plain.{Plain};
ghost use Rattle.wire_base.specs.Segments.{Written};
ghost use Rattle.wire_base.specs.declared.address.Side.{Side};
ghost use Rattle.run_audit.specs.FrameFaults.{is_segment};
ghost use Rattle.run_audit.specs.OwnedFrames.{Frame, sent};
ghost use Rattle.run_audit.specs.OwnedFrames as frames;
ghost use Rattle.run_audit.specs.working.EraLedgers.{IsInward, IsOutward, counted};
ghost use Rattle.run_audit.specs.working.EraTable.{AllStandFor, EraHasRoom, EraStands, IsJudged, IsTaken, StandsForFew, Takes};
ghost use Rattle.run_audit.specs.working.OutwardFields.{IsSegment};

use crate::Reason;
use crate::ledger::Inward;
use crate::named::Eras;
use edge_io::NoMemory;
use era_state::laws::acked_grows_near;
use receiver_model::{plain, read_plain};
use rule_book::Entry;
use tcp_codec::{SumRule, Tcp};
use wire_base::{Flags, Side, protocol};

/// Returns the fault of a packet that belongs to this entry. A packet without a fault is added to
/// its era.
pub(crate) fn judge(
    eras: &mut Eras,
    hops: u8,
    entry: &Entry,
    packet: &[u8],
) -> Result<Option<Reason>, NoMemory>
    requires few { StandsForFew eras.old }
    requires named { IfSome entry.now.era (λ era. IsSome (get nat_eq eras.old era)) }
    ensures { IfOk result (λ verdict. (before : List Frame) → AllStandFor eras.old (sent before) →
        IsJudged hops before (record { packet = packet.now; side = entry.now.side; era = entry.now.era }) eras.old eras.new verdict) }
{
    match (entry.side, entry.era) {
        (Some(Side::Inward), era) => judge_inward(eras, hops, era, packet),
        (Some(Side::Outward), Some(era)) => judge_outward(eras, era, packet),
        (None, Some(_)) => Ok(Some(Reason::Plain)),
        (_, None) => Ok(None),
    }
}

// Judges a packet that went inwards.
fn judge_inward(
    eras: &mut Eras,
    hops: u8,
    era: Option<u32>,
    packet: &[u8],
) -> Result<Option<Reason>, NoMemory>
    requires few { StandsForFew eras.old }
    requires named { IfSome era (λ number. IsSome (get nat_eq eras.old number)) }
    ensures { IfOk result (λ verdict. (before : List Frame) → AllStandFor eras.old (sent before) →
        IsJudged hops before (record { packet = packet.now; side = Some Side.Inward; era = era }) eras.old eras.new verdict) }
{
    if !plain(hops, packet) {
        return Ok(Some(Reason::Plain));
    }
    match era {
        Some(era) => judge_in_stream(eras, hops, era, packet),
        None => Ok(None),
    }
}

// Judges a plain packet that went inwards in an era.
fn judge_in_stream(
    eras: &mut Eras,
    hops: u8,
    era: u32,
    packet: &[u8],
) -> Result<Option<Reason>, NoMemory>
    requires plain { Plain hops packet.now }
    requires few { StandsForFew eras.old }
    requires named { IsSome (get nat_eq eras.old era) }
    ensures { IfOk result (λ verdict. (before : List Frame) → AllStandFor eras.old (sent before) →
        IsJudged hops before (record { packet = packet.now; side = Some Side.Inward; era = Some era }) eras.old eras.new verdict) }
{
    acked_grows_near();
    if packet[9] != protocol::TCP {
        return Ok(Some(Reason::Plain));
    }
    let fields = read_plain(packet);
    let segment = Inward {
        seq: fields.seq,
        flags: fields.flags,
        octets: &packet[fields.start..],
    };
    take_inward(eras, era, segment)
}

// Judges a packet that went outwards in an era.
fn judge_outward(eras: &mut Eras, era: u32, packet: &[u8]) -> Result<Option<Reason>, NoMemory>
    requires few { StandsForFew eras.old }
    requires named { IsSome (get nat_eq eras.old era) }
    ensures { (hops : ℕ) → IfOk result (λ verdict. (before : List Frame) → AllStandFor eras.old (sent before) →
        IsJudged hops before (record { packet = packet.now; side = Some Side.Outward; era = Some era }) eras.old eras.new verdict) }
{
    acked_grows_near();
    let Some(head) = segment_in(packet) else {
        return Ok(Some(Reason::Plain));
    };
    take_outward(eras, era, head.flags, head.ack);
    Ok(None)
}

// Returns the header of the TCP segment in a packet, or None if the packet has none; the TCP
// checksum is not tested.
fn segment_in(packet: &[u8]) -> Option<Tcp>
    ensures none { IfNone result (is_segment packet.now ≡ false) }
    ensures some { IfSome result (λ head. IsSegment packet.now head) }
{
    let Ok(head) = ipv4_codec::parse(packet) else {
        return None;
    };
    if head.protocol != protocol::TCP {
        return None;
    }
    let segment = &packet[head.header..usize::from(head.total)];
    match tcp_codec::parse(segment, 0, SumRule::Skip) {
        Ok(head) => Some(head),
        Err(_) => None,
    }
}

// Judges a segment that went inwards, and adds it to its era.
fn take_inward(eras: &mut Eras, era: u32, segment: Inward<'_>) -> Result<Option<Reason>, NoMemory>
    requires there { IsSome (get nat_eq eras.old era) }
    requires room { EraHasRoom (get nat_eq eras.old era) }
    requires short { length segment.octets.now < 2 ^ 16 }
    ensures { IfOk result (λ verdict. (ws : List Written) (w : Written) → EraStands (get nat_eq eras.old era) ws →
        IsInward segment.entry w → IsTaken eras.old eras.new era ws w verdict) }
{
    match eras.get_mut(&era) {
        Some(ledger) => ledger.judge(segment),
        None => unreachable!(),
    }
}

// Adds a segment that went outwards to its era.
fn take_outward(eras: &mut Eras, era: u32, flags: Flags, number: u32)
    requires there { IsSome (get nat_eq eras.old era) }
    requires room { EraHasRoom (get nat_eq eras.old era) }
    ensures { (ws : List Written) (w : Written) → EraStands (get nat_eq eras.old era) ws →
        IsOutward flags.0 number w → Takes eras.old eras.new era (counted ws w) }
{
    match eras.get_mut(&era) {
        Some(ledger) => ledger.acknowledge(flags, number),
        None => unreachable!(),
    }
}
