//! Packets of either side, and the judgment of an inbound one by its connection's live era.
mod cold;
mod reset;
mod stream;
mod syn;

use crate::arrival::{Arrival, inward_key};
use crate::emit::put_given;
use crate::key::EraKey;
use crate::state::TcpNorm;
use edge_io::Outbox;
use ip_rules::IpPacket;
use linked_table::Slot;
use rule_book::Entry;
use tcp_codec::Tcp;
use wire_base::Side;

impl TcpNorm {
    ghost use Rattle.std.specs.Prelude.{◌≡◌, ◌-◌, ◌<◌, ◌≤◌, ◌^◌, List, [], ◌∷◌, length};
    ghost use Rattle.wire_base.specs.declared.address.Side.TheVariants.{Inward, Outward};
    ghost use Rattle.wire_base.specs.Checksums.{pseudo_sum};
    ghost use Rattle.tcp_codec.specs.HeaderFields.{fields_of};
    ghost use Rattle.norm_settings.specs.SettingValues.{PlainSettings};
    ghost use Rattle.ip_rules.specs.Datagrams.{Datagram, frames_of, IsDatagram};
    ghost use Rattle.tcp_norm.specs.Calls.{Call};
    ghost use Rattle.tcp_norm.specs.RuleViews.{view_of};
    ghost use Rattle.tcp_norm.specs.SegmentHeads.{IsHead};
    ghost use Rattle.tcp_norm.specs.Outcomes.{call_of, outcome_at};
    ghost use Rattle.tcp_norm.specs.PassedPackets.{given, IsUnsent, Reports};
    ghost use Rattle.tcp_norm.specs.working.PassingRoom.{HasRoom, IsBlank};
    ghost use Rattle.tcp_norm.specs.TableAndStore.{StandsFor};
    ghost use Rattle.tcp_norm.specs.working.TableChanges.{IsReady};
    ghost use Rattle.wire_base.specs.declared.limits.TheConstants.{MAX_FRAME, MAX_LINK, MAX_PAYLOAD};
    ghost use Rattle.tcp_norm.specs.working.Rulings.{IsLiveIn, IsOutward, Answers};

    /// Handles an inbound datagram: it continues its era, reopens or begins one, a host is asked
    /// about it, or a rule drops it. A probe may be sent after a reset, and for one that is
    /// dropped. Rules 35 to 40, 49 to 55, 57, 58 and 60. `now` is in seconds, and never below that
    /// of an earlier call.
    pub fn inbound(
        &mut self,
        now: u32,
        packet: &IpPacket<'_>,
        link_octets: &[u8],
        seg: &Tcp,
        out: &mut Outbox,
        entry: &mut Entry,
    )
        requires side { packet.now.side ≡ Inward }
        requires short { length packet.now.payload.now ≤ MAX_PAYLOAD }
        requires head { IsHead packet.now.payload.now seg.now }
        requires link { length link_octets.now ≤ MAX_LINK }
        requires frame { packet.now.fixes.items ≡ [] → length packet.now.frame.now ≤ MAX_FRAME }
        requires fixes { length packet.now.fixes.items ≤ 6 }
        requires empty { out.old ≡ [] }
        requires ended { length entry.old.ended.items ≤ 2 }
        requires few { self.old.calls < 2 ^ 32 - 1 }
        requires later { self.old.latest ≤ now }
        ensures stands { (settings : PlainSettings) (calls : List Call) (d : Datagram) → StandsFor settings self.old calls → IsDatagram packet.now link_octets.now d →
            StandsFor settings self.new (call_of settings calls now d ∷ calls) }
        ensures entry { (settings : PlainSettings) (calls : List Call) (d : Datagram) → StandsFor settings self.old calls → IsDatagram packet.now link_octets.now d →
            Reports entry.old entry.new (outcome_at settings (view_of settings calls d) d) }
        ensures frames { (settings : PlainSettings) (calls : List Call) (d : Datagram) → StandsFor settings self.old calls → IsDatagram packet.now link_octets.now d →
            out.new ≡ frames_of link_octets.now (outcome_at settings (view_of settings calls d) d).packets }
    {
        let as_read = self.take_into(now, packet, link_octets, seg, out, entry);
        put_given(as_read, packet.frame, out);
    }

    /// Handles a datagram of either side, as `inbound` and `outbound` do. Returns true only if its
    /// one frame is the one that was read; the outbox is then empty, and otherwise it has the
    /// frames.
    pub fn take_into(
        &mut self,
        now: u32,
        packet: &IpPacket<'_>,
        link_octets: &[u8],
        seg: &Tcp,
        out: &mut Outbox,
        entry: &mut Entry,
    ) -> bool
        requires short { length packet.now.payload.now ≤ MAX_PAYLOAD }
        requires head { IsHead packet.now.payload.now seg.now }
        requires fields { packet.now.side ≡ Outward →
            seg.now ≡ fields_of (pseudo_sum packet.now.head.src.0 packet.now.head.dst.0 6 (length packet.now.payload.now)) packet.now.payload.now }
        requires link { length link_octets.now ≤ MAX_LINK }
        requires frame { packet.now.fixes.items ≡ [] → length packet.now.frame.now ≤ MAX_FRAME }
        requires fixes { length packet.now.fixes.items ≤ 6 }
        requires empty { out.old ≡ [] }
        requires ended { length entry.old.ended.items ≤ 2 }
        requires few { self.old.calls < 2 ^ 32 - 1 }
        requires later { self.old.latest ≤ now }
        ensures stands { (settings : PlainSettings) (calls : List Call) (d : Datagram) → StandsFor settings self.old calls → IsDatagram packet.now link_octets.now d →
            StandsFor settings self.new (call_of settings calls now d ∷ calls) }
        ensures entry { (settings : PlainSettings) (calls : List Call) (d : Datagram) → StandsFor settings self.old calls → IsDatagram packet.now link_octets.now d →
            Reports entry.old entry.new (outcome_at settings (view_of settings calls d) d) }
        ensures unsent { IsUnsent result packet.now.frame.now out.new }
        ensures frames { (settings : PlainSettings) (calls : List Call) (d : Datagram) → StandsFor settings self.old calls → IsDatagram packet.now link_octets.now d →
            given result packet.now.frame.now out.new ≡ frames_of link_octets.now (outcome_at settings (view_of settings calls d) d).packets }
    {
        let arrival = Arrival {
            time: now,
            packet,
            link: link_octets,
            head: seg,
        };
        self.judge(&arrival, out, entry)
    }

    /// Judges a segment, updates the eras, and reports and sends what becomes of it.
    pub(crate) fn judge(
        &mut self,
        arrival: &Arrival<'_>,
        out: &mut Outbox,
        entry: &mut Entry,
    ) -> bool
        requires ready { IsReady self.old arrival.now.time }
        requires outward { arrival.now.packet.now.side ≡ Outward → IsOutward arrival.now }
        requires empty { IsBlank out.old }
        requires ended { HasRoom entry.old }
        ensures { Answers arrival.now self.old self.new entry.old entry.new out.new result }
    {
        match arrival.packet.side {
            Side::Inward => self.judge_inward(arrival, out, entry),
            Side::Outward => self.judge_outward(arrival, out, entry),
        }
    }

    // Judges an inbound segment.
    fn judge_inward(&mut self, arrival: &Arrival<'_>, out: &mut Outbox, entry: &mut Entry) -> bool
        requires ready { IsReady self.old arrival.now.time }
        requires side { arrival.now.packet.now.side ≡ Inward }
        requires empty { IsBlank out.old }
        requires ended { HasRoom entry.old }
        ensures { Answers arrival.now self.old self.new entry.old entry.new out.new result }
    {
        let hashed = self.table.hashed(EraKey(inward_key(arrival)));
        match self.table.find_hashed(&hashed) {
            None => self.judge_cold(&hashed, arrival, out, entry),
            Some(slot) => self.judge_live(slot, arrival, out, entry),
        }
    }

    // Judges a segment of the live era in this slot and updates the era.
    fn judge_live(
        &mut self,
        slot: Slot,
        arrival: &Arrival<'_>,
        out: &mut Outbox,
        entry: &mut Entry,
    ) -> bool
        requires live { IsLiveIn self.old arrival.now slot }
        requires ready { IsReady self.old arrival.now.time }
        requires empty { IsBlank out.old }
        requires ended { HasRoom entry.old }
        ensures { Answers arrival.now self.old self.new entry.old entry.new out.new result }
    {
        if arrival.head.flags.syn() {
            return self.judge_syn(slot, arrival, out, entry);
        }
        if arrival.head.flags.rst() {
            return self.judge_reset(slot, arrival, out, entry);
        }
        self.judge_stream(slot, arrival, out, entry)
    }
}
