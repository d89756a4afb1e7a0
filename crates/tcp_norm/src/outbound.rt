//! Outbound packets.
ghost use Rattle.std.specs.Prelude.{◌≡◌, ◌<◌, ◌≤◌, ◌^◌, ℕ, true, false, List, [], ◌∷◌, length};
ghost use Rattle.era_state.specs.SegmentFields.{sent};
ghost use Rattle.wire_base.specs.Tcp as tcp;
ghost use Rattle.era_state.specs.Eras as eras;
ghost use Rattle.tcp_norm.specs.working.Rulings.{IsLegal};
ghost use Rattle.ip_rules.specs.JudgedRecord.{where_holds};
ghost use Rattle.rule_book.specs.declared.rule.Rule.TheVariants as rules;

use crate::arrival::{Arrival, note, outward_key, seg_of};
use crate::emit::put_given;
use crate::key::EraKey;
use crate::state::TcpNorm;
use crate::step::{Passage, Step};
use cold_start::warm_from;
use edge_io::Outbox;
use era_state::laws::acked_grows_near;
use era_state::{Called, Era, Seg};
use ip_rules::{Fixes, IpPacket};
use linked_table::{Hashed, Slot};
use rule_book::{Entry, Rule};
use tcp_codec::Tcp;
use tcp_codec::laws::mended_say_the_same;
use wire_base::FlowKey;

impl TcpNorm {
    ghost use Rattle.std.specs.Prelude.{◌≡◌, ◌+◌, ◌-◌, ◌<◌, ◌≤◌, ◌^◌, List, [], ◌∷◌, length, true};
    ghost use Rattle.wire_base.specs.Checksums.{pseudo_sum};
    ghost use Rattle.wire_base.specs.declared.address.Side.TheVariants.{Outward};
    ghost use Rattle.tcp_codec.specs.HeaderFields.{fields_of};
    ghost use Rattle.norm_settings.specs.SettingValues.{PlainSettings};
    ghost use Rattle.ip_rules.specs.Datagrams.{Datagram, frames_of, IsDatagram};
    ghost use Rattle.tcp_norm.specs.Calls.{Call};
    ghost use Rattle.tcp_norm.specs.RuleViews.{view_of};
    ghost use Rattle.tcp_norm.specs.SegmentHeads.{IsHead};
    ghost use Rattle.tcp_norm.specs.Outcomes.{call_of, outcome_at};
    ghost use Rattle.tcp_norm.specs.PassedPackets.{Reports};
    ghost use Rattle.tcp_norm.specs.working.TableChanges.{IsAbsent, IsReady};
    ghost use Rattle.tcp_norm.specs.TableAndStore.{StandsFor};
    ghost use Rattle.tcp_norm.specs.working.EraSteps.{IsMade, Makes};
    ghost use Rattle.linked_table.specs.EntryTable.{IsIn, Wherever};
    ghost use Rattle.tcp_norm.specs.working.PassingRoom.{HasRoom, IsBlank};
    ghost use Rattle.tcp_norm.specs.working.Rulings.{IsLegal, IsOutward, Answers};
    ghost use Rattle.wire_base.specs.declared.limits.TheConstants.{MAX_FRAME, MAX_LINK, MAX_PAYLOAD};

    /// Handles an outbound datagram: it continues its era, or ends, reopens or begins one.
    pub fn outbound(
        &mut self,
        now: u32,
        packet: &IpPacket<'_>,
        link_octets: &[u8],
        seg: &Tcp,
        out: &mut Outbox,
        entry: &mut Entry,
    )
        requires side { packet.now.side ≡ Outward }
        requires short { length packet.now.payload.now ≤ MAX_PAYLOAD }
        requires head { IsHead packet.now.payload.now seg.now }
        requires fields { seg.now ≡ fields_of (pseudo_sum packet.now.head.src.0 packet.now.head.dst.0 6 (length packet.now.payload.now)) packet.now.payload.now }
        requires link { length link_octets.now ≤ MAX_LINK }
        requires frame { packet.now.fixes.items ≡ [] → length packet.now.frame.now ≤ MAX_FRAME }
        requires fixes { length packet.now.fixes.items ≤ 6 }
        requires empty { out.old ≡ [] }
        requires ended { length entry.old.ended.items ≤ 2 }
        requires few { self.old.calls < 2 ^ 32 - 1 }
        requires later { self.old.latest ≤ now }
        ensures stands { (settings : PlainSettings) (calls : List Call) (d : Datagram) → StandsFor settings self.old calls → IsDatagram packet.now link_octets.now d →
            StandsFor settings self.new (call_of settings calls now d ∷ calls) }
        ensures entry { (settings : PlainSettings) (calls : List Call) (d : Datagram) → StandsFor settings self.old calls → IsDatagram packet.now link_octets.now d →
            Reports entry.old entry.new (outcome_at settings (view_of settings calls d) d) }
        ensures frames { (settings : PlainSettings) (calls : List Call) (d : Datagram) → StandsFor settings self.old calls → IsDatagram packet.now link_octets.now d →
            out.new ≡ frames_of link_octets.now (outcome_at settings (view_of settings calls d) d).packets }
    {
        let as_read = self.take_into(now, packet, link_octets, seg, out, entry);
        put_given(as_read, packet.frame, out);
    }

    /// Judges an outbound segment and updates the eras.
    pub(crate) fn judge_outward(
        &mut self,
        arrival: &Arrival<'_>,
        out: &mut Outbox,
        entry: &mut Entry,
    ) -> bool
        requires ready { IsReady self.old arrival.now.time }
        requires outward { IsOutward arrival.now }
        requires empty { IsBlank out.old }
        requires ended { HasRoom entry.old }
        ensures { Answers arrival.now self.old self.new entry.old entry.new out.new result }
    {
        mended_say_the_same();
        let wrong = self.limits.offload & !arrival.head.sum_right;
        let step = self.depart(arrival);
        let rows = summed(wrong);
        let passage = Passage {
            step,
            rows,
            seq: arrival.head.seq,
            fin: true,
            size: 0,
            probe: None,
        };
        self.pass(passage, arrival, out, entry)
    }

    // Updates the eras with an outbound segment.
    fn depart(&mut self, arrival: &Arrival<'_>) -> Step
        requires ready { IsReady self.old arrival.now.time }
        requires outward { IsOutward arrival.now }
        ensures { (settings : PlainSettings) (calls : List Call) (d : Datagram) → StandsFor settings self.old calls →
            IsDatagram arrival.now.packet.now arrival.now.link.now d → IsMade settings calls d arrival.now.time self.new result }
    {
        let parsed = seg_of(arrival);
        let key = outward_key(arrival);
        let hashed = self.table.hashed(EraKey(key));
        match self.table.find_hashed(&hashed) {
            Some(slot) => self.depart_live(slot, key, &parsed, arrival.time),
            None => self.depart_cold(&hashed, &parsed, arrival.time),
        }
    }

    // Updates the eras with an outbound segment of a connection that has no live era.
    fn depart_cold(&mut self, hashed: &Hashed<EraKey>, seg: &Seg, now: u32) -> Step
        requires absent { IsAbsent self.old hashed.now.key.0 }
        requires legal { IsLegal seg.now }
        requires ready { IsReady self.old now }
        ensures { Makes self.old self.new hashed.now.key.0 seg.now now result }
    {
        if seg.flags.rst() {
            self.arrive(now);
            return Step::outside(false);
        }
        match self.room() {
            None => {
                self.arrive(now);
                Step::outside(true)
            }
            Some(room) => Step::begun(self.admit(room, hashed, &era_of(seg), now)),
        }
    }

    // Updates the live era in this slot by an outbound segment.
    fn depart_live(&mut self, slot: Slot, key: FlowKey, seg: &Seg, now: u32) -> Step
        requires inside { IsIn self.old.table.entries slot }
        requires keyed { Wherever self.old.table.entries slot (λ e. e.key.0 ≡ key) }
        requires legal { IsLegal seg.now }
        requires ready { IsReady self.old now }
        ensures { Makes self.old self.new key seg.now now result }
    {
        let flow = self.flow_at(slot);
        let number = flow.number;
        if seg.flags.rst() {
            let octets = flow.era.octets();
            self.calls += 1;
            self.latest = now;
            self.end(slot);
            return Step::reset(number, octets);
        }
        if flow.era.calls_anew(seg) {
            let octets = flow.era.octets();
            let next = self.begun + 1;
            self.reopen(slot, key, &era_of(seg), now);
            return Step::reopened(next, number, octets);
        }
        self.send(slot, seg, now);
        Step::within(number)
    }
}

// Returns T_SUM_OUT if the checksum of a segment is wrong.
fn summed(wrong: bool) -> Fixes
    ensures few { length result.items ≤ 1 }
    ensures rows { result.items ≡ where_holds wrong rules.TSumOut }
{
    let mut rows = Fixes::new();
    note(&mut rows, Rule::TSumOut, wrong);
    rows
}

// Returns the era that an outbound segment begins.
fn era_of(seg: &Seg) -> Era
    requires legal { IsLegal seg.now }
    requires no_rst { tcp.has_rst seg.now.flags.0 ≡ false }
    ensures stands { (octets : List ℕ) → length octets ≡ seg.now.len → eras.StandsFor result (sent seg.now octets ∷ []) }
    ensures acked { eras.acked_in result < 2 ^ 31 }
    ensures octets { eras.octets_in result ≡ 0 }
{
    acked_grows_near();
    match warm_from(seg) {
        Some(warm) => Era::settled(warm),
        None => Era::Called(Called::call(seg)),
    }
}
