//! What a segment changes in its live era: its state, its octets and its slot's position.
ghost use Rattle.std.specs.Prelude.{◌≡◌, ◌+◌, ◌<◌, ◌*◌, ℕ, length, ◌≤◌, ◌^◌, false, true};
ghost use Rattle.std.specs.List.{count_by, range_with_len, sum_by, All};
ghost use Rattle.retain_store.specs.Maps.{IsMap, IsWithin, chain_of, holds};
ghost use Rattle.tcp_norm.specs.working.SpareSlots.{CanList, Relists};
ghost use Rattle.era_state.specs.Eras.{GivesTo, acked_in, octets_in};
ghost use Rattle.linked_table.specs.EntryTable.{IsIn, Wherever};
ghost use Rattle.tcp_norm.specs.working.Rulings.{CanPlace, HearsIn, IsLegal, PlacesOctets, SendsIn, TakesIn, TouchesIn, taken};
ghost use Rattle.wire_base.specs.Tcp as tcp;

use crate::key::{EraKey, Flow};
use crate::state::TcpNorm;
use crate::step::Taking;
use era_state::laws::{acked_never_falls, first_stays, frame_octets, intervals_fit};
use era_state::{Era, Interval, Offered, Seg};
use linked_table::{LinkedTable, Slot, SlotList};
use retain_store::{ChainId, Retain};
use wire_base::FlowKey;

/// Lists a slot that was touched: as the last one, if it holds no octet, and otherwise not.
pub(crate) fn list_spare(spare: &mut SlotList, store: &Retain, slot: Slot)
    requires listed { CanList spare.old store.now slot }
    ensures { Relists spare.old spare.new store.now slot }
{
    if store.held(ChainId(slot.0)) == 0 {
        spare.put_last(slot);
    } else {
        spare.take_out(slot);
    }
}

/// States that a chain is a map, and how many blocks it has.
pub(crate) fn chain_is_counted(store: &Retain, chain: ChainId)
    requires { chain.0 < length store.now.chains }
    ensures map { IsMap (chain_of store.now chain.0) }
    ensures held { (n : ℕ) → IsWithin (chain_of store.now chain.0) (256 * n) →
        length (chain_of store.now chain.0) ≡ count_by (holds (chain_of store.now chain.0)) (range_with_len 0 n) }
{
    let _held = store.held(chain);
}

/// States that each cell is free or holds a block of one chain.
pub(crate) fn cells_are_counted(store: &Retain)
    ensures total { store.now.free + sum_by length store.now.chains ≡ store.now.cells }
{
    let _free = store.free();
}

impl TcpNorm {
    ghost use Rattle.std.specs.Prelude.{◌≡◌, ◌<◌, ℕ, List, ◌∷◌, ◌+◌, true, false, length};
    ghost use Rattle.wire_base.specs.Tcp as tcp;
    ghost use Rattle.wire_base.specs.declared.address.FlowKey.{FlowKey};
    ghost use Rattle.linked_table.specs.EntryTable.{IsIn, Wherever};
    ghost use Rattle.tcp_norm.specs.Calls.{datagram, segment_in, Call, Outcome};
    ghost use Rattle.tcp_norm.specs.working.EraSteps.{Does, Sends, continued_in};
    ghost use Rattle.tcp_norm.specs.declared.key.Flow.{Flow};
    ghost use Rattle.norm_settings.specs.SettingValues.{PlainSettings};
    ghost use Rattle.ip_rules.specs.Datagrams.{Datagram};
    ghost use Rattle.tcp_norm.specs.working.TableChanges.{IsReady};
    ghost use Rattle.tcp_norm.specs.TableAndStore.{StandsFor};
    ghost use Rattle.tcp_norm.specs.working.Rulings.{IsCounted, IsHeld, IsLegal, Brings, CanTake, Extends, Hears, Reopens};
    ghost use Rattle.wire_base.specs.Segments.{Written};

    /// Changes the live era in this slot by an inbound SYN that neither reopens it nor is dropped.
    /// It acknowledges nothing, so no octet is forgotten.
    pub(crate) fn hear(&mut self, slot: Slot, seg: &Seg, now: u32)
        requires inside { IsIn self.old.table.entries slot }
        requires legal { IsLegal seg.now }
        requires syn { tcp.has_syn seg.now.flags.0 ≡ true }
        requires ready { IsReady self.old now }
        ensures { (settings : PlainSettings) (calls : List Call) (d : Datagram) (key : FlowKey) (flow : Flow) (o : Outcome) → StandsFor settings self.old calls →
            IsHeld self.old.table (record { key = key; slot = slot; flow = flow }) → Hears calls d (record { key = key; slot = slot; flow = flow }) seg.now o →
            IsCounted settings calls d o now self.old self.new }
    {
        first_stays();
        acked_never_falls();
        self.entries_are_apart();
        chain_is_counted(&self.store, ChainId(slot.0));
        self.calls += 1;
        self.latest = now;
        hear_in(&mut self.table, slot, seg, now);
        list_spare(&mut self.spare, &self.store, slot);
    }

    /// Touches the live era in this slot with a segment that arrives at this time and brings no
    /// octet of the stream.
    pub(crate) fn touch(&mut self, slot: Slot, now: u32)
        requires inside { IsIn self.old.table.entries slot }
        requires ready { IsReady self.old now }
        ensures { (settings : PlainSettings) (calls : List Call) (d : Datagram) (key : FlowKey) (flow : Flow) (ws : List Written) (o : Outcome) → StandsFor settings self.old calls →
            IsHeld self.old.table (record { key = key; slot = slot; flow = flow }) → Extends calls d (record { key = key; slot = slot; flow = flow }) flow.era ws o →
            IsCounted settings calls d o now self.old self.new }
    {
        first_stays();
        acked_never_falls();
        self.entries_are_apart();
        chain_is_counted(&self.store, ChainId(slot.0));
        self.calls += 1;
        self.latest = now;
        touch_in(&mut self.table, slot, now);
        list_spare(&mut self.spare, &self.store, slot);
    }

    /// Ends the live era in this slot and begins another of its connection by an inbound SYN that
    /// arrives at this time.
    #[inline(never)]
    pub(crate) fn offer(&mut self, slot: Slot, key: FlowKey, era: &Offered, now: u32)
        requires inside { IsIn self.old.table.entries slot }
        requires keyed { Wherever self.old.table.entries slot (λ e. e.key.0 ≡ key) }
        requires ready { IsReady self.old now }
        ensures { (settings : PlainSettings) (calls : List Call) (d : Datagram) (flow : Flow) (o : Outcome) → StandsFor settings self.old calls →
            Wherever self.old.table.entries slot (λ e. e.value ≡ flow) → Reopens self.old d (record { key = key; slot = slot; flow = flow }) era.now o → IsCounted settings calls d o now self.old self.new }
    {
        self.reopen(slot, key, &Era::Offered(*era), now);
    }

    /// Changes the live era in this slot by an outbound segment that arrives at this time and
    /// neither ends nor reopens it: acknowledged octets are forgotten.
    pub(crate) fn send(&mut self, slot: Slot, seg: &Seg, now: u32)
        requires inside { IsIn self.old.table.entries slot }
        requires legal { IsLegal seg.now }
        requires no_rst { tcp.has_rst seg.now.flags.0 ≡ false }
        requires ready { IsReady self.old now }
        ensures { (settings : PlainSettings) (calls : List Call) (d : Datagram) (key : FlowKey) (flow : Flow) (octets : List ℕ) (o : Outcome) → StandsFor settings self.old calls →
            IsHeld self.old.table (record { key = key; slot = slot; flow = flow }) → length octets ≡ seg.now.len → Sends d key seg.now octets → Does d (segment_in d) (continued_in flow.number) o →
            StandsFor settings self.new (datagram now d o ∷ calls) }
    {
        first_stays();
        acked_never_falls();
        self.entries_are_apart();
        self.calls += 1;
        self.latest = now;
        let chain = ChainId(slot.0);
        let acked = send_in(&mut self.table, slot, seg, now);
        chain_is_counted(&self.store, chain);
        self.store.forget_below(chain, acked);
        list_spare(&mut self.spare, &self.store, slot);
    }

    /// Takes the octets of a segment, its own or those at the front of the scratch, and its FIN
    /// into the live era in this slot, with a segment that arrives at this time.
    pub(crate) fn take_octets(&mut self, slot: Slot, taking: &Taking<'_>, now: u32)
        requires inside { IsIn self.old.table.entries slot }
        requires can { CanTake self.old.table.entries self.old.store self.old.limits.quota slot taking.now }
        requires ready { IsReady self.old now }
        ensures { (settings : PlainSettings) (calls : List Call) (d : Datagram) (key : FlowKey) (flow : Flow) (o : Outcome) → StandsFor settings self.old calls →
            IsHeld self.old.table (record { key = key; slot = slot; flow = flow }) → Brings calls self.old.scratch.items d (record { key = key; slot = slot; flow = flow }) taking.now o →
            IsCounted settings calls d o now self.old self.new }
    {
        first_stays();
        frame_octets();
        intervals_fit();
        self.entries_are_apart();
        self.calls += 1;
        self.latest = now;
        let chain = ChainId(slot.0);
        let kept = &taking.kept;
        let fresh = place_taken(&mut self.store, chain, taking, &self.scratch);
        chain_is_counted(&self.store, chain);
        take_in(&mut self.table, slot, kept, fresh as u32, now);
        list_spare(&mut self.spare, &self.store, slot);
    }
}

// Adds the octets that an era takes to its chain, and returns how many are the first at their
// offsets. Those that are rewritten are at the front of the scratch.
fn place_taken(store: &mut Retain, chain: ChainId, taking: &Taking<'_>, scratch: &[u8]) -> usize
    requires chain_in_range { chain.0 < length store.old.chains }
    requires can { CanPlace store.old chain.0 taking.now scratch.now }
    ensures { PlacesOctets store.old store.new chain.0 taking.now.kept.lo (taken taking.now scratch.now) result }
{
    if taking.as_read {
        store.place_known(chain, taking.kept.lo, taking.own, taking.whole)
    } else {
        let octets = &scratch[..taking.own.len()];
        store.place_known(chain, taking.kept.lo, octets, taking.whole)
    }
}

// Changes the era in a slot by an outbound segment and touches it at this time, and returns its
// greatest acknowledged offset.
fn send_in(table: &mut LinkedTable<EraKey, Flow>, slot: Slot, seg: &Seg, now: u32) -> u64
    requires inside { IsIn table.old.entries slot }
    requires legal { IsLegal seg.now }
    requires no_rst { tcp.has_rst seg.now.flags.0 ≡ false }
    requires small { All (λ e. acked_in e.value.era < 2 ^ 63) table.old.entries }
    ensures { SendsIn table.old table.new slot seg.now now result }
{
    let flow = table.at_mut(slot);
    flow.era.go_on(seg);
    flow.touched = now;
    let acked = flow.era.acknowledged();
    table.touch(slot);
    acked
}

// Changes the era in a slot by an inbound SYN and touches it at this time.
fn hear_in(table: &mut LinkedTable<EraKey, Flow>, slot: Slot, seg: &Seg, now: u32)
    requires inside { IsIn table.old.entries slot }
    requires legal { IsLegal seg.now }
    requires syn { tcp.has_syn seg.now.flags.0 ≡ true }
    ensures { HearsIn table.old table.new slot seg.now now }
{
    let flow = table.at_mut(slot);
    flow.era.hear(seg);
    flow.touched = now;
    table.touch(slot);
}

// Touches the era in a slot at this time.
fn touch_in(table: &mut LinkedTable<EraKey, Flow>, slot: Slot, now: u32)
    requires inside { IsIn table.old.entries slot }
    ensures { TouchesIn table.old table.new slot now }
{
    let flow = table.at_mut(slot);
    flow.touched = now;
    table.touch(slot);
}

// Changes the era in a slot by a frame with these octets and this FIN, of which `fresh` octets are
// the first at their offsets, and touches it at this time.
fn take_in(table: &mut LinkedTable<EraKey, Flow>, slot: Slot, kept: &Interval, fresh: u32, now: u32)
    requires inside { IsIn table.old.entries slot }
    requires given { Wherever table.old.entries slot (λ e. GivesTo e.value.era kept.now) }
    requires fresh { kept.now.lo + fresh ≤ kept.now.hi }
    requires few { Wherever table.old.entries slot (λ e. octets_in e.value.era + fresh < 2 ^ 64) }
    ensures { TakesIn table.old table.new slot kept.now fresh now }
{
    let flow = table.at_mut(slot);
    flow.era.forward(kept, fresh);
    flow.touched = now;
    table.touch(slot);
}
