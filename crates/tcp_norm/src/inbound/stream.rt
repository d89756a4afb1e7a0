//! A segment without SYN and RST: T_STATE drops it in an era without an acknowledged offset,
//! T_QUOTA or T_ROOM if its octets do not fit, or it passes with the octets that were sent first.
ghost use Rattle.std.specs.Prelude.{◌≡◌, ◌==◌, ◌↔◌, ℕ, ◌+◌, ◌-◌, ◌<◌, ◌≤◌, ◌^◌, nat_lt, pos, ◌-ℤ◌, List, length, take, slice_index, false, Some, None, IfNone, IfSome, IsTrue, if◌then◌else◌};
ghost use Rattle.wire_base.specs.Segments.{Written};
ghost use Rattle.retain_store.specs.Maps.{Agrees, IsWhole, IsWithin, Settles, chain_of, missing};
ghost use Rattle.era_state.specs.Offsets.{off, nat_of};
ghost use Rattle.era_state.specs.EraFields.{bounds_in};
ghost use Rattle.era_state.specs.KeptIntervals.{Keeps, KeptOf};
ghost use Rattle.tcp_norm.specs.HeldOctets.{held_of};
ghost use Rattle.tcp_norm.specs.RuleRows.{exceeds, wanted_of};
ghost use Rattle.tcp_norm.specs.QuotaBounds.{IsAtMost};
ghost use Rattle.tcp_norm.specs.working.Rulings.{IsLast, IsLegal, IsDropped, IsFound, IsPlain};
ghost use Rattle.era_state.specs.States.{is_acknowledged};
ghost use Rattle.era_state.specs.Eras.{state_in};
ghost use Rattle.wire_base.specs.declared.limits.TheConstants.{MAX_PAYLOAD};
ghost use Rattle.wire_base.specs.declared.address.FlowKey.{FlowKey};
ghost use Rattle.linked_table.specs.declared.table.Slot.{Slot};
ghost use Rattle.tcp_norm.specs.declared.state.TcpNorm.{TcpNorm};
ghost use Rattle.tcp_norm.specs.declared.step.Ruling.TheVariants.{Drop};
ghost use Rattle.norm_settings.specs.SettingValues.{PlainSettings};
ghost use Rattle.ip_rules.specs.Datagrams.{Datagram, IsDatagram};
ghost use Rattle.tcp_norm.specs.Calls.{Call};
ghost use Rattle.tcp_norm.specs.TableAndStore.{StandsFor};
ghost use Rattle.wire_base.specs.Tcp as tcp;
ghost use Rattle.rule_book.specs.declared.rule.Rule.TheVariants as rules;
ghost use Rattle.tcp_norm.specs.KeptChains as chains;

use crate::arrival::{Arrival, are_bits, bare_seg, options_change, payload_of, rows_of, seg_of};
use crate::emit::report_dropped;
use crate::key::Flow;
use crate::laws::streams_are_written;
use crate::state::TcpNorm;
use crate::step::{Passage, Refusal, Ruling, Step, Taking};
use crate::update::{cells_are_counted, chain_is_counted};
use cold_start::cold_probe;
use edge_io::Outbox;
use era_state::laws::states_are_the_lists;
use era_state::{Era, Interval, Seg, Warm};
use ip_rules::Fixes;
use linked_table::Slot;
use retain_store::{ChainId, Found, Retain};
use rule_book::{Entry, Rule};

impl TcpNorm {
    ghost use Rattle.tcp_norm.specs.working.PassingRoom.{HasRoom, IsBlank};
    ghost use Rattle.tcp_norm.specs.working.TableChanges.{IsReady};
    ghost use Rattle.tcp_norm.specs.working.Rulings.{IsLiveIn, IsPlain, Answers};

    // Judges a segment without SYN and RST, updates its era, and reports and sends what becomes of
    // it.
    pub(super) fn judge_stream(
        &mut self,
        slot: Slot,
        arrival: &Arrival<'_>,
        out: &mut Outbox,
        entry: &mut Entry,
    ) -> bool
        requires live { IsLiveIn self.old arrival.now slot }
        requires plain { IsPlain arrival.now }
        requires ready { IsReady self.old arrival.now.time }
        requires empty { IsBlank out.old }
        requires ended { HasRoom entry.old }
        ensures { Answers arrival.now self.old self.new entry.old entry.new out.new result }
    {
        streams_are_written();
        are_bits(&arrival.packet.head, arrival.packet.payload);
        cells_are_counted(&self.store);
        self.entries_are_apart();
        let flow = self.table.at(slot);
        let number = flow.number;
        let Some(warm) = warm_of(&flow.era) else {
            let refusal = refuse_early(flow, arrival);
            self.arrive(arrival.time);
            return self.carry_out(&Ruling::Drop(refusal), arrival, out, entry);
        };
        let seg = seg_of(arrival);
        let kept = warm.interval(&seg);
        let own = own_octets(&kept, warm, &seg, payload_of(arrival));
        let found = look(&mut self.store, ChainId(slot.0), &kept, own);
        let piece = Piece {
            store: &self.store,
            chain: ChainId(slot.0),
            kept: &kept,
            found,
        };
        if let Some(rule) = refusal(&piece, self.limits.quota) {
            self.arrive(arrival.time);
            report_dropped(rule, Some(number), 0, entry);
            return false;
        }
        let clash = clashes(&piece, own);
        let changed = options_change(arrival);
        let rows = rows_of(arrival.head, changed, &kept, clash);
        let as_read = fill_kept(&piece, own, &rows, clash, &mut self.scratch);
        let passage = Passage {
            step: Step::within(number),
            rows,
            seq: warm.frame_sequence(&seg, &kept),
            fin: kept.fin,
            size: own.len(),
            probe: None,
        };
        let taking = Taking {
            kept,
            own,
            as_read,
            whole: found.repeats,
        };
        self.take_octets(slot, &taking, arrival.time);
        self.pass(passage, arrival, out, entry)
    }
}

// Returns the state of an era, if it has an acknowledged offset.
fn warm_of(era: &Era) -> Option<&Warm>
    ensures some { IfSome result (λ warm. IsLast era.now warm.now) }
    ensures none { IfNone result (is_acknowledged (state_in era.now) ≡ false) }
{
    states_are_the_lists();
    match era {
        Era::Called(_) | Era::Offered(_) => None,
        Era::Warm(warm) => Some(warm),
        Era::Closed(era) => Some(&era.last),
    }
}

/// An interval of a segment, no longer than the longest segment, the chain of its era in the store,
/// and what the store found there.
#[derive(Clone, Copy)]
pub(crate) struct Piece<'a> {
    pub(crate) store: &'a Retain,
    pub(crate) chain: ChainId,
    pub(crate) kept: &'a Interval,
    pub(crate) found: Found,
    ghost chain_in_range: { chain.0 < length store.now.chains },
    ghost order: { kept.now.lo ≤ kept.now.hi },
    ghost short: { kept.now.hi ≤ kept.now.lo + MAX_PAYLOAD },
    ghost ends: { IsTrue found.ends → IsWithin (chain_of store.now chain.0) kept.now.lo },
    ghost whole: { IsTrue found.repeats → IsWhole (chain_of store.now chain.0) kept.now.lo (kept.now.hi - kept.now.lo) },
}

impl Piece<'_> {
    ghost use Rattle.std.specs.Prelude.{◌-◌, ◌<◌, ◌^◌};

    // Returns how many octets are sent inwards.
    fn size(&self) -> u32
        ensures size { result ≡ self.now.kept.now.hi - self.now.kept.now.lo }
        ensures end { self.now.kept.now.hi < 2 ^ 64 }
    {
        (self.kept.hi - self.kept.lo) as u32
    }
}

// Looks at the block of the first octet, and has the calls that follow find it at once. Without
// octets there is nothing to add.
fn look(store: &mut Retain, chain: ChainId, kept: &Interval, own: &[u8]) -> Found
    requires chain_in_range { chain.0 < length store.old.chains }
    requires order { kept.now.lo ≤ kept.now.hi }
    requires long { length own.now ≡ kept.now.hi - kept.now.lo }
    ensures same { store.new ≡ store.old }
    ensures ends { IsTrue result.ends → IsWithin (chain_of store.old chain.0) kept.now.lo }
    ensures whole { IsTrue result.repeats → IsWhole (chain_of store.old chain.0) kept.now.lo (length own.now) }
    ensures agrees { IsTrue result.repeats → Agrees (chain_of store.old chain.0) kept.now.lo own.now }
{
    if kept.lo < kept.hi {
        return store.look(chain, kept.lo, own);
    }
    Found {
        ends: false,
        repeats: true,
    }
}

// Returns the segment's own octets at the offsets of the interval.
fn own_octets<'a>(kept: &Interval, warm: &Warm, seg: &Seg, payload: &'a [u8]) -> &'a [u8]
    requires legal { IsLegal seg.now }
    requires order { kept.now.lo ≤ kept.now.hi }
    requires kept { Keeps (bounds_in warm.now) (off warm.now.base warm.now.acked seg.now.seq) seg.now.len (tcp.has_fin seg.now.flags.0) kept.now }
    requires long { length payload.now ≡ seg.now.len }
    ensures long { length result.now ≡ kept.now.hi - kept.now.lo }
    ensures own { (i : ℕ) → i < kept.now.hi - kept.now.lo →
        slice_index result.now i ≡ slice_index payload.now (nat_of (pos (kept.now.lo + i) -ℤ off warm.now.base warm.now.acked seg.now.seq)) }
{
    if kept.lo < kept.hi {
        let start = warm.octets_before(seg, kept) as usize;
        let size = (kept.hi - kept.lo) as usize;
        &payload[start..start + size]
    } else {
        &payload[..0]
    }
}

// Returns how many cells the octets need.
fn cells_wanted(piece: &Piece<'_>) -> u32
    ensures { result ≡ missing (chain_of piece.now.store.now piece.now.chain.0) piece.now.kept.now.lo (piece.now.kept.now.hi - piece.now.kept.now.lo) }
{
    if piece.found.repeats {
        return 0;
    }
    piece.store.need(piece.chain, piece.kept.lo, piece.size())
}

// Returns whether as many cells are free as the octets need.
fn has_room(piece: &Piece<'_>) -> bool
    ensures { IsTrue result ↔ missing (chain_of piece.now.store.now piece.now.chain.0) piece.now.kept.now.lo (piece.now.kept.now.hi - piece.now.kept.now.lo) ≤ piece.now.store.now.free }
{
    if piece.found.repeats {
        return true;
    }
    piece
        .store
        .has_room(piece.chain, piece.kept.lo, piece.size())
}

// Returns whether an era would hold more cells than the quota, if one is set, with the octets that
// are sent inwards.
fn is_over(piece: &Piece<'_>, quota: Option<u32>) -> bool
    ensures { result ≡ exceeds quota (length (chain_of piece.now.store.now piece.now.chain.0) + missing (chain_of piece.now.store.now piece.now.chain.0) piece.now.kept.now.lo (piece.now.kept.now.hi - piece.now.kept.now.lo)) }
{
    let Some(most) = quota else {
        return false;
    };
    let wanted = cells_wanted(piece);
    u64::from(most) < u64::from(piece.store.held(piece.chain)) + u64::from(wanted)
}

// Returns the rule that drops an inbound segment of the stream, if its octets need more cells than
// its era may take, or than are free.
fn refusal(piece: &Piece<'_>, quota: Option<u32>) -> Option<Rule>
    ensures value { (ws : List Written) (w : Written) → chains.Keeps (chain_of piece.now.store.now piece.now.chain.0) ws → length (chain_of piece.now.store.now piece.now.chain.0) ≡ held_of ws → KeptOf ws w piece.now.kept.now →
        result ≡ (if exceeds quota (held_of ws + wanted_of ws w) then Some rules.TQuota else if nat_lt piece.now.store.now.free (wanted_of ws w) then Some rules.TRoom else None) }
    ensures free { IfNone result (missing (chain_of piece.now.store.now piece.now.chain.0) piece.now.kept.now.lo (piece.now.kept.now.hi - piece.now.kept.now.lo) ≤ piece.now.store.now.free) }
    ensures within { IfNone result (IsAtMost quota (length (chain_of piece.now.store.now piece.now.chain.0) + missing (chain_of piece.now.store.now piece.now.chain.0) piece.now.kept.now.lo (piece.now.kept.now.hi - piece.now.kept.now.lo))) }
{
    chain_is_counted(piece.store, piece.chain);
    let over = is_over(piece, quota);
    if over {
        return Some(Rule::TQuota);
    }
    let fits = has_room(piece);
    if !fits {
        return Some(Rule::TRoom);
    }
    None
}

// Returns whether an octet of the segment differs from the one that was sent first at its offset.
fn clashes(piece: &Piece<'_>, own: &[u8]) -> bool
    requires long { length own.now ≡ piece.now.kept.now.hi - piece.now.kept.now.lo }
    requires agrees { IsTrue piece.now.found.repeats → Agrees (chain_of piece.now.store.now piece.now.chain.0) piece.now.kept.now.lo own.now }
    ensures { (result ≡ false) ↔ Settles (chain_of piece.now.store.now piece.now.chain.0) piece.now.kept.now.lo own.now own.now }
{
    let Found { ends, repeats } = piece.found;
    if ends {
        return false;
    }
    if repeats {
        return false;
    }
    // The end of the interval is below 2^64.
    let _end = piece.kept.hi;
    !piece.store.agrees(piece.chain, piece.kept.lo, own)
}

// Fills the front of the scratch with the octets that were sent first, and where there is none with
// the segment's own, if a rule rewrites the segment. `clash` says whether an octet differs from the
// one that was sent first at its offset: otherwise none is looked up. Returns true if no rule
// rewrites it.
fn fill_kept(piece: &Piece<'_>, own: &[u8], rows: &Fixes, clash: bool, scratch: &mut [u8]) -> bool
    requires long { length own.now ≡ piece.now.kept.now.hi - piece.now.kept.now.lo }
    requires own { clash ≡ false → Settles (chain_of piece.now.store.now piece.now.chain.0) piece.now.kept.now.lo own.now own.now }
    requires room { MAX_PAYLOAD ≤ length scratch.old }
    ensures as_read { result ≡ (length rows.now.items == 0) }
    ensures settled { result ≡ false → Settles (chain_of piece.now.store.now piece.now.chain.0) piece.now.kept.now.lo own.now (take (length own.now) scratch.new) }
{
    if rows.is_empty() {
        return true;
    }
    let octets = &mut scratch[..piece.size() as usize];
    octets.copy_from_slice(own);
    if !clash {
        return false;
    }
    let _differs = piece.store.settle(piece.chain, piece.kept.lo, octets);
    false
}

// Returns the refusal of a segment of such an era.
#[inline(never)]
pub(super) fn refuse_early(flow: &Flow, arrival: &Arrival<'_>) -> Refusal
    requires plain { IsPlain arrival.now }
    requires early { is_acknowledged (state_in flow.now.era) ≡ false }
    ensures { (norm : TcpNorm) (key : FlowKey) (slot : Slot) (settings : PlainSettings) (calls : List Call) (d : Datagram) → IsFound norm arrival.now (record { key = key; slot = slot; flow = flow.now }) →
        StandsFor settings norm calls → IsDatagram arrival.now.packet.now arrival.now.link.now d → IsDropped settings calls d arrival.now norm (Drop result) }
{
    states_are_the_lists();
    let seg = bare_seg(arrival);
    let probe = cold_probe(&seg);
    Refusal {
        rule: Rule::TState,
        era: Some(flow.number),
        probe: Some(probe),
    }
}
