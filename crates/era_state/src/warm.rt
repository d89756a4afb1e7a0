//! An era in which an offset of the stream is acknowledged.
ghost use Rattle.std.specs.Prelude.{◌≡◌, ℕ, ◌+◌, ◌*◌, ◌^◌, ◌≤◌, ◌<◌, max, List, [], ◌∷◌, ◌++◌, length, Some, is_some, true, false};
ghost use Rattle.wire_base.specs.Segments.{Written};
ghost use Rattle.wire_base.specs.Tcp as tcp;
ghost use Rattle.era_state.specs.Offsets.{number_in, whole};
ghost use Rattle.era_state.specs.SegmentMarks.{edge_place};
ghost use Rattle.era_state.specs.SegmentFields.{sent, received, came};
ghost use Rattle.wire_base.specs.declared.limits.TheConstants.{MAX_SHIFT};

use crate::offset::{Interval, Offset};
use crate::segment::Seg;
use crate::syns::Syns;
use wire_base::sequence_plus;

/// Era in which an offset of the stream is acknowledged. `base` is the number of the stream's first
/// octet, `iss` that of the first outbound SYN (if there is one), and `out` that after the last
/// outbound segment. `acked` is the greatest acknowledged offset, `edge` the greatest end of a
/// window, and `top` the offset after all octets written inwards. `end` is the offset of the
/// inbound FIN (if one was written), `out_fin` whether an outbound FIN was written, and `octets`
/// the number of offsets with an octet. Offsets count octets from the stream's first one.
#[derive(Clone, Copy)]
pub struct Warm {
    pub base: u32,
    pub iss: Option<u32>,
    pub out: u32,
    pub syns: Syns,
    pub acked: u64,
    pub edge: u64,
    pub top: u64,
    pub end: Option<u64>,
    pub out_fin: bool,
    pub octets: u64,
    ghost called: { is_some iss ≡ syns.out_seen },
    ghost edge_small: { edge < 2 ^ 63 + 2 ^ 32 },
    ghost window_open: { acked ≤ edge },
    ghost window_small: { edge ≤ acked + 65535 * 2 ^ 14 },
    ghost top_in_window: { top ≤ edge + 1 },
    ghost end_above: { (place : ℕ) → end ≡ Some place → top ≤ place },
    ghost end_in_window: { (place : ℕ) → end ≡ Some place → place ≤ edge },
}

// Returns the greater offset.
fn greater(acked: u64, place: Option<u64>) -> u64
    ensures { result ≡ max acked (number_in place) }
{
    match place {
        None => acked,
        Some(place) => acked.max(place),
    }
}

// Returns the greater edge after a segment that may acknowledge an offset.
fn greater_edge(acked: u64, edge: u64, place: Option<u64>, shift: u8, seg: &Seg) -> u64
    requires shift { shift ≤ MAX_SHIFT }
    requires place { (n : ℕ) → place ≡ Some n → n < 2 ^ 63 + 2 ^ 31 }
    requires above { acked ≤ edge }
    requires near { edge ≤ acked + 65535 * 2 ^ 14 }
    ensures value { (octets : List ℕ) → result ≡ max edge (edge_place place shift (sent seg.now octets)) }
    ensures above { max acked (number_in place) ≤ result }
    ensures near { result ≤ max acked (number_in place) + 65535 * 2 ^ 14 }
{
    match place {
        None => edge,
        Some(place) => edge.max(seg.allowed(place, shift)),
    }
}

impl Warm {
    ghost use Rattle.std.specs.Prelude.{None, ◌||◌, ◌-◌, pos, ◌+ℤ◌};
    ghost use Rattle.era_state.specs.Offsets.{off};
    ghost use Rattle.era_state.specs.Quantities.{base_at, behind_end, fresh_places};
    ghost use Rattle.era_state.specs.ForwardedOctets.{reach, is_kept_fin, ends_below, frame_sequence_of};
    ghost use Rattle.era_state.specs.working.StoredOffsets.{offset_in};
    ghost use Rattle.era_state.specs.EraFields.{WarmFor, is_over_in, bounds_in};
    ghost use Rattle.era_state.specs.working.WarmChanges.{WarmOpens, WarmAfter, WarmCalled};
    ghost use Rattle.era_state.specs.FrameChanges.{WarmWith};
    ghost use Rattle.era_state.specs.KeptIntervals.{Keeps, KeptOf};
    ghost use Rattle.era_state.specs.WrittenFrames.{IsGiven, IsFrame};

    // Returns the era after an outbound segment that acknowledges an offset, where none was
    // acknowledged before.
    pub(crate) fn open(
        base: u32,
        iss: Option<u32>,
        syns: Syns,
        out_fin: bool,
        place: u64,
        seg: &Seg,
    ) -> Warm
        requires called { is_some iss ≡ syns.out_seen }
        requires near { place < 2 ^ 31 }
        ensures stands { (octets : List ℕ) → length octets ≡ seg.now.len → WarmOpens base iss syns out_fin place (sent seg.now octets) result }
        ensures acked { result.acked ≡ place }
        ensures octets { result.octets ≡ 0 }
    {
        Warm {
            base,
            iss: seg.first_call(iss),
            out: seg.behind(),
            syns: syns.sent(seg),
            acked: place,
            edge: seg.allowed(place, syns.shift()),
            top: 0,
            end: None,
            out_fin: out_fin | seg.flags.fin(),
            octets: 0,
        }
    }

    /// Returns the era that an outbound segment with ACK and without RST begins.
    pub fn begin(seg: &Seg) -> Warm
        requires legal { tcp.are_legal seg.now.flags.0 ≡ true }
        requires ack { tcp.has_ack seg.now.flags.0 ≡ true }
        requires no_rst { tcp.has_rst seg.now.flags.0 ≡ false }
        ensures stands { (octets : List ℕ) → length octets ≡ seg.now.len → WarmFor result (sent seg.now octets ∷ []) }
    {
        Warm::open(seg.ack, None, Syns::none(), false, 0, seg)
    }

    // Changes the era by an outbound segment.
    #[inline(always)]
    pub(crate) fn send(&mut self, seg: &Seg)
        requires { self.old.acked < 2 ^ 63 }
        ensures stands { (octets : List ℕ) → length octets ≡ seg.now.len → WarmAfter (sent seg.now octets) self.old self.new }
        ensures near { self.new.acked < self.old.acked + 2 ^ 31 }
        ensures octets { self.new.octets ≡ self.old.octets }
    {
        let place = seg.acknowledged(self.base, self.acked);
        let shift = self.syns.shift();
        self.edge = greater_edge(self.acked, self.edge, place, shift, seg);
        self.acked = greater(self.acked, place);
        self.iss = seg.first_call(self.iss);
        self.out = seg.behind();
        self.syns = self.syns.sent(seg);
        self.out_fin |= seg.flags.fin();
    }

    // Changes the era by an inbound SYN.
    pub(crate) fn hear(&mut self, seg: &Seg)
        ensures stands { WarmCalled (came seg.now) self.old self.new }
    {
        self.syns = self.syns.came(seg);
    }

    // Returns whether both sides have sent a FIN and the inbound FIN is acknowledged.
    pub(crate) fn is_over(&self) -> bool
        ensures { result ≡ is_over_in self.now }
    {
        match self.end {
            None => false,
            Some(end) => end + 1 <= self.acked && self.out_fin,
        }
    }

    // Returns the offset after all that is acknowledged, was written inwards, or is the end.
    pub(crate) fn next(&self) -> u64
        ensures { result ≡ max self.now.acked (max self.now.top (behind_end (whole self.now.end))) }
    {
        let most = self.acked.max(self.top);
        match self.end {
            None => most,
            Some(end) => most.max(end + 1),
        }
    }

    // Returns the limit of forwarded octets.
    fn reach(&self) -> u64
        ensures { result ≡ reach (bounds_in self.now) }
    {
        let most = self.edge + 1;
        match self.end {
            None => most,
            Some(end) => most.min(end),
        }
    }

    // Returns whether a FIN at this offset is kept.
    fn is_kept_fin(&self, place: Offset) -> bool
        ensures { result ≡ is_kept_fin (whole self.now.end) (bounds_in self.now) (offset_in place) }
    {
        match self.end {
            None => { !place.is_below(self.top.max(self.acked)) && !place.is_above(self.edge) }
            Some(end) => place.is_at(end),
        }
    }

    // Returns whether the end is known and below this offset.
    fn ends_below(&self, place: Offset) -> bool
        ensures { result ≡ ends_below (whole self.now.end) (offset_in place) }
    {
        match self.end {
            None => false,
            Some(end) => place.is_above(end),
        }
    }

    /// Returns which octets of an inbound segment are forwarded, whether its FIN is, and which
    /// rules hold.
    pub fn interval(&self, seg: &Seg) -> Interval
        requires legal { tcp.are_legal seg.now.flags.0 ≡ true }
        requires no_syn { tcp.has_syn seg.now.flags.0 ≡ false }
        requires no_rst { tcp.has_rst seg.now.flags.0 ≡ false }
        ensures value { Keeps (bounds_in self.now) (off self.now.base self.now.acked seg.now.seq) seg.now.len (tcp.has_fin seg.now.flags.0) result }
        ensures list { (ws : List Written) (octets : List ℕ) → length octets ≡ seg.now.len → WarmFor self.now ws → KeptOf ws (received seg.now octets) result }
        ensures order { result.lo ≤ result.hi }
        ensures short { result.hi ≤ result.lo + seg.now.len }
        ensures above { self.now.acked ≤ result.lo }
        ensures near { result.lo < result.hi → result.hi ≤ self.now.acked + 2 ^ 30 + 1 }
    {
        let from = Offset::of(self.base, self.acked, seg.seq);
        let to = from.after(seg.len);
        let some = 0 < seg.len;
        let fin = seg.flags.fin();
        let kept = self.is_kept_fin(to);
        let below = from.is_below(self.acked);
        let past_window = to.is_above(self.edge + 1);
        let past_end = self.ends_below(to);
        let lo = from.or_zero().max(self.acked);
        let hi = lo.max(to.or_zero().min(self.reach()));
        Interval {
            lo,
            hi,
            fin: fin & kept,
            below: some & below,
            window: some & past_window,
            end: (some & past_end) | (fin & !kept),
        }
    }

    /// Returns the number of octets of an inbound segment before the first forwarded one.
    pub fn octets_before(&self, seg: &Seg, kept: &Interval) -> u32
        requires legal { tcp.are_legal seg.now.flags.0 ≡ true }
        requires kept { Keeps (bounds_in self.now) (off self.now.base self.now.acked seg.now.seq) seg.now.len (tcp.has_fin seg.now.flags.0) kept.now }
        requires some { kept.now.lo < kept.now.hi }
        ensures place { off self.now.base self.now.acked seg.now.seq +ℤ pos result ≡ pos kept.now.lo }
        ensures inside { result + (kept.now.hi - kept.now.lo) ≤ seg.now.len }
    {
        Offset::of(self.base, self.acked, seg.seq).octets_to(kept.lo) as u32
    }

    /// Returns the sequence number of the frame of an inbound segment: that of its first octet;
    /// that of its FIN if only this is forwarded; otherwise the segment's own.
    pub fn frame_sequence(&self, seg: &Seg, kept: &Interval) -> u32
        requires legal { tcp.are_legal seg.now.flags.0 ≡ true }
        requires kept { Keeps (bounds_in self.now) (off self.now.base self.now.acked seg.now.seq) seg.now.len (tcp.has_fin seg.now.flags.0) kept.now }
        ensures { (ws : List Written) (octets : List ℕ) → length octets ≡ seg.now.len → WarmFor self.now ws → result ≡ frame_sequence_of ws (received seg.now octets) }
    {
        let place = if kept.lo < kept.hi {
            kept.lo
        } else if kept.fin {
            Offset::of(self.base, self.acked, seg.seq)
                .after(seg.len)
                .or_zero()
        } else {
            return seg.seq;
        };
        sequence_plus(self.base, place)
    }

    /// Returns the era after the frame with these octets and this FIN; `fresh` of the octets are
    /// the first at their offsets.
    pub fn forwarded(mut self, kept: &Interval, fresh: u32) -> Warm
        requires given { IsGiven self kept.now }
        requires fresh { kept.now.lo + fresh ≤ kept.now.hi }
        requires few { self.octets + fresh < 2 ^ 64 }
        ensures value { WarmWith kept.now fresh self result }
        ensures list { (ws : List Written) (w frame : Written) → WarmFor self ws → KeptOf ws w kept.now → IsFrame ws w kept.now frame → fresh ≡ fresh_places (base_at ws) ws kept.now.lo kept.now.hi → WarmFor result (ws ++ frame ∷ []) }
    {
        self.forward(kept, fresh);
        self
    }

    // Changes the era by the frame with these octets and this FIN; `fresh` of the octets are the
    // first at their offsets.
    pub(crate) fn forward(&mut self, kept: &Interval, fresh: u32)
        requires given { IsGiven self.old kept.now }
        requires fresh { kept.now.lo + fresh ≤ kept.now.hi }
        requires few { self.old.octets + fresh < 2 ^ 64 }
        ensures value { WarmWith kept.now fresh self.old self.new }
        ensures list { (ws : List Written) (w frame : Written) → WarmFor self.old ws → KeptOf ws w kept.now → IsFrame ws w kept.now frame → fresh ≡ fresh_places (base_at ws) ws kept.now.lo kept.now.hi → WarmFor self.new (ws ++ frame ∷ []) }
    {
        self.top = kept.top_after(self.top);
        self.end = kept.end_after(self.end);
        self.octets += u64::from(fresh);
    }
}
