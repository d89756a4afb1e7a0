//! An era, and the transitions of segments.
ghost use Rattle.std.specs.Prelude.{◌≡◌, ℕ, ◌+◌, ◌^◌, ◌<◌, ◌≤◌, List, [], ◌∷◌, ◌++◌, length, Some, is_none, true, false, if◌then◌else◌};
ghost use Rattle.wire_base.specs.Segments.{Written};
ghost use Rattle.wire_base.specs.Tcp as tcp;
ghost use Rattle.era_state.specs.Offsets.{off};
ghost use Rattle.era_state.specs.SegmentFields.{sent, came};
ghost use Rattle.era_state.specs.Rules.{is_awaited, follows, precedes};
ghost use Rattle.era_state.specs.declared.era.SynAnswer.TheVariants.{Hear, Reopen, Stray};
ghost use Rattle.era_state.specs.EraFields.{CalledFor, OfferedFor, WarmFor, is_over_in};

use crate::called::Called;
use crate::offered::Offered;
use crate::offset::{Interval, Offset};
use crate::segment::Seg;
use crate::warm::Warm;
use wire_base::sequence_plus;

/// Era in which both sides have sent a FIN and the inbound FIN is acknowledged.
#[derive(Clone, Copy)]
pub struct Closed {
    pub last: Warm,
    ghost over: { is_over_in last ≡ true },
}

/// The four states of an era.
#[derive(Clone, Copy)]
pub enum Era {
    Called(Called),
    Offered(Offered),
    Warm(Warm),
    Closed(Closed),
}

/// Transition of an outbound segment: the era continues, or ends with or without a new one.
#[derive(Clone, Copy)]
pub enum Moved {
    Next(Era),
    Reopen,
    Reset,
}

/// Answer of a live era to an inbound SYN.
#[derive(Clone, Copy)]
pub enum SynAnswer {
    /// T_STATE: it is dropped.
    Early,
    /// T_SYN: it is dropped.
    Stray,
    /// It ends the era and begins another.
    Reopen,
    /// The era hears it.
    Hear,
}

// Returns whether the sequence number is at an offset from `acked` to `next`, both included.
fn is_awaited(base: u32, acked: u64, next: u64, sequence: u32) -> bool
    requires acked { acked < 2 ^ 63 + 2 ^ 32 }
    requires next { next < 2 ^ 63 + 2 ^ 33 }
    ensures { result ≡ is_awaited base acked next sequence }
{
    let place = Offset::of(base, acked, sequence);
    let below = place.is_below(acked);
    let above = place.is_above(next);
    !below && !above
}

// Returns whether the number is one past that of `call`, if there is one.
fn follows(call: Option<u32>, number: u32) -> bool
    ensures { result ≡ follows call number }
{
    match call {
        None => false,
        Some(call) => number == sequence_plus(call, 1),
    }
}

// Returns whether the sequence number is the one before the base, if one is fixed.
fn precedes(base: Option<u32>, sequence: u32) -> bool
    ensures { result ≡ precedes base sequence }
{
    match base {
        None => false,
        Some(base) => sequence_plus(sequence, 1) == base,
    }
}

// Returns the answer of an era of this base to a SYN; `reopens` says whether a SYN of another
// number reopens the era.
fn repeated(base: u32, sequence: u32, reopens: bool) -> SynAnswer
    ensures { result ≡ (if precedes (Some base) sequence then Hear else if reopens then Reopen else Stray) }
{
    if sequence_plus(sequence, 1) == base {
        SynAnswer::Hear
    } else if reopens {
        SynAnswer::Reopen
    } else {
        SynAnswer::Stray
    }
}

impl Era {
    ghost use Rattle.era_state.specs.SynAnswers.{is_reopen, syn_answer};
    ghost use Rattle.era_state.specs.Rules.{reopens_outward, reopens_outward_at, reopens_inward, t_state, t_syn, takes_reset, t_rst};
    ghost use Rattle.era_state.specs.States.{is_called, is_offered, is_closed};
    ghost use Rattle.era_state.specs.Eras.{StandsFor, IsSettled, MovesSettled, MovesTo, MovesNear, MovesSame, NextIs, is_reset, state_in, base_in, iss_in, acked_in, octets_in, last_in, GivesTo, ForwardsIn};
    ghost use Rattle.era_state.specs.Quantities.{base_at, fresh_places, octets_of};
    ghost use Rattle.era_state.specs.KeptIntervals.{KeptOf};
    ghost use Rattle.era_state.specs.WrittenFrames.{IsFrame};

    /// Returns the era in the state Warm or Closed.
    pub fn settled(last: Warm) -> Era
        ensures stands { (ws : List Written) → WarmFor last ws → StandsFor result ws }
        ensures same { acked_in result ≡ last.acked }
        ensures settled { IsSettled result }
        ensures octets { octets_in result ≡ last.octets }
        ensures last { last_in result ≡ Some last }
    {
        if last.is_over() {
            Era::Closed(Closed { last })
        } else {
            Era::Warm(last)
        }
    }

    // Returns the era after an outbound segment of a Called era.
    fn called_goes_on(era: Called, seg: &Seg) -> Era
        requires legal { tcp.are_legal seg.now.flags.0 ≡ true }
        requires no_rst { tcp.has_rst seg.now.flags.0 ≡ false }
        ensures stands { (ws : List Written) (octets : List ℕ) → length octets ≡ seg.now.len → CalledFor era ws → StandsFor result (ws ++ sent seg.now octets ∷ []) }
        ensures near { acked_in result < 2 ^ 31 }
        ensures settled { IsSettled result }
        ensures octets { octets_in result ≡ 0 }
    {
        if seg.flags.ack() {
            Era::settled(Warm::open(seg.ack, Some(era.iss), era.syns, false, 0, seg))
        } else {
            Era::Called(era.again(seg))
        }
    }

    // Returns the era after an outbound segment of an Offered era.
    fn offered_goes_on(era: Offered, seg: &Seg) -> Era
        requires legal { tcp.are_legal seg.now.flags.0 ≡ true }
        requires no_rst { tcp.has_rst seg.now.flags.0 ≡ false }
        ensures stands { (ws : List Written) (octets : List ℕ) → length octets ≡ seg.now.len → OfferedFor era ws → StandsFor result (ws ++ sent seg.now octets ∷ []) }
        ensures near { acked_in result < 2 ^ 31 }
        ensures settled { IsSettled result }
        ensures octets { octets_in result ≡ 0 }
    {
        match seg.acknowledged(era.base, 0) {
            Some(place) => Era::settled(Warm::open(
                era.base,
                era.iss,
                era.syns,
                era.out_fin,
                place,
                seg,
            )),
            None => Era::Offered(era.sent(seg)),
        }
    }

    // Returns the era after an outbound segment of a Closed era.
    fn closed_goes_on(era: Closed, seg: &Seg) -> Era
        requires { era.last.acked < 2 ^ 63 }
        ensures stands { (ws : List Written) (octets : List ℕ) → length octets ≡ seg.now.len → WarmFor era.last ws → StandsFor result (ws ++ sent seg.now octets ∷ []) }
        ensures near { acked_in result < era.last.acked + 2 ^ 31 }
        ensures settled { IsSettled result }
        ensures octets { octets_in result ≡ era.last.octets }
    {
        let mut last = era.last;
        last.send(seg);
        Era::settled(last)
    }

    /// Changes the era by an outbound segment that neither ends nor reopens it.
    pub fn go_on(&mut self, seg: &Seg)
        requires legal { tcp.are_legal seg.now.flags.0 ≡ true }
        requires no_rst { tcp.has_rst seg.now.flags.0 ≡ false }
        requires acked { acked_in self.old < 2 ^ 63 }
        ensures stands { (ws : List Written) (octets : List ℕ) → length octets ≡ seg.now.len → StandsFor self.old ws → StandsFor self.new (ws ++ sent seg.now octets ∷ []) }
        ensures near { acked_in self.new < acked_in self.old + 2 ^ 31 }
        ensures settled { IsSettled self.new }
        ensures octets { octets_in self.new ≡ octets_in self.old }
    {
        match self {
            Era::Called(era) => *self = Era::called_goes_on(*era, seg),
            Era::Offered(era) => *self = Era::offered_goes_on(*era, seg),
            Era::Warm(era) => {
                era.send(seg);
                if era.is_over() {
                    *self = Era::Closed(Closed { last: *era });
                }
            }
            Era::Closed(era) => *self = Era::closed_goes_on(*era, seg),
        }
    }

    /// Returns the transition of an outbound segment. `Reset` exactly on RST, `Reopen` exactly on a
    /// SYN that reopens.
    pub fn outbound(mut self, seg: &Seg) -> Moved
        requires legal { tcp.are_legal seg.now.flags.0 ≡ true }
        requires acked { acked_in self < 2 ^ 63 }
        ensures moves { (ws : List Written) → StandsFor self ws → MovesTo ws seg.now result }
        ensures near { MovesNear self result }
        ensures settled { MovesSettled result }
        ensures octets { MovesSame self result }
        ensures reset { tcp.has_rst seg.now.flags.0 ≡ is_reset result }
    {
        if seg.flags.rst() {
            return Moved::Reset;
        }
        if self.calls_anew(seg) {
            return Moved::Reopen;
        }
        self.go_on(seg);
        Moved::Next(self)
    }

    /// Changes a Warm or Closed era by a frame that is written with the octets and the FIN of this
    /// interval; `fresh` of the octets are the first at their offsets.
    pub fn forward(&mut self, kept: &Interval, fresh: u32)
        requires given { GivesTo self.old kept.now }
        requires fresh { kept.now.lo + fresh ≤ kept.now.hi }
        requires few { octets_in self.old + fresh < 2 ^ 64 }
        ensures value { ForwardsIn kept.now fresh self.old self.new }
        ensures list { (ws : List Written) (w frame : Written) → StandsFor self.old ws → KeptOf ws w kept.now → IsFrame ws w kept.now frame → fresh ≡ fresh_places (base_at ws) ws kept.now.lo kept.now.hi → StandsFor self.new (ws ++ frame ∷ []) }
        ensures same { acked_in self.new ≡ acked_in self.old }
        ensures settled { IsSettled self.new }
        ensures octets { octets_in self.new ≡ octets_in self.old + fresh }
    {
        match self {
            Era::Called(_) | Era::Offered(_) => unreachable!(),
            Era::Warm(era) => {
                era.forward(kept, fresh);
                if era.is_over() {
                    *self = Era::Closed(Closed { last: *era });
                }
            }
            Era::Closed(era) => *self = Era::settled(era.last.forwarded(kept, fresh)),
        }
    }

    /// Changes the era by an inbound SYN that passed.
    pub fn hear(&mut self, seg: &Seg)
        requires legal { tcp.are_legal seg.now.flags.0 ≡ true }
        requires syn { tcp.has_syn seg.now.flags.0 ≡ true }
        ensures stands { (ws : List Written) → StandsFor self.old ws → StandsFor self.new (ws ++ came seg.now ∷ []) }
        ensures same { acked_in self.new ≡ acked_in self.old }
        ensures settled { IsSettled self.new }
        ensures octets { octets_in self.new ≡ octets_in self.old }
    {
        match self {
            Era::Called(era) => *self = Era::Offered(era.answered(seg)),
            Era::Offered(era) => era.hear(seg),
            Era::Warm(era) => {
                era.hear(seg);
                if era.is_over() {
                    *self = Era::Closed(Closed { last: *era });
                }
            }
            Era::Closed(era) => era.last.hear(seg),
        }
    }

    /// Returns the era after an inbound SYN that passed.
    pub fn seen_syn(mut self, seg: &Seg) -> Era
        requires legal { tcp.are_legal seg.now.flags.0 ≡ true }
        requires syn { tcp.has_syn seg.now.flags.0 ≡ true }
        ensures stands { (ws : List Written) → StandsFor self ws → StandsFor result (ws ++ came seg.now ∷ []) }
        ensures same { acked_in result ≡ acked_in self }
        ensures settled { IsSettled result }
        ensures octets { octets_in result ≡ octets_in self }
    {
        self.hear(seg);
        self
    }

    /// Returns the offset after all that is acknowledged, was written inwards, or is the end; none
    /// before a base is fixed. (Next of docs/CONNECTIONS.md; an offset in octets.)
    pub fn next_place(&self) -> Option<u64>
        ensures called { is_none result ≡ is_called (state_in self.now) }
        ensures list { (ws : List Written) → StandsFor self.now ws → NextIs result ws }
    {
        match self {
            Era::Called(_) => None,
            Era::Offered(_) => Some(0),
            Era::Warm(era) => Some(era.next()),
            Era::Closed(era) => Some(era.last.next()),
        }
    }

    /// Returns the greatest acknowledged offset, or 0 if there is none.
    pub fn acknowledged(&self) -> u64
        ensures { result ≡ acked_in self.now }
    {
        match self {
            Era::Called(_) => 0,
            Era::Offered(_) => 0,
            Era::Warm(era) => era.acked,
            Era::Closed(era) => era.last.acked,
        }
    }

    /// Returns the number of offsets with an octet.
    pub fn octets(&self) -> u64
        ensures value { result ≡ octets_in self.now }
        ensures list { (ws : List Written) → StandsFor self.now ws → result ≡ octets_of ws }
    {
        match self {
            Era::Called(_) => 0,
            Era::Offered(_) => 0,
            Era::Warm(era) => era.octets,
            Era::Closed(era) => era.last.octets,
        }
    }

    fn is_called(&self) -> bool
        ensures { result ≡ is_called (state_in self.now) }
    {
        matches!(self, Era::Called(_))
    }

    fn is_offered(&self) -> bool
        ensures { result ≡ is_offered (state_in self.now) }
    {
        matches!(self, Era::Offered(_))
    }

    fn is_closed(&self) -> bool
        ensures { result ≡ is_closed (state_in self.now) }
    {
        matches!(self, Era::Closed(_))
    }

    fn base(&self) -> Option<u32>
        ensures { result ≡ base_in self.now }
    {
        match self {
            Era::Called(_) => None,
            Era::Offered(era) => Some(era.base),
            Era::Warm(era) => Some(era.base),
            Era::Closed(era) => Some(era.last.base),
        }
    }

    fn first_call(&self) -> Option<u32>
        ensures { result ≡ iss_in self.now }
    {
        match self {
            Era::Called(era) => Some(era.iss),
            Era::Offered(era) => era.iss,
            Era::Warm(era) => era.iss,
            Era::Closed(era) => era.last.iss,
        }
    }

    /// Returns whether an outbound segment is a SYN that opens another connection.
    pub fn calls_anew(&self, seg: &Seg) -> bool
        ensures value { result ≡ reopens_outward_at (state_in self.now) (iss_in self.now) (sent seg.now []) }
        ensures list { (ws : List Written) → StandsFor self.now ws → result ≡ reopens_outward ws (sent seg.now []) }
    {
        if !seg.flags.syn() {
            return false;
        }
        match self.first_call() {
            None => !self.is_offered(),
            Some(iss) => iss != seg.seq,
        }
    }

    /// Returns whether an inbound segment ends the era and begins a new one.
    pub fn is_reopened_by(&self, seg: &Seg) -> bool
        requires { tcp.are_legal seg.now.flags.0 ≡ true }
        ensures { (ws : List Written) → StandsFor self.now ws → result ≡ reopens_inward ws (came seg.now) }
    {
        let closed = self.is_closed();
        let syn = seg.flags.syn();
        let ack = seg.flags.ack();
        let again = precedes(self.base(), seg.seq);
        closed && (syn && !ack) && !again
    }

    /// Returns whether the rule T_STATE applies to an inbound segment.
    pub fn is_early(&self, seg: &Seg) -> bool
        requires { tcp.are_legal seg.now.flags.0 ≡ true }
        ensures { (ws : List Written) → StandsFor self.now ws → result ≡ t_state ws (came seg.now) }
    {
        let called = self.is_called();
        let offered = self.is_offered();
        let rst = seg.flags.rst();
        let syn = seg.flags.syn();
        let ack = seg.flags.ack();
        let answers = follows(self.first_call(), seg.ack);
        !rst && (called && (!syn || ack && !answers) || offered && !syn)
    }

    /// Returns whether the rule T_SYN applies to an inbound segment.
    pub fn is_stray_syn(&self, seg: &Seg) -> bool
        requires { tcp.are_legal seg.now.flags.0 ≡ true }
        ensures { (ws : List Written) → StandsFor self.now ws → result ≡ t_syn ws (came seg.now) }
    {
        let called = self.is_called();
        let closed = self.is_closed();
        let syn = seg.flags.syn();
        let ack = seg.flags.ack();
        let again = precedes(self.base(), seg.seq);
        syn && !again && !called && (!closed || ack)
    }

    /// Judges an inbound SYN.
    pub fn judge_syn(&self, seg: &Seg) -> SynAnswer
        requires legal { tcp.are_legal seg.now.flags.0 ≡ true }
        requires syn { tcp.has_syn seg.now.flags.0 ≡ true }
        ensures answer { (ws : List Written) → StandsFor self.now ws → result ≡ syn_answer ws (came seg.now) }
        ensures reopens { (ws : List Written) → StandsFor self.now ws → is_reopen result ≡ reopens_inward ws (came seg.now) }
        ensures alone { result ≡ Reopen → tcp.has_ack seg.now.flags.0 ≡ false }
    {
        let ack = seg.flags.ack();
        match self {
            Era::Called(era) => {
                let answers = follows(Some(era.iss), seg.ack);
                if ack && !answers {
                    SynAnswer::Early
                } else {
                    SynAnswer::Hear
                }
            }
            Era::Offered(era) => repeated(era.base, seg.seq, false),
            Era::Warm(era) => repeated(era.base, seg.seq, false),
            Era::Closed(era) => repeated(era.last.base, seg.seq, !ack),
        }
    }

    // Returns whether a reset acknowledges the first SYN, or has an awaited sequence number.
    fn takes_reset(&self, seg: &Seg) -> bool
        ensures { (ws : List Written) → StandsFor self.now ws → result ≡ takes_reset ws (came seg.now) }
    {
        match self {
            Era::Called(era) => seg.flags.ack() & follows(Some(era.iss), seg.ack),
            Era::Offered(era) => is_awaited(era.base, 0, 0, seg.seq),
            Era::Warm(era) => is_awaited(era.base, era.acked, era.next(), seg.seq),
            Era::Closed(era) => is_awaited(era.last.base, era.last.acked, era.last.next(), seg.seq),
        }
    }

    /// Returns whether the rule T_RST applies to an inbound segment.
    pub fn is_stray_reset(&self, seg: &Seg) -> bool
        requires { tcp.are_legal seg.now.flags.0 ≡ true }
        ensures { (ws : List Written) → StandsFor self.now ws → result ≡ t_rst ws (came seg.now) }
    {
        let rst = seg.flags.rst();
        let takes = self.takes_reset(seg);
        rst && !takes
    }
}
