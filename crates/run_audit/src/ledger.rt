//! The state of an era, from the segments written in it.
ghost use Rattle.std.specs.Prelude.{◌≡◌, ℕ, ◌+◌, ◌^◌, ◌<◌, ◌==◌, ◌&&◌, ◌||◌, not, nat_lt, max, [], List, length, Some, IfOk};
ghost use Rattle.wire_base.specs.Segments.{Written};
ghost use Rattle.wire_base.specs.Tcp.{has_fin};
ghost use Rattle.era_state.specs.Offsets.{natural, number_in, off};
ghost use Rattle.run_audit.specs.working.EraLedgers.{raised_to};

use crate::Reason;
use crate::octets::Octets;
use crate::offset::{Offset, begin};
use edge_io::NoMemory;
use std::alloc::Global;
use wire_base::{Flags, sequence_plus};

/// The fields of a segment that went inwards that the state of its era depends on.
#[derive(Clone, Copy)]
pub(crate) struct Inward<'a> {
    pub(crate) seq: u32,
    pub(crate) flags: Flags,
    pub(crate) octets: &'a [u8],
}

impl Inward<'_> {
    // Returns whether the segment has octets or a FIN.
    fn brings_something(&self) -> bool
        ensures { result ≡ (nat_lt 0 (length self.now.octets.now) || has_fin self.now.flags.0) }
    {
        !self.octets.is_empty() || self.flags.fin()
    }
}

/// The state of an era: its base, once it is fixed; the greatest acknowledged offset; and the
/// offset after all octets, if there are any. Also the end, once a FIN sets it, and the first
/// octets at their offsets.
#[derive(Drop)]
pub(crate) struct Ledger {
    base: Option<u32>,
    acked: u64,
    top: Option<Offset>,
    end: Option<Offset>,
    octets: Octets,
}

impl Ledger {
    ghost use Rattle.run_audit.specs.working.EraLedgers.{IsInward, IsOutward, IsVerdict, IsVerdictAt, StandsFor, acked_with as acked_with_number, counted, end_with, may_end, settled, top_with};

    /// Returns the state of an era without segments.
    pub(crate) fn new(alloc: Global) -> Ledger
        ensures { StandsFor result [] }
    {
        Ledger {
            base: None,
            acked: 0,
            top: None,
            end: None,
            octets: Octets::new(alloc),
        }
    }

    /// Adds a segment that went outwards, with these flags and this acknowledgment number. Before a
    /// base is fixed a RST acknowledges nothing.
    pub(crate) fn acknowledge(&mut self, flags: Flags, number: u32)
        requires { self.old.acked < 2 ^ 63 }
        ensures { (ws : List Written) (w : Written) → StandsFor self.old ws → IsOutward flags.0 number w → StandsFor self.new (counted ws w) }
    {
        if !flags.ack() {
            return;
        }
        if let Some(base) = self.base {
            self.reach(base, number);
            return;
        }
        if flags.rst() {
            return;
        }
        self.base = Some(number);
        self.reach(number, number);
    }

    /// Adds a segment that went inwards, or returns its fault; after a fault the state has no
    /// meaning.
    pub(crate) fn judge(&mut self, segment: Inward<'_>) -> Result<Option<Reason>, NoMemory>
        requires room { self.old.acked < 2 ^ 63 }
        requires short { length segment.octets.now < 2 ^ 16 }
        ensures { IfOk result (λ verdict. (ws : List Written) (w : Written) → StandsFor self.old ws → IsInward segment.entry w → IsVerdict self.new ws w verdict) }
    {
        let behind = sequence_plus(segment.seq, 1);
        let syn = segment.flags.syn();
        let Some(base) = self.base_with(syn, behind) else {
            if segment.brings_something() {
                return Ok(Some(Reason::Base));
            }
            return Ok(None);
        };
        if is_another(syn, behind, base) {
            return Ok(Some(Reason::Syn));
        }
        self.judge_octets(base, segment)
    }

    // Fixes the base at the number after a SYN, if none is fixed. Returns the base.
    fn base_with(&mut self, syn: bool, behind: u32) -> Option<u32>
        ensures changes { self.new ≡ settled self.old syn behind }
        ensures base { result ≡ self.new.base }
        ensures same { self.new.acked ≡ self.old.acked }
    {
        if syn && self.base.is_none() {
            self.base = Some(behind);
        }
        self.base
    }

    // Adds the octets and the FIN of a segment that went inwards, with this base. Returns their
    // fault.
    fn judge_octets(&mut self, base: u32, segment: Inward<'_>) -> Result<Option<Reason>, NoMemory>
        requires room { self.old.acked < 2 ^ 63 }
        requires short { length segment.octets.now < 2 ^ 16 }
        ensures same_base { IfOk result (λ _. self.new.base ≡ self.old.base) }
        ensures verdict { IfOk result (λ verdict. (ws : List Written) (w : Written) → IsInward segment.entry w → IsVerdictAt base self.old self.new ws w verdict) }
    {
        let place = Offset::of(base, self.acked, segment.seq);
        let behind = place.after(segment.octets.len());
        if !self.octets.add(place, segment.octets, self.end)? {
            return Ok(Some(Reason::Octet));
        }
        self.rise(segment.octets.len(), behind);
        if !self.ends_at(segment.flags.fin(), behind) {
            return Ok(Some(Reason::Fin));
        }
        Ok(None)
    }

    // Raises the offset after all octets to the end of a segment's octets, if it has any.
    fn rise(&mut self, octets: usize, behind: Offset)
        ensures { self.new ≡ record self.old { top = top_with self.old.top octets behind } }
    {
        if octets > 0 {
            self.top = Some(raise(self.top, behind));
        }
    }

    // Returns whether a segment has no FIN, or one that may be at this offset. If an end is
    // known, it must be there. Otherwise it must not be below the offset after all octets, which is
    // 0 without octets. The first FIN sets the end.
    fn ends_at(&mut self, fin: bool, place: Offset) -> bool
        ensures right { result ≡ may_end fin self.old.end self.old.top place }
        ensures changes { self.new ≡ record self.old { end = end_with fin self.old.end place } }
    {
        if !fin {
            return true;
        }
        match self.end {
            Some(end) => place == end,
            None => {
                self.end = Some(place);
                let top = self.top.unwrap_or(begin());
                top.raised <= place.raised
            }
        }
    }

    // Raises the greatest acknowledged offset to that of an acknowledgment number.
    fn reach(&mut self, base: u32, number: u32)
        requires { self.old.acked < 2 ^ 63 }
        ensures { self.new ≡ record self.old { acked = acked_with_number base self.old.acked number } }
    {
        self.acked = acked_with(base, self.acked, number);
    }
}

// Returns the offset after all octets, with octets that end at `behind`.
fn raise(top: Option<Offset>, behind: Offset) -> Offset
    ensures { result ≡ raised_to top behind }
{
    match top {
        Some(top) => Offset {
            raised: top.raised.max(behind.raised),
        },
        None => behind,
    }
}

// Returns whether a segment has a SYN, and its sequence number is not the one before the base.
fn is_another(syn: bool, behind: u32, base: u32) -> bool
    ensures { result ≡ (syn && not (behind == base)) }
{
    syn && behind != base
}

// Returns the greatest acknowledged offset, with one more acknowledgment number.
fn acked_with(base: u32, acked: u64, number: u32) -> u64
    requires { acked < 2 ^ 63 }
    ensures value { result ≡ max acked (number_in (natural (off base acked number))) }
    ensures near { result < acked + 2 ^ 31 }
{
    acked.max(Offset::of(base, acked, number).or_zero())
}
