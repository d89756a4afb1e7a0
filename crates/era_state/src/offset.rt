//! Sequence numbers as offsets of a stream, and which octets of an inbound segment are forwarded.
ghost use Rattle.std.specs.Prelude.{◌≡◌, ℕ, ◌+◌, ◌^◌, ◌<◌, ◌≤◌, pos, int_lt, ◌+ℤ◌, ◌≤ℤ◌, Some};
ghost use Rattle.std.specs.Ordering.{int_eq};
ghost use Rattle.era_state.specs.Offsets.{off, natural, nat_of};
ghost use Rattle.era_state.specs.ForwardedOctets.{top_after, end_after};

use wire_base::{sequence_distance, sequence_plus};

// 2^31, half of the sequence numbers.
const HALF: u64 = 2147483648;

/// Forwarded octets of a segment, from the offset `lo` to below `hi` (none if these are equal);
/// whether its FIN is forwarded; and whether the rules T_OLD (`below`), T_WINDOW and T_END hold.
#[derive(Clone, Copy, Debug, PartialEq, Eq)]
pub struct Interval {
    pub lo: u64,
    pub hi: u64,
    pub fin: bool,
    pub below: bool,
    pub window: bool,
    pub end: bool,
}

impl Interval {
    // Returns the offset after all octets written inwards, including these.
    pub(crate) fn top_after(&self, top: u64) -> u64
        ensures { result ≡ top_after top self.now.lo self.now.hi }
    {
        if self.lo < self.hi {
            top.max(self.hi)
        } else {
            top
        }
    }

    // Returns the end: the offset of the first FIN stays.
    pub(crate) fn end_after(&self, end: Option<u64>) -> Option<u64>
        ensures { result ≡ end_after end self.now.fin self.now.hi }
    {
        match end {
            Some(end) => Some(end),
            None => { if self.fin { Some(self.hi) } else { None } }
        }
    }
}

// Offset of a sequence number in a stream, which may be below 0; stored 2^31 larger.
#[derive(Clone, Copy)]
pub(crate) struct Offset {
    raised: u64,
}

impl Offset {
    ghost use Rattle.era_state.specs.working.StoredOffsets.{offset_in};

    // Returns the offset of a number relative to `acked`.
    pub(crate) fn of(base: u32, acked: u64, number: u32) -> Offset
        requires { acked < 2 ^ 63 + 2 ^ 32 }
        ensures value { offset_in result ≡ off base acked number }
        ensures near { result.raised < acked + 2 ^ 32 }
    {
        let past = sequence_distance(sequence_plus(base, acked), number);
        if past < HALF {
            Offset {
                raised: acked + past + HALF,
            }
        } else {
            Offset {
                raised: acked + past - HALF,
            }
        }
    }

    // Returns the offset `octets` further.
    pub(crate) fn after(self, octets: u32) -> Offset
        requires { self.raised < 2 ^ 63 + 2 ^ 33 }
        ensures value { offset_in result ≡ offset_in self +ℤ pos octets }
        ensures near { result.raised ≡ self.raised + octets }
    {
        Offset {
            raised: self.raised + u64::from(octets),
        }
    }

    // Returns the offset, or none if it is below 0.
    pub(crate) fn place(self) -> Option<u64>
        ensures value { result ≡ natural (offset_in self) }
        ensures near { (place : ℕ) → result ≡ Some place → place + 2 ^ 31 ≤ self.raised }
    {
        if self.raised < HALF {
            None
        } else {
            Some(self.raised - HALF)
        }
    }

    // Returns the offset, or 0 if it is below 0.
    pub(crate) fn or_zero(self) -> u64
        ensures { result ≡ nat_of (offset_in self) }
    {
        self.raised.saturating_sub(HALF)
    }

    // Returns the number of octets from this offset to `place`, which is not below it.
    pub(crate) fn octets_to(self, place: u64) -> u64
        requires near { place < 2 ^ 63 + 2 ^ 33 }
        requires order { offset_in self ≤ℤ pos place }
        ensures { offset_in self +ℤ pos result ≡ pos place }
    {
        place + HALF - self.raised
    }

    // Returns whether the offset is below `place`.
    pub(crate) fn is_below(self, place: u64) -> bool
        requires { place < 2 ^ 63 + 2 ^ 33 }
        ensures { result ≡ int_lt (offset_in self) (pos place) }
    {
        self.raised < place + HALF
    }

    // Returns whether the offset is above `place`.
    pub(crate) fn is_above(self, place: u64) -> bool
        requires { place < 2 ^ 63 + 2 ^ 33 }
        ensures { result ≡ int_lt (pos place) (offset_in self) }
    {
        place + HALF < self.raised
    }

    // Returns whether the offset is `place`.
    pub(crate) fn is_at(self, place: u64) -> bool
        requires { place < 2 ^ 63 + 2 ^ 33 }
        ensures { result ≡ int_eq (offset_in self) (pos place) }
    {
        self.raised == place + HALF
    }
}
