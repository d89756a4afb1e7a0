//! The window scales of an era's SYNs.
ghost use Rattle.std.specs.Prelude.{◌≡◌, ℕ, ◌≤◌, Some, List, [], ◌||◌, max, min, is_some, true};
ghost use Rattle.era_state.specs.Offsets.{number_in};
ghost use Rattle.wire_base.specs.declared.limits.TheConstants.{MAX_SHIFT};

use crate::segment::Seg;
use wire_base::MAX_SHIFT;

/// SYNs that were written, and which of them with a window scale: outbound with the greatest shift,
/// at most 14, inbound with any (RFC 7323 section 2).
#[derive(Clone, Copy)]
pub struct Syns {
    pub out_seen: bool,
    pub out_scale: Option<u8>,
    pub in_seen: bool,
    pub in_scale: bool,
    ghost out_scaled: { is_some out_scale ≡ true → out_seen ≡ true },
    ghost in_scaled: { in_scale ≡ true → in_seen ≡ true },
    ghost small: { (shift : ℕ) → out_scale ≡ Some shift → shift ≤ MAX_SHIFT },
}

// Returns the greater shift, at most 14.
fn greater(old: Option<u8>, new: Option<u8>) -> Option<u8>
    requires { (shift : ℕ) → old ≡ Some shift → shift ≤ MAX_SHIFT }
    ensures some { is_some result ≡ (is_some old || is_some new) }
    ensures number { number_in result ≡ max (number_in old) (min MAX_SHIFT (number_in new)) }
    ensures small { (shift : ℕ) → result ≡ Some shift → shift ≤ MAX_SHIFT }
{
    match (old, new) {
        (None, None) => None,
        (Some(old), None) => Some(old),
        (None, Some(new)) => Some(new.min(MAX_SHIFT)),
        (Some(old), Some(new)) => Some(old.max(new.min(MAX_SHIFT))),
    }
}

impl Syns {
    ghost use Rattle.era_state.specs.SegmentFields.{sent, came};
    ghost use Rattle.era_state.specs.WindowScales.{SynsFor};
    ghost use Rattle.era_state.specs.working.ScaleChanges.{SynsAfter, shift_of};
    ghost use Rattle.wire_base.specs.declared.limits.TheConstants.{MAX_SHIFT};

    // Returns the value for no SYN.
    pub(crate) fn none() -> Syns
        ensures { SynsFor result [] }
    {
        Syns {
            out_seen: false,
            out_scale: None,
            in_seen: false,
            in_scale: false,
        }
    }

    // Adds an outbound segment.
    pub(crate) fn sent(self, seg: &Seg) -> Syns
        ensures { SynsAfter (sent seg.now []) self result }
    {
        let syn = seg.flags.syn();
        let scale = if syn { seg.scale } else { None };
        Syns {
            out_seen: self.out_seen || syn,
            out_scale: greater(self.out_scale, scale),
            in_seen: self.in_seen,
            in_scale: self.in_scale,
        }
    }

    // Adds an inbound SYN.
    pub(crate) fn came(self, seg: &Seg) -> Syns
        ensures { SynsAfter (came seg.now) self result }
    {
        let syn = seg.flags.syn();
        Syns {
            out_seen: self.out_seen,
            out_scale: self.out_scale,
            in_seen: self.in_seen || syn,
            in_scale: self.in_scale || syn && seg.scale.is_some(),
        }
    }

    // Returns the shift of windows in bits: both SYNs must have a scale, and until both were
    // written the greatest shift, 14, is assumed.
    pub(crate) fn shift(&self) -> u8
        ensures value { result ≡ shift_of self.now }
        ensures small { result ≤ MAX_SHIFT }
    {
        if self.out_seen && self.in_seen {
            match self.out_scale {
                Some(scale) => { if self.in_scale { scale } else { 0 } }
                None => 0,
            }
        } else {
            MAX_SHIFT
        }
    }
}
