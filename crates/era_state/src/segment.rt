//! What an era reads of one segment.
ghost use Rattle.std.specs.Prelude.{◌≡◌, ℕ, ◌+◌, ◌*◌, ◌%◌, ◌^◌, ◌<◌, ◌≤◌, List, [], length, Some};

use crate::offset::Offset;
use wire_base::{Flags, sequence_plus};

/// Sequence number, acknowledgment, number of payload octets, window, flags, and the shift of the
/// window scale option, if there is one (RFC 9293 section 3.1, RFC 7323 section 2.2).
#[derive(Clone, Copy, Debug, PartialEq, Eq)]
pub struct Seg {
    pub seq: u32,
    pub ack: u32,
    pub len: u32,
    pub window: u16,
    pub flags: Flags,
    pub scale: Option<u8>,
}

impl Seg {
    ghost use Rattle.era_state.specs.SegmentMarks.{number_behind, ack_of, edge_place};
    ghost use Rattle.era_state.specs.working.FirstSyns.{iss_after};
    ghost use Rattle.era_state.specs.SegmentFields.{sent};
    ghost use Rattle.wire_base.specs.declared.limits.TheConstants.{MAX_SHIFT};

    // Returns the sequence number after the segment's octets, SYN and FIN.
    pub(crate) fn behind(&self) -> u32
        ensures { (octets : List ℕ) → length octets ≡ self.now.len → result ≡ number_behind (sent self.now octets) }
    {
        let octets = u64::from(self.len);
        let syn = u64::from(self.flags.syn());
        let fin = u64::from(self.flags.fin());
        sequence_plus(self.seq, octets + syn + fin)
    }

    // Returns the stream offset that it acknowledges, as an outbound segment.
    pub(crate) fn acknowledged(&self, base: u32, acked: u64) -> Option<u64>
        requires { acked < 2 ^ 63 }
        ensures value { result ≡ ack_of base acked (sent self.now []) }
        ensures near { (place : ℕ) → result ≡ Some place → place < acked + 2 ^ 31 }
    {
        if self.flags.ack() {
            Offset::of(base, acked, self.ack).place()
        } else {
            None
        }
    }

    // Returns the end of its window, if it acknowledges the offset `place`.
    pub(crate) fn allowed(&self, place: u64, shift: u8) -> u64
        requires place { place < 2 ^ 63 + 2 ^ 31 }
        requires shift { shift ≤ MAX_SHIFT }
        ensures value { result ≡ edge_place (Some place) shift (sent self.now []) }
        ensures above { place ≤ result }
        ensures near { result ≤ place + 65535 * 2 ^ 14 }
    {
        let window = u64::from(self.window);
        if self.flags.syn() {
            place + window
        } else {
            place + (window << shift)
        }
    }

    // Returns the number of the first outbound SYN after this segment was sent.
    pub(crate) fn first_call(&self, old: Option<u32>) -> Option<u32>
        ensures { result ≡ iss_after old (sent self.now []) }
    {
        match old {
            Some(iss) => Some(iss),
            None => {
                if self.flags.syn() {
                    Some(self.seq)
                } else {
                    None
                }
            }
        }
    }
}
