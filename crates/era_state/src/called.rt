//! An era that the inside opened.
ghost use Rattle.std.specs.Prelude.{◌≡◌, ℕ, List, [], ◌∷◌, ◌++◌, length, true, false};
ghost use Rattle.wire_base.specs.Segments.{Written};
ghost use Rattle.wire_base.specs.Tcp as tcp;
ghost use Rattle.era_state.specs.SegmentFields.{sent, came};

use crate::offered::Offered;
use crate::segment::Seg;
use crate::syns::Syns;
use wire_base::sequence_plus;

/// Era that the inside opened and in which no segment fixed the base yet. It holds the number of
/// its first SYN, the number after the last segment that it sent, and the window scales of the
/// SYNs.
#[derive(Clone, Copy)]
pub struct Called {
    pub iss: u32,
    pub out: u32,
    pub syns: Syns,
    ghost called: { syns.out_seen ≡ true },
    ghost unanswered: { syns.in_seen ≡ false },
}

impl Called {
    ghost use Rattle.era_state.specs.EraFields.{CalledFor, OfferedFor};

    /// Returns the era that an outbound SYN without ACK begins.
    pub fn call(seg: &Seg) -> Called
        requires legal { tcp.are_legal seg.now.flags.0 ≡ true }
        requires syn { tcp.has_syn seg.now.flags.0 ≡ true }
        requires no_ack { tcp.has_ack seg.now.flags.0 ≡ false }
        ensures stands { (octets : List ℕ) → length octets ≡ seg.now.len → CalledFor result (sent seg.now octets ∷ []) }
    {
        Called {
            iss: seg.seq,
            out: seg.behind(),
            syns: Syns::none().sent(seg),
        }
    }

    /// Returns the era after an inbound SYN, which answers the outbound one or crosses it.
    pub fn answered(self, seg: &Seg) -> Offered
        requires legal { tcp.are_legal seg.now.flags.0 ≡ true }
        requires syn { tcp.has_syn seg.now.flags.0 ≡ true }
        ensures stands { (ws : List Written) → CalledFor self ws → OfferedFor result (ws ++ came seg.now ∷ []) }
    {
        Offered {
            base: sequence_plus(seg.seq, 1),
            iss: Some(self.iss),
            out: Some(self.out),
            syns: self.syns.came(seg),
            out_fin: false,
        }
    }

    // Returns the era after another outbound SYN.
    pub(crate) fn again(mut self, seg: &Seg) -> Called
        requires legal { tcp.are_legal seg.now.flags.0 ≡ true }
        requires syn { tcp.has_syn seg.now.flags.0 ≡ true }
        requires no_ack { tcp.has_ack seg.now.flags.0 ≡ false }
        ensures stands { (ws : List Written) (octets : List ℕ) → length octets ≡ seg.now.len → CalledFor self ws → CalledFor result (ws ++ sent seg.now octets ∷ []) }
    {
        self.out = seg.behind();
        self.syns = self.syns.sent(seg);
        self
    }
}
