//! An era in which the SYN of the outside was written.
ghost use Rattle.std.specs.Prelude.{◌≡◌, ℕ, List, [], ◌∷◌, ◌++◌, length, None, is_some, true, false};
ghost use Rattle.wire_base.specs.Segments.{Written};
ghost use Rattle.wire_base.specs.Tcp as tcp;
ghost use Rattle.era_state.specs.SegmentMarks.{ack_of};
ghost use Rattle.era_state.specs.SegmentFields.{sent, came};

use crate::segment::Seg;
use crate::syns::Syns;
use wire_base::sequence_plus;

/// Era in which the SYN of the outside was written and no offset of its stream is acknowledged. It
/// holds the number of the stream's first octet, and the numbers of the first outbound SYN and
/// after the last outbound segment, if there are any. It also holds the window scales of the SYNs,
/// and whether an outbound FIN was written.
#[derive(Clone, Copy)]
pub struct Offered {
    pub base: u32,
    pub iss: Option<u32>,
    pub out: Option<u32>,
    pub syns: Syns,
    pub out_fin: bool,
    ghost called: { syns.in_seen ≡ true },
    ghost answered: { is_some iss ≡ syns.out_seen },
    ghost went: { is_some iss ≡ true → is_some out ≡ true },
}

impl Offered {
    ghost use Rattle.era_state.specs.EraFields.{OfferedFor};

    /// Returns the era that an inbound SYN without ACK begins.
    pub fn offer(seg: &Seg) -> Offered
        requires legal { tcp.are_legal seg.now.flags.0 ≡ true }
        requires syn { tcp.has_syn seg.now.flags.0 ≡ true }
        requires no_ack { tcp.has_ack seg.now.flags.0 ≡ false }
        ensures stands { OfferedFor result (came seg.now ∷ []) }
    {
        Offered {
            base: sequence_plus(seg.seq, 1),
            iss: None,
            out: None,
            syns: Syns::none().came(seg),
            out_fin: false,
        }
    }

    // Changes the era by another inbound SYN.
    pub(crate) fn hear(&mut self, seg: &Seg)
        requires legal { tcp.are_legal seg.now.flags.0 ≡ true }
        requires syn { tcp.has_syn seg.now.flags.0 ≡ true }
        ensures stands { (ws : List Written) → OfferedFor self.old ws → OfferedFor self.new (ws ++ came seg.now ∷ []) }
    {
        self.syns = self.syns.came(seg);
    }

    // Returns the era after an outbound segment that acknowledges no offset of the stream.
    pub(crate) fn sent(mut self, seg: &Seg) -> Offered
        ensures stands { (ws : List Written) (octets : List ℕ) → length octets ≡ seg.now.len → ack_of self.base 0 (sent seg.now []) ≡ None → OfferedFor self ws → OfferedFor result (ws ++ sent seg.now octets ∷ []) }
    {
        self.iss = seg.first_call(self.iss);
        self.out = Some(seg.behind());
        self.syns = self.syns.sent(seg);
        self.out_fin |= seg.flags.fin();
        self
    }
}
