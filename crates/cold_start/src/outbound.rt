//! An outbound segment without a live era.
ghost use Rattle.std.specs.Prelude.{◌≡◌, ℕ, List, [], ◌∷◌, length, IfSome, is_some, true};
ghost use Rattle.wire_base.specs.Tcp as tcp;
ghost use Rattle.era_state.specs.SegmentFields.{sent};
ghost use Rattle.era_state.specs.EraFields.{WarmFor};
ghost use Rattle.cold_start.specs.Rules.{begins_warm};

use era_state::{Seg, Warm};

/// Returns the era that an outbound segment begins, if it has ACK and no RST. Its acknowledgment is
/// the base.
pub fn warm_from(seg: &Seg) -> Option<Warm>
    requires legal { tcp.are_legal seg.now.flags.0 ≡ true }
    ensures begins { is_some result ≡ begins_warm (sent seg.now []) }
    ensures stands { IfSome result (λ era. (octets : List ℕ) → length octets ≡ seg.now.len → WarmFor era (sent seg.now octets ∷ [])) }
{
    if seg.flags.rst() {
        return None;
    }
    if seg.flags.ack() {
        Some(Warm::begin(seg))
    } else {
        None
    }
}
