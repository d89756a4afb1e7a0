//! Addition of a fragment's octets to its datagram.
ghost use Rattle.std.specs.Prelude.{◌≡◌, ◌<◌, ◌≤◌, List, length};
ghost use Rattle.retain_store.specs.Maps.{chain_of, missing, ChangesOnly};
ghost use Rattle.reassembly.specs.DatagramFragments.{Fragment, fragment_of, IsPiece};
ghost use Rattle.reassembly.specs.working.JoinedFragments.{IsJoined};
ghost use Rattle.reassembly.specs.TableAndStore.{Keeps};
ghost use Rattle.wire_base.specs.declared.limits.TheConstants.{MAX_PAYLOAD};

use crate::piece::Piece;
use crate::progress::Progress;
use retain_store::{ChainId, Retain};

/// Adds the octets of a fragment to those of its datagram, and returns the new state.
#[inline(always)]
pub(crate) fn take(
    store: &mut Retain,
    chain: ChainId,
    progress: &Progress,
    piece: &Piece<'_>,
) -> Progress
    requires chain_in_range { chain.0 < length store.old.chains }
    requires piece { IsPiece (fragment_of piece.now) }
    requires short { progress.now.filled ≤ MAX_PAYLOAD }
    requires room { let p = fragment_of piece.now in missing (chain_of store.old chain.0) p.offset (length p.octets) ≤ store.old.free }
    ensures changed { ChangesOnly store.old store.new chain.0 }
    ensures since { result.since ≡ progress.now.since }
    ensures joined { let p = fragment_of piece.now in (ps : List Fragment) → Keeps (chain_of store.old chain.0) ps →
        IsJoined ps p progress.now result (chain_of store.new chain.0) }
{
    let from = u64::from(piece.offset);
    let fresh = store.place_counting(chain, from, piece.bytes);
    progress.with(piece, fresh as u32)
}
