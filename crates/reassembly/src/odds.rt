//! A fragment that contradicts what is held for its datagram.
ghost use Rattle.std.specs.Prelude.{◌≡◌, ◌<◌, ◌≤◌, List, length, true, false, IfSome, IfNone};
ghost use Rattle.retain_store.specs.Maps.{chain_of};
ghost use Rattle.reassembly.specs.DatagramFragments.{Fragment, fragment_of, IsPiece};
ghost use Rattle.reassembly.specs.Calls.{forgets};
ghost use Rattle.reassembly.specs.RuleRows.{f_clash, ends_otherwise, first_row, odd_rows};
ghost use Rattle.reassembly.specs.TableAndStore.{Keeps, ProgressOf};

use crate::piece::Piece;
use crate::progress::Progress;
use retain_store::{ChainId, Retain};
use rule_book::Rule;

// Returns whether an octet of the fragment differs from the one held at its offset.
fn clashes(store: &Retain, chain: ChainId, piece: &Piece<'_>) -> bool
    requires chain_in_range { chain.0 < length store.now.chains }
    requires piece { IsPiece (fragment_of piece.now) }
    ensures { (ps : List Fragment) → Keeps (chain_of store.now chain.0) ps → result ≡ f_clash ps (fragment_of piece.now) }
{
    !store.agrees(chain, u64::from(piece.offset), piece.bytes)
}

/// Returns the rule under which a fragment contradicts its datagram, if one holds: by the end of
/// the datagram, or by an octet.
#[inline(always)]
pub(crate) fn odds(
    store: &Retain,
    chain: ChainId,
    progress: &Progress,
    piece: &Piece<'_>,
) -> Option<Rule>
    requires chain_in_range { chain.0 < length store.now.chains }
    requires piece { IsPiece (fragment_of piece.now) }
    ensures row { (ps : List Fragment) → Keeps (chain_of store.now chain.0) ps → ProgressOf progress.now ps → result ≡ first_row (odd_rows ps (fragment_of piece.now)) }
    ensures forgets { IfSome result (λ rule. forgets rule ≡ true) }
    ensures ends { IfNone result (ends_otherwise progress.now.total progress.now.reach (fragment_of piece.now) ≡ false) }
{
    let ends = progress.ends_otherwise(piece);
    if ends {
        return Some(Rule::FEnd);
    }
    let clash = clashes(store, chain, piece);
    if clash {
        return Some(Rule::FClash);
    }
    None
}
