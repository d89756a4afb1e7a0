//! The rules on a fragment alone.
ghost use Rattle.std.specs.Prelude.{◌≡◌, false, IfSome};
ghost use Rattle.reassembly.specs.Calls.{forgets};
ghost use Rattle.reassembly.specs.DatagramFragments.{fragment_of, IsPiece};
ghost use Rattle.reassembly.specs.RuleRows.{first_row, own_rows};

use crate::piece::Piece;
use rule_book::Rule;
use wire_base::MAX_PAYLOAD;

/// Returns the rule on the fragment alone that drops it, if one does.
pub(crate) fn own_row(piece: &Piece<'_>) -> Option<Rule>
    requires { IsPiece (fragment_of piece.now) }
    ensures row { result ≡ first_row (own_rows (fragment_of piece.now)) }
    ensures stays { IfSome result (λ rule. forgets rule ≡ false) }
{
    let len = piece.len();
    let end = piece.end();
    if piece.df && piece.offset > 0 {
        return Some(Rule::FDf);
    }
    if len == 0 {
        return Some(Rule::FEmpty);
    }
    if piece.more && len % 8 != 0 {
        return Some(Rule::FAlign);
    }
    if end as usize > MAX_PAYLOAD {
        return Some(Rule::FBig);
    }
    None
}
