//! The values kept of a datagram's fragments besides their octets.
ghost use Rattle.std.specs.Prelude.{◌≡◌, ◌+◌, ◌^◌, ◌<◌, ◌≤◌, max, ◌==◌, ◌||◌, ◌&&◌, not, nat_lt, List, ◌∷◌, [], length, Option, Some, None, if◌then◌else◌};
ghost use Rattle.std.specs.Option.{option_or};
ghost use Rattle.reassembly.specs.DatagramFragments.{fragment_of, end_of, IsPiece, whole_with};
ghost use Rattle.reassembly.specs.working.CompleteDatagram.{whole_if};
ghost use Rattle.reassembly.specs.RuleRows.{is_past, is_other, ends_otherwise};

use crate::piece::{Front, Piece, Whole};

/// State of the reassembly of one datagram.
#[derive(Clone, Copy)]
pub struct Progress {
    /// Time of its first fragment, in seconds.
    pub since: u32,
    /// Number of its octets, once its last fragment is held.
    pub total: Option<u32>,
    /// Offset after the last octet held.
    pub reach: u32,
    /// Number of octets held, one at each offset.
    pub filled: u32,
    /// Header fields of the first fragment that arrived with offset 0.
    pub front: Option<Front>,
}

// Returns the total that a fragment determines.
fn total_by(piece: &Piece<'_>) -> Option<u32>
    requires { IsPiece (fragment_of piece.now) }
    ensures { let p = fragment_of piece.now in result ≡ (if p.more then None else Some (end_of p)) }
{
    if piece.more { None } else { Some(piece.end()) }
}

// Returns the header fields that a fragment determines.
fn front_by(piece: &Piece<'_>) -> Option<Front>
    ensures { let p = fragment_of piece.now in result ≡ (if p.offset == 0 then Some (record { tos = p.tos; ttl = p.ttl; df = p.df }) else None) }
{
    if piece.offset == 0 {
        Some(Front {
            tos: piece.tos,
            ttl: piece.ttl,
            df: piece.df,
        })
    } else {
        None
    }
}

// Returns whether the total is known and below this end.
fn is_past(total: Option<u32>, end: u32) -> bool
    ensures { result ≡ is_past total end }
{
    match total {
        Some(total) => total < end,
        None => false,
    }
}

// Returns whether the total is known and differs from this end.
fn is_other(total: Option<u32>, end: u32) -> bool
    ensures { result ≡ is_other total end }
{
    match total {
        Some(total) => total != end,
        None => false,
    }
}

impl Progress {
    /// Returns the state before the first fragment, which arrives at this time.
    pub(crate) fn none(now: u32) -> Progress
        ensures { result ≡ record { since = now; total = None; reach = 0; filled = 0; front = None } }
    {
        Progress {
            since: now,
            total: None,
            reach: 0,
            filled: 0,
            front: None,
        }
    }

    /// Returns the state after one more fragment, which adds `fresh` octets at offsets that had
    /// none.
    pub(crate) fn with(&self, piece: &Piece<'_>, fresh: u32) -> Progress
        requires piece { IsPiece (fragment_of piece.now) }
        requires fits { self.now.filled + fresh < 2 ^ 32 }
        ensures since { result.since ≡ self.now.since }
        ensures total { let p = fragment_of piece.now in result.total ≡ option_or self.now.total (if p.more then None else Some (end_of p)) }
        ensures reach { result.reach ≡ max self.now.reach (end_of (fragment_of piece.now)) }
        ensures filled { result.filled ≡ self.now.filled + fresh }
        ensures front { let p = fragment_of piece.now in result.front ≡ option_or self.now.front (if p.offset == 0 then Some (record { tos = p.tos; ttl = p.ttl; df = p.df }) else None) }
    {
        let total = self.total.or(total_by(piece));
        let front = self.front.or(front_by(piece));
        Progress {
            since: self.since,
            total,
            reach: self.reach.max(piece.end()),
            filled: self.filled + fresh,
            front,
        }
    }

    /// Returns whether a fragment contradicts the end of the datagram.
    pub(crate) fn ends_otherwise(&self, piece: &Piece<'_>) -> bool
        requires { IsPiece (fragment_of piece.now) }
        ensures { result ≡ ends_otherwise self.now.total self.now.reach (fragment_of piece.now) }
    {
        let end = piece.end();
        let past = is_past(self.total, end);
        let other = is_other(self.total, end);
        let beyond = end < self.reach;
        past || (!piece.more && (other || beyond))
    }

    /// Returns the complete datagram, if as many octets are held as it has.
    pub(crate) fn whole(&self) -> Option<Whole>
        ensures { result ≡ whole_if self.now.total self.now.filled self.now.front }
    {
        let total = self.total?;
        if self.filled != total {
            return None;
        }
        Some(whole_with(total, self.front))
    }
}

// Returns the datagram with `total` octets and these fields.
fn whole_with(total: u32, front: Option<Front>) -> Whole
    ensures { result ≡ whole_with (Some total) front }
{
    match front {
        Some(front) => Whole {
            len: total as usize,
            tos: front.tos,
            ttl: front.ttl,
            df: front.df,
        },
        None => Whole {
            len: total as usize,
            tos: 0,
            ttl: 0,
            df: false,
        },
    }
}
