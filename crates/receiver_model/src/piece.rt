//! Segments that a stream took.
ghost use Rattle.std.specs.Prelude.{◌≡◌, ◌+◌, ◌<◌, ◌^◌, pos};
ghost use Rattle.receiver_model.specs.Offsets.{raised_of};
ghost use Rattle.receiver_model.specs.Policies.{is_near, octet_for, brought};

use crate::policy::Waiting;
use std::marker::Model;
use wire_base::{sequence_distance, sequence_plus};

/// Octets of a segment, the sequence number of the first one, and the offset at which the stream
/// continued when it arrived.
#[derive(Drop)]
pub(crate) struct Piece {
    pub next: u64,
    pub sequence: u32,
    pub octets: Vec<u8>,
}

impl Model for Piece {
    ghost use Rattle.std.specs.Prelude.{◌<◌, ◌+◌, ◌^◌, length};
    ghost use Rattle.receiver_model.specs.Policies.{Taken};

    ghost Value = { Taken };

    ghost view = { λ p. record { next = p.next; sequence = p.sequence; octets = p.octets.items } };

    ghost invariant = { λ p. (length p.octets.items < 2 ^ 32) × (p.next < 2 ^ 63 + 2 ^ 32) };
}

/// 2^31, half of the sequence numbers.
pub(crate) const HALF: u64 = 1 << 31;

/// Returns the offset that a sequence number represents, plus 2^31.
pub(crate) fn raised_offset(base: u32, next: u64, number: u32) -> u64
    requires { next < 2 ^ 63 + 2 ^ 32 }
    ensures value { result ≡ raised_of base next number }
    ensures near { result < next + 2 ^ 32 }
{
    next + sequence_distance(sequence_plus(base, next), sequence_plus(number, HALF))
}

// Returns whether the offset is at least `next` - 2^31 and below `next` + 2^31.
fn is_near(next: u64, offset: u64) -> bool
    ensures { result ≡ is_near next (pos offset) }
{
    if offset < next {
        next - offset <= HALF
    } else {
        offset - next < HALF
    }
}

impl Piece {
    fn octet_at(&self, base: u32, offset: u64) -> Option<u8>
        ensures { result ≡ octet_for base self.now (pos offset) }
    {
        if !is_near(self.next, offset) {
            return None;
        }
        let at = sequence_distance(self.sequence, sequence_plus(base, offset));
        self.octets.get(at as usize).copied()
    }

    /// Returns the octet for an offset, with the ends of its segment.
    pub fn waiting_at(&self, base: u32, offset: u64) -> Option<Waiting>
        ensures { result ≡ brought base self.now (pos offset) }
    {
        let octet = self.octet_at(base, offset)?;
        let begin = raised_offset(base, self.next, self.sequence);
        let end = begin + self.octets.len() as u64;
        Some(Waiting { octet, begin, end })
    }
}
