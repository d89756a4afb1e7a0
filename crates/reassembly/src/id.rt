//! The identification of a datagram.
ghost use Rattle.std.specs.Prelude.{◌≡◌, ◌+◌, ◌*◌, ◌<◌, ◌^◌, ℕ, true};
ghost use Rattle.std.proofs.Common.{rules};
ghost use Rattle.reassembly.specs.working.KeyHashes.{hash_of};

use linked_table::{Key, hash_words};
use wire_base::Addr;

/// Fields that the fragments of one datagram have in common (RFC 791 section 3.2).
#[derive(Clone, Copy, PartialEq, Eq)]
pub(crate) struct DatagramId {
    pub src: Addr,
    pub dst: Addr,
    pub protocol: u8,
    pub ident: u16,
}

// Joins an address and a shorter number into one number.
fn joined(address: Addr, number: u16) -> u64
    ensures { result ≡ address.0 * 65536 + number }
{
    u64::from(address.0) * 65_536 + u64::from(number)
}

impl Key for DatagramId {
    ghost hash_of = { λ id seed. hash_of id seed };

    fn hash_with(&self, seed: u64) -> u64 {
        let id = *self;
        let from = joined(id.src, id.ident);
        let to = joined(id.dst, u16::from(id.protocol));
        hash_words(seed, from, to)
    }

    ghost equal_is_same = { λ a b e. Prim.search rules };
}
