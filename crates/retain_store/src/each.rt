//! Reads octet by octet, for ranges in which only some offsets have an octet.
ghost use Rattle.std.specs.Prelude.{◌≡◌, ◌+◌, ◌-◌, ◌<◌, ◌≤◌, ◌^◌, ◌↔◌, false, length, IsTrue};
ghost use Rattle.cell_pool.specs.ChainLists.{chain_at, IsRising};
ghost use Rattle.retain_store.specs.Maps.{fresh, Agrees, Settles};
ghost use Rattle.retain_store.specs.working.BlockCells.{blocks_in, IsNear};

use crate::seat::look;
use cell_pool::{CellId, ChainId, Pool};

/// Returns how many of the offsets have no octet.
pub(crate) fn count_each(
    pool: &Pool,
    chain: ChainId,
    near: Option<CellId>,
    from: u64,
    len: u32,
) -> u32
    requires chain_in_range { chain.0 < length pool.now.chains }
    requires near_in_chain { IsNear (chain_at pool.now chain.0) near }
    requires rising { IsRising (chain_at pool.now chain.0) }
    requires offsets { from + len ≤ 2 ^ 64 - 1 }
    ensures { result ≡ fresh (blocks_in pool.now chain.0) from len }
{
    let mut near = near;
    let mut count = 0;
    for index in 0..len {
        let (octet, next) = look(pool, chain, near, from + u64::from(index));
        let none = octet.is_none();
        if none {
            count += 1;
        }
        near = next;
    }
    count
}

/// Returns whether none of the octets differs from the one kept at its offset.
pub(crate) fn agrees_each(
    pool: &Pool,
    chain: ChainId,
    near: Option<CellId>,
    from: u64,
    bytes: &[u8],
) -> bool
    requires chain_in_range { chain.0 < length pool.now.chains }
    requires near_in_chain { IsNear (chain_at pool.now chain.0) near }
    requires rising { IsRising (chain_at pool.now chain.0) }
    requires offsets { from + length bytes.now ≤ 2 ^ 64 - 1 }
    ensures { IsTrue result ↔ Agrees (blocks_in pool.now chain.0) from bytes.now }
{
    let mut near = near;
    for (index, octet) in bytes.iter().enumerate() {
        let (kept, next) = look(pool, chain, near, from + index as u64);
        if kept.unwrap_or(*octet) != *octet {
            return false;
        }
        near = next;
    }
    true
}

/// Replaces octets by those kept at their offsets, and returns whether one changed.
pub(crate) fn settle_each(
    pool: &Pool,
    chain: ChainId,
    near: Option<CellId>,
    from: u64,
    bytes: &mut [u8],
) -> bool
    requires chain_in_range { chain.0 < length pool.now.chains }
    requires near_in_chain { IsNear (chain_at pool.now chain.0) near }
    requires rising { IsRising (chain_at pool.now chain.0) }
    requires offsets { from + length bytes.old ≤ 2 ^ 64 - 1 }
    ensures settled { Settles (blocks_in pool.now chain.0) from bytes.old bytes.new }
    ensures same { (result ≡ false) ↔ (bytes.new ≡ bytes.old) }
{
    let mut near = near;
    let mut changed = false;
    for (index, place) in bytes.iter_mut().enumerate() {
        let (kept, next) = look(pool, chain, near, from + index as u64);
        let octet = kept.unwrap_or(*place);
        changed |= octet != *place;
        *place = octet;
        near = next;
    }
    changed
}
