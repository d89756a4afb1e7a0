//! Removal of octets from a chain.
ghost use Rattle.std.specs.Prelude.{◌≡◌, ◌+◌, ◌*◌, ◌<◌, ◌/◌, [], false, length};
ghost use Rattle.cell_pool.specs.ChainLists.{chain_at};
ghost use Rattle.retain_store.specs.Maps.{ForgetsBelow};
ghost use Rattle.retain_store.specs.working.BlockCells.{blocks_in, IsKept, IsNear};
ghost use Rattle.retain_store.specs.working.PoolChanges.{begins_below, IsAbove, Forgets, IsChanged};

use crate::seat::place_of;
use cell_pool::{CellId, ChainId, Pool};

// Returns whether the number of the first block of the chain is below `block`.
fn begins_below(pool: &Pool, chain: ChainId, block: u64) -> bool
    requires { chain.0 < length pool.now.chains }
    ensures { result ≡ begins_below (chain_at pool.now chain.0) block }
{
    match pool.first(chain) {
        Some(cell) => pool.block(cell) < block,
        None => false,
    }
}

// Returns the given cell if its block number is above `block`.
fn near_above(pool: &Pool, chain: ChainId, near: Option<CellId>, block: u64) -> Option<CellId>
    requires chain_in_range { chain.0 < length pool.now.chains }
    requires near_in_chain { IsNear (chain_at pool.now chain.0) near }
    ensures { IsAbove (chain_at pool.now chain.0) block result }
{
    match near {
        Some(cell) if pool.block(cell) > block => Some(cell),
        _ => None,
    }
}

// Frees the cells of the blocks below `block`.
fn free_below(pool: &mut Pool, chain: ChainId, block: u64)
    requires chain_in_range { chain.0 < length pool.old.chains }
    requires kept { IsKept (chain_at pool.old chain.0) }
    ensures begins { begins_below (chain_at pool.new chain.0) block ≡ false }
    ensures forgets { Forgets pool.old pool.new chain.0 block (256 * block) }
{
    while begins_below(pool, chain, block) {
        pool.give_back_after(chain, None);
    }
}

// Removes the octets below an offset in the block of that offset; no block before it may be left.
fn trim(pool: &mut Pool, chain: ChainId, at: u64)
    requires chain_in_range { chain.0 < length pool.old.chains }
    requires kept { IsKept (chain_at pool.old chain.0) }
    requires begins { begins_below (chain_at pool.old chain.0) (at / 256) ≡ false }
    ensures { Forgets pool.old pool.new chain.0 (at / 256) at }
{
    let Some(cell) = pool.first(chain) else {
        return;
    };
    if pool.block(cell) != at / 256 {
        return;
    }
    if !pool.clear_below(cell, u16::from(place_of(at))) {
        return;
    }
    pool.give_back_after(chain, None);
}

/// Removes the octets below an offset, and returns a cell at which the next walk may start.
pub(crate) fn forget_before(
    pool: &mut Pool,
    chain: ChainId,
    near: Option<CellId>,
    at: u64,
) -> Option<CellId>
    requires chain_in_range { chain.0 < length pool.old.chains }
    requires near_in_chain { IsNear (chain_at pool.old chain.0) near }
    requires kept { IsKept (chain_at pool.old chain.0) }
    ensures near { IsNear (chain_at pool.new chain.0) result }
    ensures kept { IsKept (chain_at pool.new chain.0) }
    ensures changed { IsChanged pool.old pool.new chain.0 }
    ensures octets { ForgetsBelow (blocks_in pool.old chain.0) (blocks_in pool.new chain.0) at }
{
    let block = at / 256;
    let near = near_above(pool, chain, near, block);
    free_below(pool, chain, block);
    trim(pool, chain, at);
    near
}

/// Removes all octets of a chain.
pub(crate) fn forget_chain(pool: &mut Pool, chain: ChainId)
    requires { chain.0 < length pool.old.chains }
    ensures empty { chain_at pool.new chain.0 ≡ [] }
    ensures changed { IsChanged pool.old pool.new chain.0 }
{
    while let Some(_) = pool.first(chain) {
        pool.give_back_after(chain, None);
    }
}
