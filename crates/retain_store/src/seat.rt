//! The position of a block in a chain of the pool.
ghost use Rattle.std.specs.Prelude.{◌≡◌, ◌<◌, ◌%◌, length, IsTrue, Some};
ghost use Rattle.cell_pool.specs.ChainLists.{chain_at, first_id, IsRising};
ghost use Rattle.retain_store.specs.working.BlockCells.{blocks_in, IsNear, IsSeat, IsWalk};
ghost use Rattle.retain_store.specs.Maps.{octet_at, IsWithin};

use cell_pool::{CellId, ChainId, Pool};

/// Cell of a block, or the cell after which a cell for it belongs (none at the front).
#[derive(Clone, Copy)]
pub(crate) enum Seat {
    Cell(CellId),
    After(Option<CellId>),
}

// A walk starts at the cell used last, or at the first one, if the block is less than this many
// blocks after it.
const CLOSE: u64 = 16;

/// Finds the position of a block: at `near`, or directly after it if it belongs there. Otherwise a
/// walk
/// starts at `near` or at the first cell if it is less than 16 blocks before. If neither is, the
/// walk starts at a landmark of the pool, or at the front if no landmark is before the block.
#[inline(always)]
pub(crate) fn seek(pool: &Pool, chain: ChainId, near: Option<CellId>, block: u64) -> Seat
    requires chain_in_range { chain.0 < length pool.now.chains }
    requires near_in_chain { IsNear (chain_at pool.now chain.0) near }
    ensures { IsSeat (chain_at pool.now chain.0) block result }
{
    if let Some(cell) = near {
        let reached = pool.block(cell);
        if reached == block {
            return Seat::Cell(cell);
        }
        if reached < block {
            let Some(next) = pool.next_of(cell) else {
                return Seat::After(near);
            };
            if block - reached < CLOSE {
                return walk(pool, chain, near, Some(next), block);
            }
            return seek_behind(pool, chain, cell, next, block);
        }
    }
    seek_apart(pool, chain, block)
}

// Finds the position of a block 16 or more blocks after the cell `near`; `next` is the cell after
// `near`.
#[inline(never)]
fn seek_behind(pool: &Pool, chain: ChainId, near: CellId, next: CellId, block: u64) -> Seat
    requires chain_in_range { chain.0 < length pool.now.chains }
    requires begun { IsWalk (chain_at pool.now chain.0) block (Some near) (Some next) 0 }
    ensures { IsSeat (chain_at pool.now chain.0) block result }
{
    if pool.block(next) > block {
        return Seat::After(Some(near));
    }
    seek_apart(pool, chain, block)
}

// Finds the position of a block without a cell from which to start.
#[inline]
fn seek_apart(pool: &Pool, chain: ChainId, block: u64) -> Seat
    requires { chain.0 < length pool.now.chains }
    ensures { IsSeat (chain_at pool.now chain.0) block result }
{
    match pool.first(chain) {
        Some(front) => seek_far(pool, chain, front, block),
        None => Seat::After(None),
    }
}

// Finds the position of a block from the first cell, `front`, if its block is less than 16 blocks
// before, otherwise from a landmark, or from the front if no landmark is before the block.
#[inline(never)]
fn seek_far(pool: &Pool, chain: ChainId, front: CellId, block: u64) -> Seat
    requires chain_in_range { chain.0 < length pool.now.chains }
    requires first { Some front ≡ first_id (chain_at pool.now chain.0) }
    ensures { IsSeat (chain_at pool.now chain.0) block result }
{
    if block.saturating_sub(pool.block(front)) < CLOSE {
        return walk(pool, chain, None, Some(front), block);
    }
    let Some(cell) = pool.landmark(chain, block) else {
        return walk(pool, chain, None, Some(front), block);
    };
    if pool.block(cell) == block {
        return Seat::Cell(cell);
    }
    walk(pool, chain, Some(cell), pool.next_of(cell), block)
}

// Walks to the block, from the position after the cell `after` to `next` and the cells that follow.
fn walk(
    pool: &Pool,
    chain: ChainId,
    after: Option<CellId>,
    next: Option<CellId>,
    block: u64,
) -> Seat
    requires chain_in_range { chain.0 < length pool.now.chains }
    requires begun { IsWalk (chain_at pool.now chain.0) block after next 0 }
    ensures { IsSeat (chain_at pool.now chain.0) block result }
{
    let mut after = after;
    let mut next = next;
    for _ in 0..pool.count(chain) {
        let Some(cell) = next else {
            return Seat::After(after);
        };
        let reached = pool.block(cell);
        if reached >= block {
            if reached == block {
                return Seat::Cell(cell);
            }
            return Seat::After(after);
        }
        after = next;
        next = pool.next_of(cell);
    }
    Seat::After(after)
}

/// Returns true only if no offset from `from` on has an octet: if the chain is empty, or if `near`
/// is its last cell and has none there. No cell is walked past, so false says nothing.
pub(crate) fn ends_before(pool: &Pool, chain: ChainId, near: Option<CellId>, from: u64) -> bool
    requires chain_in_range { chain.0 < length pool.now.chains }
    requires near_in_chain { IsNear (chain_at pool.now chain.0) near }
    requires rising { IsRising (chain_at pool.now chain.0) }
    ensures { IsTrue result → IsWithin (blocks_in pool.now chain.0) from }
{
    let Some(cell) = near else {
        return pool.first(chain).is_none();
    };
    if let Some(_) = pool.next_of(cell) {
        return false;
    }
    let reached = pool.block(cell);
    let at = place_of(from);
    if reached == from / 256 {
        return pool.is_blank(cell, at, 256 - usize::from(at));
    }
    reached < from / 256
}

/// Returns the octet at an offset, if there is one, and a cell at which the next walk may start.
pub(crate) fn look(
    pool: &Pool,
    chain: ChainId,
    near: Option<CellId>,
    offset: u64,
) -> (Option<u8>, Option<CellId>)
    requires chain_in_range { chain.0 < length pool.now.chains }
    requires near_in_chain { IsNear (chain_at pool.now chain.0) near }
    requires rising { IsRising (chain_at pool.now chain.0) }
    ensures octet { result.0 ≡ octet_at (blocks_in pool.now chain.0) offset }
    ensures near { IsNear (chain_at pool.now chain.0) result.1 }
{
    match seek(pool, chain, near, offset / 256) {
        Seat::Cell(cell) => (pool.get(cell, place_of(offset)), Some(cell)),
        Seat::After(after) => (None, after),
    }
}

/// Returns the position of an offset in its block.
pub(crate) fn place_of(offset: u64) -> u8
    ensures { result ≡ offset % 256 }
{
    (offset % 256) as u8
}
