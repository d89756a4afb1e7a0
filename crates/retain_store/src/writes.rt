//! Additions to a chain.
ghost use Rattle.std.specs.Prelude.{◌≡◌, ℕ, ◌+◌, ◌-◌, ◌<◌, ◌≤◌, ◌/◌, ◌%◌, ◌^◌, Some, true, length};
ghost use Rattle.cell_pool.specs.ChainLists.{chain_at, HasPlaceFor, IsHeld, IsRising, Writes};
ghost use Rattle.retain_store.specs.Maps.{fresh, holds, missing, Places};
ghost use Rattle.retain_store.specs.working.BlockCells.{blocks_in, IsCellOf, IsKept, IsNear};
ghost use Rattle.retain_store.specs.working.PoolChanges.{with_octet, with_octets, IsChanged, PlacesPiece};

use crate::each::count_each;
use crate::seat::{Seat, place_of, seek};
use cell_pool::{CellId, ChainId, Pool};

// Writes an octet into a cell at the position `at`, unless that position has one.
fn add(pool: &mut Pool, cell: CellId, at: u8, octet: u8)
    requires { IsHeld pool.old cell }
    ensures { Writes pool.old pool.new cell (λ octets. with_octet octets at octet) }
{
    if pool.get(cell, at).is_none() {
        pool.set(cell, at, octet);
    }
}

// Writes octets into a cell one by one, at the positions from `at` on that have none.
fn fill_each(pool: &mut Pool, cell: CellId, at: u8, piece: &[u8])
    requires held { IsHeld pool.old cell }
    requires fits { at + length piece.now ≤ 256 }
    ensures { Writes pool.old pool.new cell (λ octets. with_octets octets at piece.now) }
{
    for (index, octet) in piece.iter().enumerate() {
        add(pool, cell, at + index as u8, *octet);
    }
}

// Adds octets of one block, in its cell, at the offsets that have none, and returns their number.
fn fill(pool: &mut Pool, chain: ChainId, cell: CellId, from: u64, piece: &[u8]) -> u32
    requires chain_in_range { chain.0 < length pool.old.chains }
    requires cell { IsCellOf (chain_at pool.old chain.0) (from / 256) cell }
    requires rising { IsRising (chain_at pool.old chain.0) }
    requires fits { from % 256 + length piece.now ≤ 256 }
    requires offsets { from + length piece.now ≤ 2 ^ 64 - 1 }
    ensures written { Writes pool.old pool.new cell (λ octets. with_octets octets (from % 256) piece.now) }
    ensures fresh { result ≡ fresh (blocks_in pool.old chain.0) from (length piece.now) }
{
    let at = place_of(from);
    let size = piece.len() as u32;
    if pool.is_blank(cell, at, piece.len()) {
        pool.set_run(cell, at, piece);
        return size;
    }
    if pool.is_covered(cell, at, piece.len()) {
        return 0;
    }
    let fresh = count_each(pool, chain, Some(cell), from, size);
    fill_each(pool, cell, at, piece);
    fresh
}

// Takes a free cell for a block that has none, and writes octets of the block into it.
fn open_piece(
    pool: &mut Pool,
    chain: ChainId,
    after: Option<CellId>,
    from: u64,
    piece: &[u8],
) -> CellId
    requires chain_in_range { chain.0 < length pool.old.chains }
    requires place { HasPlaceFor (chain_at pool.old chain.0) after (from / 256) }
    requires kept { IsKept (chain_at pool.old chain.0) }
    requires room { 0 < pool.old.free }
    requires some { 0 < length piece.now }
    requires fits { from % 256 + length piece.now ≤ 256 }
    ensures { PlacesPiece pool.old pool.new chain.0 from piece.now result }
{
    let Some(cell) = pool.take_after(chain, after, from / 256) else {
        unreachable!()
    };
    pool.set_run(cell, place_of(from), piece);
    cell
}

// Adds octets of one block at the offsets that have none, and returns its cell and their number.
fn place_piece(
    pool: &mut Pool,
    chain: ChainId,
    near: Option<CellId>,
    from: u64,
    piece: &[u8],
) -> (CellId, u32)
    requires chain_in_range { chain.0 < length pool.old.chains }
    requires near_in_chain { IsNear (chain_at pool.old chain.0) near }
    requires kept { IsKept (chain_at pool.old chain.0) }
    requires room { pool.old.free ≡ 0 → holds (blocks_in pool.old chain.0) (from / 256) ≡ true }
    requires some { 0 < length piece.now }
    requires fits { from % 256 + length piece.now ≤ 256 }
    requires offsets { from + length piece.now ≤ 2 ^ 64 - 1 }
    ensures placed { PlacesPiece pool.old pool.new chain.0 from piece.now result.0 }
    ensures fresh { result.1 ≡ fresh (blocks_in pool.old chain.0) from (length piece.now) }
{
    match seek(pool, chain, near, from / 256) {
        Seat::Cell(cell) => {
            let fresh = fill(pool, chain, cell, from, piece);
            (cell, fresh)
        }
        Seat::After(after) => {
            let cell = open_piece(pool, chain, after, from, piece);
            (cell, piece.len() as u32)
        }
    }
}

/// Adds octets at the offsets that have none, and returns a cell at which the next walk may start
/// and the number of added octets.
pub(crate) fn place_all(
    pool: &mut Pool,
    chain: ChainId,
    near: Option<CellId>,
    from: u64,
    bytes: &[u8],
) -> (Option<CellId>, usize)
    requires chain_in_range { chain.0 < length pool.old.chains }
    requires near_in_chain { IsNear (chain_at pool.old chain.0) near }
    requires kept { IsKept (chain_at pool.old chain.0) }
    requires offsets { from + length bytes.now ≤ 2 ^ 64 - 1 }
    requires room { missing (blocks_in pool.old chain.0) from (length bytes.now) ≤ pool.old.free }
    ensures near { IsNear (chain_at pool.new chain.0) result.0 }
    ensures kept { IsKept (chain_at pool.new chain.0) }
    ensures changed { IsChanged pool.old pool.new chain.0 }
    ensures free { pool.new.free + missing (blocks_in pool.old chain.0) from (length bytes.now) ≡ pool.old.free }
    ensures octets { Places (blocks_in pool.old chain.0) (blocks_in pool.new chain.0) from bytes.now }
    ensures fresh { result.1 ≡ fresh (blocks_in pool.old chain.0) from (length bytes.now) }
{
    let mut near = near;
    let mut count = 0;
    let mut done = 0;
    while done < bytes.len() {
        let at = from + done as u64;
        let left = 256 - usize::from(place_of(at));
        let end = bytes.len().min(done + left);
        let (cell, fresh) = place_piece(pool, chain, near, at, &bytes[done..end]);
        near = Some(cell);
        count += fresh as usize;
        done = end;
    }
    (near, count)
}
