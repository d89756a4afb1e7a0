//! Reads along the octets of a segment, and of one part of it, whose offsets are all in one block.
ghost use Rattle.std.specs.Prelude.{◌≡◌, ℕ, ◌+◌, ◌-◌, ◌<◌, ◌≤◌, ◌/◌, ◌^◌, ◌↔◌, Some, false, length, slice_index, IsTrue, ◌%◌};
ghost use Rattle.std.specs.List.{range_with_len};
ghost use Rattle.cell_pool.specs.ChainLists.{chain_at, IsRising};
ghost use Rattle.retain_store.specs.Maps.{holds, octet_at, touched, missing, Agrees, Covers, Settles, IsWhole};
ghost use Rattle.retain_store.specs.working.BlockCells.{blocks_in, IsKept, IsNear, IsCellOf};

use crate::each::{agrees_each, settle_each};
use crate::seat::{Seat, ends_before, place_of, seek};
use cell_pool::{CellId, ChainId, Pool};

/// Returns the number of blocks of 256 offsets that `len` offsets from `from` on touch: as many
/// cells as an empty chain needs for them.
pub fn blocks_touched(from: u64, len: u32) -> u32
    requires { from + len ≤ 2 ^ 64 - 1 }
    ensures { touched from len ≡ range_with_len (from / 256) result }
{
    if len == 0 {
        return 0;
    }
    let last = from + u64::from(len) - 1;
    (last / 256 - from / 256 + 1) as u32
}

/// Returns the number of touched blocks without an octet.
pub(crate) fn count_missing(
    pool: &Pool,
    chain: ChainId,
    near: Option<CellId>,
    from: u64,
    len: u32,
) -> u32
    requires chain_in_range { chain.0 < length pool.now.chains }
    requires near_in_chain { IsNear (chain_at pool.now chain.0) near }
    requires kept { IsKept (chain_at pool.now chain.0) }
    requires offsets { from + len ≤ 2 ^ 64 - 1 }
    ensures { result ≡ missing (blocks_in pool.now chain.0) from len }
{
    let mut near = near;
    let mut count = 0;
    let first = from / 256;
    for index in 0..blocks_touched(from, len) {
        let (held, next) = look_up(pool, chain, near, first + u64::from(index));
        if !held {
            count += 1;
        }
        near = next;
    }
    count
}

/// Returns whether each of the offsets has an octet.
pub(crate) fn covers_all(
    pool: &Pool,
    chain: ChainId,
    near: Option<CellId>,
    from: u64,
    len: u32,
) -> bool
    requires chain_in_range { chain.0 < length pool.now.chains }
    requires near_in_chain { IsNear (chain_at pool.now chain.0) near }
    requires rising { IsRising (chain_at pool.now chain.0) }
    requires offsets { from + len ≤ 2 ^ 64 - 1 }
    ensures { IsTrue result ↔ Covers (blocks_in pool.now chain.0) from len }
{
    let mut near = near;
    let mut done = 0;
    while done < len {
        let at = from + u64::from(done);
        let size = piece_len(at, (len - done) as usize);
        let (covered, next) = covers_piece(pool, chain, near, at, size);
        if !covered {
            return false;
        }
        near = next;
        done += size as u32;
    }
    true
}

/// Returns whether none of the octets differs from the one kept at its offset.
pub(crate) fn agrees_all(
    pool: &Pool,
    chain: ChainId,
    near: Option<CellId>,
    from: u64,
    bytes: &[u8],
) -> bool
    requires chain_in_range { chain.0 < length pool.now.chains }
    requires near_in_chain { IsNear (chain_at pool.now chain.0) near }
    requires rising { IsRising (chain_at pool.now chain.0) }
    requires offsets { from + length bytes.now ≤ 2 ^ 64 - 1 }
    ensures { IsTrue result ↔ Agrees (blocks_in pool.now chain.0) from bytes.now }
{
    if ends_before(pool, chain, near, from) {
        return true;
    }
    let mut near = near;
    let mut done = 0;
    while done < bytes.len() {
        let at = from + done as u64;
        let end = done + piece_len(at, bytes.len() - done);
        let (agrees, next) = agrees_piece(pool, chain, near, at, &bytes[done..end]);
        if !agrees {
            return false;
        }
        near = next;
        done = end;
    }
    true
}

/// Copies octets into `out`; each of the offsets must have one.
pub(crate) fn copy(pool: &Pool, chain: ChainId, near: Option<CellId>, from: u64, out: &mut [u8])
    requires chain_in_range { chain.0 < length pool.now.chains }
    requires near_in_chain { IsNear (chain_at pool.now chain.0) near }
    requires rising { IsRising (chain_at pool.now chain.0) }
    requires offsets { from + length out.old ≤ 2 ^ 64 - 1 }
    requires covered { Covers (blocks_in pool.now chain.0) from (length out.old) }
    ensures { (i : ℕ) → i < length out.new →
        octet_at (blocks_in pool.now chain.0) (from + i) ≡ Some (slice_index out.new i) }
{
    let mut near = near;
    let mut done = 0;
    while done < out.len() {
        let at = from + done as u64;
        let end = done + piece_len(at, out.len() - done);
        near = copy_piece(pool, chain, near, at, &mut out[done..end]);
        done = end;
    }
}

/// Replaces octets by those kept at their offsets, and returns whether one changed.
pub(crate) fn settle_all(
    pool: &Pool,
    chain: ChainId,
    near: Option<CellId>,
    from: u64,
    bytes: &mut [u8],
) -> bool
    requires chain_in_range { chain.0 < length pool.now.chains }
    requires near_in_chain { IsNear (chain_at pool.now chain.0) near }
    requires rising { IsRising (chain_at pool.now chain.0) }
    requires offsets { from + length bytes.old ≤ 2 ^ 64 - 1 }
    ensures settled { Settles (blocks_in pool.now chain.0) from bytes.old bytes.new }
    ensures same { (result ≡ false) ↔ (bytes.new ≡ bytes.old) }
{
    if ends_before(pool, chain, near, from) {
        return false;
    }
    let mut near = near;
    let mut changed = false;
    let mut done = 0;
    while done < bytes.len() {
        let at = from + done as u64;
        let end = done + piece_len(at, bytes.len() - done);
        let (differs, next) = settle_piece(pool, chain, near, at, &mut bytes[done..end]);
        changed |= differs;
        near = next;
        done = end;
    }
    changed
}

/// Returns true only if all octets are in one block, and each is the one kept at its offset; and a
/// cell at which the next walk may start.
pub(crate) fn repeats_piece(
    pool: &Pool,
    chain: ChainId,
    near: Option<CellId>,
    from: u64,
    bytes: &[u8],
) -> (bool, Option<CellId>)
    requires chain_in_range { chain.0 < length pool.now.chains }
    requires near_in_chain { IsNear (chain_at pool.now chain.0) near }
    requires kept { IsKept (chain_at pool.now chain.0) }
    requires some { 0 < length bytes.now }
    ensures whole { IsTrue result.0 → IsWhole (blocks_in pool.now chain.0) from (length bytes.now) }
    ensures agrees { IsTrue result.0 → Agrees (blocks_in pool.now chain.0) from bytes.now }
    ensures near { IsNear (chain_at pool.now chain.0) result.1 }
{
    match seek(pool, chain, near, from / 256) {
        Seat::Cell(cell) => (repeats_in(pool, chain, cell, from, bytes), Some(cell)),
        Seat::After(after) => (false, after),
    }
}

// Returns whether a block has an octet, and a cell at which the next walk may start.
fn look_up(pool: &Pool, chain: ChainId, near: Option<CellId>, block: u64) -> (bool, Option<CellId>)
    requires chain_in_range { chain.0 < length pool.now.chains }
    requires near_in_chain { IsNear (chain_at pool.now chain.0) near }
    requires kept { IsKept (chain_at pool.now chain.0) }
    ensures held { result.0 ≡ holds (blocks_in pool.now chain.0) block }
    ensures near { IsNear (chain_at pool.now chain.0) result.1 }
{
    match seek(pool, chain, near, block) {
        Seat::Cell(cell) => (true, Some(cell)),
        Seat::After(after) => (false, after),
    }
}

// Returns how many of `left` offsets from `from` on are in its block.
fn piece_len(from: u64, left: usize) -> usize
    ensures within { result ≤ left }
    ensures fits { from % 256 + result ≤ 256 }
    ensures some { 0 < left → 0 < result }
{
    left.min(256 - usize::from(place_of(from)))
}

// Returns whether each of the offsets has an octet, and a cell at which the next walk may start.
fn covers_piece(
    pool: &Pool,
    chain: ChainId,
    near: Option<CellId>,
    from: u64,
    len: usize,
) -> (bool, Option<CellId>)
    requires chain_in_range { chain.0 < length pool.now.chains }
    requires near_in_chain { IsNear (chain_at pool.now chain.0) near }
    requires rising { IsRising (chain_at pool.now chain.0) }
    requires some { 0 < len }
    requires fits { from % 256 + len ≤ 256 }
    ensures covers { IsTrue result.0 ↔ Covers (blocks_in pool.now chain.0) from len }
    ensures near { IsNear (chain_at pool.now chain.0) result.1 }
{
    match seek(pool, chain, near, from / 256) {
        Seat::Cell(cell) => (pool.is_covered(cell, place_of(from), len), Some(cell)),
        Seat::After(after) => (false, after),
    }
}

// Returns whether none of the octets differs from the one kept at its offset, in the cell of their
// block.
fn agrees_in(pool: &Pool, chain: ChainId, cell: CellId, from: u64, bytes: &[u8]) -> bool
    requires chain_in_range { chain.0 < length pool.now.chains }
    requires cell { IsCellOf (chain_at pool.now chain.0) (from / 256) cell }
    requires rising { IsRising (chain_at pool.now chain.0) }
    requires fits { from % 256 + length bytes.now ≤ 256 }
    requires offsets { from + length bytes.now ≤ 2 ^ 64 - 1 }
    ensures { IsTrue result ↔ Agrees (blocks_in pool.now chain.0) from bytes.now }
{
    let at = place_of(from);
    if pool.is_blank(cell, at, bytes.len()) {
        return true;
    }
    if pool.is_covered(cell, at, bytes.len()) {
        return pool.has_run(cell, at, bytes);
    }
    agrees_each(pool, chain, Some(cell), from, bytes)
}

// Returns whether none of the octets differs from the one kept at its offset, and a cell at which
// the next walk may start.
fn agrees_piece(
    pool: &Pool,
    chain: ChainId,
    near: Option<CellId>,
    from: u64,
    bytes: &[u8],
) -> (bool, Option<CellId>)
    requires chain_in_range { chain.0 < length pool.now.chains }
    requires near_in_chain { IsNear (chain_at pool.now chain.0) near }
    requires rising { IsRising (chain_at pool.now chain.0) }
    requires fits { from % 256 + length bytes.now ≤ 256 }
    requires offsets { from + length bytes.now ≤ 2 ^ 64 - 1 }
    ensures agrees { IsTrue result.0 ↔ Agrees (blocks_in pool.now chain.0) from bytes.now }
    ensures near { IsNear (chain_at pool.now chain.0) result.1 }
{
    match seek(pool, chain, near, from / 256) {
        Seat::Cell(cell) => (agrees_in(pool, chain, cell, from, bytes), Some(cell)),
        Seat::After(after) => (true, after),
    }
}

// Returns true only if all octets are in this block, and each is the one kept at its offset.
fn repeats_in(pool: &Pool, chain: ChainId, cell: CellId, from: u64, bytes: &[u8]) -> bool
    requires chain_in_range { chain.0 < length pool.now.chains }
    requires cell { IsCellOf (chain_at pool.now chain.0) (from / 256) cell }
    requires kept { IsKept (chain_at pool.now chain.0) }
    requires some { 0 < length bytes.now }
    ensures whole { IsTrue result → IsWhole (blocks_in pool.now chain.0) from (length bytes.now) }
    ensures agrees { IsTrue result → Agrees (blocks_in pool.now chain.0) from bytes.now }
{
    let at = place_of(from);
    if bytes.len() > 256 - usize::from(at) {
        return false;
    }
    if !pool.is_covered(cell, at, bytes.len()) {
        return false;
    }
    pool.has_run(cell, at, bytes)
}

// Copies octets into `out`, and returns a cell at which the next walk may start. Each of the
// offsets must have an octet.
fn copy_piece(
    pool: &Pool,
    chain: ChainId,
    near: Option<CellId>,
    from: u64,
    out: &mut [u8],
) -> Option<CellId>
    requires chain_in_range { chain.0 < length pool.now.chains }
    requires near_in_chain { IsNear (chain_at pool.now chain.0) near }
    requires rising { IsRising (chain_at pool.now chain.0) }
    requires some { 0 < length out.old }
    requires fits { from % 256 + length out.old ≤ 256 }
    requires covered { Covers (blocks_in pool.now chain.0) from (length out.old) }
    ensures octets { (i : ℕ) → i < length out.new →
        octet_at (blocks_in pool.now chain.0) (from + i) ≡ Some (slice_index out.new i) }
    ensures near { IsNear (chain_at pool.now chain.0) result }
{
    match seek(pool, chain, near, from / 256) {
        Seat::Cell(cell) => {
            pool.copy_run(cell, place_of(from), out);
            Some(cell)
        }
        Seat::After(_) => unreachable!(),
    }
}

// Replaces octets by those kept at their offsets, in the cell of their block, and returns whether
// one changed.
fn settle_in(pool: &Pool, chain: ChainId, cell: CellId, from: u64, bytes: &mut [u8]) -> bool
    requires chain_in_range { chain.0 < length pool.now.chains }
    requires cell { IsCellOf (chain_at pool.now chain.0) (from / 256) cell }
    requires rising { IsRising (chain_at pool.now chain.0) }
    requires fits { from % 256 + length bytes.old ≤ 256 }
    requires offsets { from + length bytes.old ≤ 2 ^ 64 - 1 }
    ensures settled { Settles (blocks_in pool.now chain.0) from bytes.old bytes.new }
    ensures same { (result ≡ false) ↔ (bytes.new ≡ bytes.old) }
{
    let at = place_of(from);
    if pool.is_blank(cell, at, bytes.len()) {
        return false;
    }
    if !pool.is_covered(cell, at, bytes.len()) {
        return settle_each(pool, chain, Some(cell), from, bytes);
    }
    if pool.has_run(cell, at, bytes) {
        return false;
    }
    pool.copy_run(cell, at, bytes);
    true
}

// Replaces octets by those kept at their offsets, and returns whether one changed and a cell at
// which the next walk may start.
fn settle_piece(
    pool: &Pool,
    chain: ChainId,
    near: Option<CellId>,
    from: u64,
    bytes: &mut [u8],
) -> (bool, Option<CellId>)
    requires chain_in_range { chain.0 < length pool.now.chains }
    requires near_in_chain { IsNear (chain_at pool.now chain.0) near }
    requires rising { IsRising (chain_at pool.now chain.0) }
    requires fits { from % 256 + length bytes.old ≤ 256 }
    requires offsets { from + length bytes.old ≤ 2 ^ 64 - 1 }
    ensures settled { Settles (blocks_in pool.now chain.0) from bytes.old bytes.new }
    ensures same { (result.0 ≡ false) ↔ (bytes.new ≡ bytes.old) }
    ensures near { IsNear (chain_at pool.now chain.0) result.1 }
{
    match seek(pool, chain, near, from / 256) {
        Seat::Cell(cell) => (settle_in(pool, chain, cell, from, bytes), Some(cell)),
        Seat::After(after) => (false, after),
    }
}
