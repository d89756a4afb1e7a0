//! The store of octets by chain and offset.
ghost use Rattle.std.specs.Prelude.{◌≡◌, ℕ, ◌+◌, ◌-◌, ◌*◌, ◌<◌, ◌≤◌, ◌^◌, ◌↔◌, [], Some, false, length, replicate, slice_index, IfOk, IsTrue};
ghost use Rattle.std.specs.List.{count_by, range_with_len, sum_by};
ghost use Rattle.retain_store.specs.Maps.{chain_of, has_octet, holds, octet_at, missing, fresh, Agrees, ChangesOnly, Covers, ForgetsBelow, IsMap, IsWhole, IsWithin, Places, Settles};

use crate::each::count_each;
use crate::forgets::{forget_before, forget_chain};
use crate::reads::{
    agrees_all, blocks_touched, copy, count_missing, covers_all, repeats_piece, settle_all,
};
use crate::seat::ends_before;
use crate::writes::place_all;
use cell_pool::{CellId, ChainId, Pool};
use edge_io::NoMemory;
use std::alloc::Global;
use std::marker::Model;

/// What a look at the block of a segment's first octet finds.
#[derive(Clone, Copy)]
pub struct Found {
    /// True only if no offset from the first on has an octet.
    pub ends: bool,
    /// True only if each octet is the one kept at its offset. It is false of octets in two blocks.
    pub repeats: bool,
}

/// Octets by chain and offset, kept until they are removed. A block is the 256 offsets from a
/// multiple of 256 on; it takes a cell if one of them has an octet.
#[derive(Drop)]
pub struct Retain {
    pool: Pool,
    // For each chain, the cell used last or found by `look`, where the next walk starts, or none.
    hints: Vec<Option<CellId>>,
}

impl Model for Retain {
    ghost use Rattle.retain_store.specs.Maps.{Store};
    ghost use Rattle.retain_store.specs.PoolBlocks.{store_of};
    ghost use Rattle.retain_store.specs.working.BlockCells.{IsSound};

    ghost Value = { Store };

    ghost view = { λ r. store_of r.pool };

    ghost invariant = { λ r. IsSound r.pool r.hints.items };
}

impl Retain {
    /// Creates a store with `cells` free cells, of 256 octets each, and `chains` empty chains.
    pub fn open(alloc: Global, cells: u32, chains: u32) -> Result<Retain, NoMemory>
        requires { cells + chains < 2 ^ 32 - 1 }
        ensures { IfOk result
            (λ store. store ≡ record { chains = replicate chains []; free = cells; cells = cells }) }
    {
        let pool = Pool::open(alloc, cells, chains)?;
        let hints = vec![in alloc; None; chains as usize]?;
        Ok(Retain { pool, hints })
    }

    /// Returns the number of free cells.
    pub fn free(&self) -> u32
        ensures value { result ≡ self.now.free }
        ensures total { self.now.free + sum_by length self.now.chains ≡ self.now.cells }
    {
        self.pool.free()
    }

    /// Returns the number of blocks of 256 offsets with an octet in the chain. Each takes one cell.
    pub fn held(&self, chain: ChainId) -> u32
        requires { chain.0 < length self.now.chains }
        ensures count { result ≡ length (chain_of self.now chain.0) }
        ensures map { IsMap (chain_of self.now chain.0) }
        ensures held { (n : ℕ) → IsWithin (chain_of self.now chain.0) (256 * n) →
            result ≡ count_by (holds (chain_of self.now chain.0)) (range_with_len 0 n) }
        ensures blocks { (n : ℕ) → holds (chain_of self.now chain.0) n ≡ has_octet (octet_at (chain_of self.now chain.0)) n }
    {
        self.pool.count(chain)
    }

    /// Returns the number of touched blocks without an octet.
    #[inline(always)]
    pub fn need(&self, chain: ChainId, from: u64, len: u32) -> u32
        requires chain_in_range { chain.0 < length self.now.chains }
        requires offsets { from + len ≤ 2 ^ 64 - 1 }
        ensures { result ≡ missing (chain_of self.now chain.0) from len }
    {
        count_missing(&self.pool, chain, self.hints[chain.0 as usize], from, len)
    }

    /// Returns whether as many cells are free as the touched blocks need. Missing blocks are
    /// counted only if fewer cells are free than blocks are touched.
    pub fn has_room(&self, chain: ChainId, from: u64, len: u32) -> bool
        requires chain_in_range { chain.0 < length self.now.chains }
        requires offsets { from + len ≤ 2 ^ 64 - 1 }
        ensures { IsTrue result ↔ missing (chain_of self.now chain.0) from len ≤ self.now.free }
    {
        let free = self.free();
        if blocks_touched(from, len) <= free {
            return true;
        }
        self.need(chain, from, len) <= free
    }

    /// Returns how many of `len` offsets have no octet: as many as `place` would add there.
    pub fn fresh(&self, chain: ChainId, from: u64, len: u32) -> u32
        requires chain_in_range { chain.0 < length self.now.chains }
        requires offsets { from + len ≤ 2 ^ 64 - 1 }
        ensures { result ≡ fresh (chain_of self.now chain.0) from len }
    {
        count_each(&self.pool, chain, self.hints[chain.0 as usize], from, len)
    }

    /// Adds the octets at offsets that have none. Allocates nothing.
    pub fn place(&mut self, chain: ChainId, from: u64, bytes: &[u8])
        requires chain_in_range { chain.0 < length self.old.chains }
        requires offsets { from + length bytes.now ≤ 2 ^ 64 - 1 }
        requires room { missing (chain_of self.old chain.0) from (length bytes.now) ≤ self.old.free }
        ensures octets { Places (chain_of self.old chain.0) (chain_of self.new chain.0) from bytes.now }
        ensures free { self.new.free + missing (chain_of self.old chain.0) from (length bytes.now) ≡ self.old.free }
        ensures changed { ChangesOnly self.old self.new chain.0 }
        ensures map { IsMap (chain_of self.new chain.0) }
        ensures held { (n : ℕ) → IsWithin (chain_of self.new chain.0) (256 * n) →
            length (chain_of self.new chain.0) ≡ count_by (holds (chain_of self.new chain.0)) (range_with_len 0 n) }
    {
        self.place_counting(chain, from, bytes);
    }

    /// Adds the octets at offsets that have none, and returns their number: `fresh` and `place` in
    /// one pass.
    pub fn place_counting(&mut self, chain: ChainId, from: u64, bytes: &[u8]) -> usize
        requires chain_in_range { chain.0 < length self.old.chains }
        requires offsets { from + length bytes.now ≤ 2 ^ 64 - 1 }
        requires room { missing (chain_of self.old chain.0) from (length bytes.now) ≤ self.old.free }
        ensures octets { Places (chain_of self.old chain.0) (chain_of self.new chain.0) from bytes.now }
        ensures fresh { result ≡ fresh (chain_of self.old chain.0) from (length bytes.now) }
        ensures most { result ≤ length bytes.now }
        ensures free { self.new.free + missing (chain_of self.old chain.0) from (length bytes.now) ≡ self.old.free }
        ensures changed { ChangesOnly self.old self.new chain.0 }
        ensures map { IsMap (chain_of self.new chain.0) }
        ensures held { (n : ℕ) → IsWithin (chain_of self.new chain.0) (256 * n) →
            length (chain_of self.new chain.0) ≡ count_by (holds (chain_of self.new chain.0)) (range_with_len 0 n) }
    {
        let near = self.hints[chain.0 as usize];
        let (near, fresh) = place_all(&mut self.pool, chain, near, from, bytes);
        self.hints[chain.0 as usize] = near;
        fresh
    }

    /// Adds the octets at offsets that have none, and returns their number. If `whole`, each offset
    /// has one, and nothing is done.
    #[inline(always)]
    pub fn place_known(&mut self, chain: ChainId, from: u64, bytes: &[u8], whole: bool) -> usize
        requires chain_in_range { chain.0 < length self.old.chains }
        requires offsets { from + length bytes.now ≤ 2 ^ 64 - 1 }
        requires room { missing (chain_of self.old chain.0) from (length bytes.now) ≤ self.old.free }
        requires whole { IsTrue whole → IsWhole (chain_of self.old chain.0) from (length bytes.now) }
        ensures octets { Places (chain_of self.old chain.0) (chain_of self.new chain.0) from bytes.now }
        ensures fresh { result ≡ fresh (chain_of self.old chain.0) from (length bytes.now) }
        ensures most { result ≤ length bytes.now }
        ensures free { self.new.free + missing (chain_of self.old chain.0) from (length bytes.now) ≡ self.old.free }
        ensures changed { ChangesOnly self.old self.new chain.0 }
        ensures map { IsMap (chain_of self.new chain.0) }
        ensures held { (n : ℕ) → IsWithin (chain_of self.new chain.0) (256 * n) →
            length (chain_of self.new chain.0) ≡ count_by (holds (chain_of self.new chain.0)) (range_with_len 0 n) }
    {
        if whole {
            let _held = self.held(chain);
            return 0;
        }
        self.place_counting(chain, from, bytes)
    }

    /// Looks at the block of a segment's first octet, and sets the hint of the chain to it or to
    /// the one before it, so that the calls that follow start there.
    pub fn look(&mut self, chain: ChainId, from: u64, bytes: &[u8]) -> Found
        requires chain_in_range { chain.0 < length self.old.chains }
        requires offsets { from + length bytes.now ≤ 2 ^ 64 - 1 }
        requires some { 0 < length bytes.now }
        ensures same { self.new ≡ self.old }
        ensures ends { IsTrue result.ends → IsWithin (chain_of self.old chain.0) from }
        ensures whole { IsTrue result.repeats → IsWhole (chain_of self.old chain.0) from (length bytes.now) }
        ensures agrees { IsTrue result.repeats → Agrees (chain_of self.old chain.0) from bytes.now }
    {
        let near = self.hints[chain.0 as usize];
        if ends_before(&self.pool, chain, near, from) {
            return Found {
                ends: true,
                repeats: false,
            };
        }
        let (repeats, near) = repeats_piece(&self.pool, chain, near, from, bytes);
        self.hints[chain.0 as usize] = near;
        Found {
            ends: false,
            repeats,
        }
    }

    /// Returns whether none of the octets differs from the one kept at its offset.
    #[inline(always)]
    pub fn agrees(&self, chain: ChainId, from: u64, bytes: &[u8]) -> bool
        requires chain_in_range { chain.0 < length self.now.chains }
        requires offsets { from + length bytes.now ≤ 2 ^ 64 - 1 }
        ensures { IsTrue result ↔ Agrees (chain_of self.now chain.0) from bytes.now }
    {
        agrees_all(&self.pool, chain, self.hints[chain.0 as usize], from, bytes)
    }

    /// Replaces octets by those kept at their offsets, and returns whether one changed.
    pub fn settle(&self, chain: ChainId, from: u64, bytes: &mut [u8]) -> bool
        requires chain_in_range { chain.0 < length self.now.chains }
        requires offsets { from + length bytes.old ≤ 2 ^ 64 - 1 }
        ensures settled { Settles (chain_of self.now chain.0) from bytes.old bytes.new }
        ensures same { (result ≡ false) ↔ (bytes.new ≡ bytes.old) }
    {
        settle_all(&self.pool, chain, self.hints[chain.0 as usize], from, bytes)
    }

    /// Removes the octets below an offset.
    pub fn forget_below(&mut self, chain: ChainId, at: u64)
        requires { chain.0 < length self.old.chains }
        ensures octets { ForgetsBelow (chain_of self.old chain.0) (chain_of self.new chain.0) at }
        ensures changed { ChangesOnly self.old self.new chain.0 }
        ensures map { IsMap (chain_of self.new chain.0) }
        ensures held { (n : ℕ) → IsWithin (chain_of self.new chain.0) (256 * n) →
            length (chain_of self.new chain.0) ≡ count_by (holds (chain_of self.new chain.0)) (range_with_len 0 n) }
    {
        let near = self.hints[chain.0 as usize];
        let near = forget_before(&mut self.pool, chain, near, at);
        self.hints[chain.0 as usize] = near;
    }

    /// Removes all octets of the chain.
    pub fn forget_all(&mut self, chain: ChainId)
        requires { chain.0 < length self.old.chains }
        ensures empty { chain_of self.new chain.0 ≡ [] }
        ensures changed { ChangesOnly self.old self.new chain.0 }
    {
        forget_chain(&mut self.pool, chain);
        self.hints[chain.0 as usize] = None;
    }

    /// Returns whether each of the `len` offsets from `from` on has an octet.
    pub fn covers(&self, chain: ChainId, from: u64, len: u32) -> bool
        requires chain_in_range { chain.0 < length self.now.chains }
        requires offsets { from + len ≤ 2 ^ 64 - 1 }
        ensures { IsTrue result ↔ Covers (chain_of self.now chain.0) from len }
    {
        covers_all(&self.pool, chain, self.hints[chain.0 as usize], from, len)
    }

    /// Copies octets into `out`; each of the offsets must have one.
    pub fn copy_out(&self, chain: ChainId, from: u64, out: &mut [u8])
        requires chain_in_range { chain.0 < length self.now.chains }
        requires offsets { from + length out.old ≤ 2 ^ 64 - 1 }
        requires covered { Covers (chain_of self.now chain.0) from (length out.old) }
        ensures { (i : ℕ) → i < length out.new → octet_at (chain_of self.now chain.0) (from + i) ≡ Some (slice_index out.new i) }
    {
        copy(&self.pool, chain, self.hints[chain.0 as usize], from, out);
    }
}
