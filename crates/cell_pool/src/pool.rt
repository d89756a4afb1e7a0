//! A pool of cells, with its chains and its free list.
ghost use Rattle.std.specs.Prelude.{◌≡◌, ◌+◌, ◌-◌, ◌<◌, ◌≤◌, ◌^◌, ◌↔◌, [], ◌∷◌, length, replicate, IfOk, IfSome, IfNone, IsNone, IsTrue, Some, None, slice_index_or, slice_set, vec_capacity};
ghost use Rattle.std.specs.List.{All, sum_by};
ghost use Rattle.cell_pool.specs.ChainLists.{chain_at, with_chain, empty_cell, without_below, with_run, first_id, IsBlank, IsCovered, StandsFrom, BeginsAbove, IsRising, HasPlaceFor, HasCellAfter, TakesAfter, GivesBackAfter, IsHeld, IsHeldWith, StandsUpTo, Wherever, Writes, StandsOnce};
ghost use Rattle.cell_pool.specs.working.SoundLinks.{IsMade, IsReady};

use crate::cells::{Cell, CellId, ChainId, Head, empty_heads, set_next};
use crate::trees::Trees;
use edge_io::NoMemory;
use std::alloc::Global;
use std::marker::Model;

/// Cells in chains, and free cells.
#[derive(Drop)]
pub struct Pool {
    heads: Vec<Head>,
    // The cells that were made so far; the capacity is the number of all cells.
    cells: Vec<Cell>,
    // First free cell that was made.
    spare: Option<CellId>,
    // Number of free cells, whether made or not.
    free: u32,
    // Cells at which a walk along a chain may start.
    trees: Trees,
}

impl Model for Pool {
    ghost use Rattle.std.specs.Prelude.{vec_capacity};
    ghost use Rattle.cell_pool.specs.ChainLists.{Lists};
    ghost use Rattle.cell_pool.specs.CellLinks.{lists_of};
    ghost use Rattle.cell_pool.specs.working.SoundLinks.{IsSound};

    ghost Value = { Lists };

    ghost view = { λ p. lists_of p.heads.items p.cells.items p.free (vec_capacity p.cells) };

    ghost invariant = { λ p. IsSound p.heads.items p.cells.items p.spare p.free (vec_capacity p.cells) };
}

// Makes a cell and puts it into the free list, which `spare` leads to, if that is empty and not all
// cells are made. It allocates nothing: `open` reserved the memory.
#[inline]
fn ready(cells: &mut Vec<Cell>, trees: &mut Trees, spare: &mut Option<CellId>)
    requires { vec_capacity cells.old < 2 ^ 32 }
    ensures none { IsNone spare.new ↔ ((spare.old ≡ None) × (length cells.old.items ≡ vec_capacity cells.old)) }
    ensures unchanged { IfNone spare.new (cells.new.items ≡ cells.old.items) }
    ensures ready { IfSome spare.new (IsReady cells.old.items (vec_capacity cells.old) spare.old cells.new.items) }
    ensures room { vec_capacity cells.new ≡ vec_capacity cells.old }
{
    if spare.is_none() {
        *spare = make(cells, trees);
    }
}

// Makes the next cell in the reserved memory, or returns none if all cells are made.
#[cold]
fn make(cells: &mut Vec<Cell>, trees: &mut Trees) -> Option<CellId>
    requires { vec_capacity cells.old < 2 ^ 32 }
    ensures none { IsNone result ↔ (length cells.old.items ≡ vec_capacity cells.old) }
    ensures unchanged { IfNone result (cells.new.items ≡ cells.old.items) }
    ensures made { IfSome result (IsMade cells.old.items (vec_capacity cells.old) cells.new.items) }
    ensures room { vec_capacity cells.new ≡ vec_capacity cells.old }
{
    let made = cells.len();
    if made == cells.capacity() {
        return None;
    }
    trees.add_cell();
    cells.push_reserved(Cell::loose());
    Some(CellId(made as u32))
}

impl Pool {
    /// Creates a pool of `cells` free cells and `chains` empty chains.
    pub fn open(alloc: Global, cells: u32, chains: u32) -> Result<Pool, NoMemory>
        requires { cells + chains < 2 ^ 32 - 1 }
        ensures { IfOk result
            (λ pool. pool ≡ record { chains = replicate chains []; free = cells; cells = cells }) }
    {
        let heads = empty_heads(alloc, chains)?;
        let room = Vec::with_capacity(alloc, cells as usize)?;
        let trees = Trees::open(alloc, cells, chains)?;
        Ok(Pool {
            heads,
            cells: room,
            spare: None,
            free: cells,
            trees,
        })
    }

    /// Returns the number of free cells.
    pub fn free(&self) -> u32
        ensures value { result ≡ self.now.free }
        ensures total { self.now.free + sum_by length self.now.chains ≡ self.now.cells }
    {
        self.free
    }

    /// Returns the number of cells of the chain.
    pub fn count(&self, chain: ChainId) -> u32
        requires { chain.0 < length self.now.chains }
        ensures { result ≡ length (chain_at self.now chain.0) }
    {
        self.heads[chain.0 as usize].count
    }

    /// Returns the first cell of the chain.
    pub fn first(&self, chain: ChainId) -> Option<CellId>
        requires { chain.0 < length self.now.chains }
        ensures value { result ≡ first_id (chain_at self.now chain.0) }
        ensures rising { IsRising (chain_at self.now chain.0) }
    {
        self.heads[chain.0 as usize].first
    }

    /// Returns the cell after this one in its chain.
    pub fn next_of(&self, cell: CellId) -> Option<CellId>
        requires { IsHeld self.now cell }
        ensures value { Wherever self.now cell (λ x after. result ≡ first_id after) }
        ensures once { StandsOnce self.now cell }
    {
        self.cells[cell.0 as usize].next
    }

    /// Returns a cell of the chain whose block number is at most `block`. The choice of landmarks
    /// keeps it near: at most 16 cells lie between it and the block (or between the front and the
    /// block, where the result is none). No clause states this distance; only a timing test covers
    /// it.
    pub fn landmark(&self, chain: ChainId, block: u64) -> Option<CellId>
        requires { chain.0 < length self.now.chains }
        ensures { IfSome result (λ cell. StandsUpTo self.now chain.0 block cell) }
    {
        let name = self.trees.last_up_to(&self.cells, chain, block)?;
        let cell = self.cells.get(name.0 as usize)?;
        let owner = cell.owner?;
        if owner.0 == chain.0 && cell.block <= block {
            Some(name)
        } else {
            None
        }
    }

    /// Returns the block number of the cell.
    pub fn block(&self, cell: CellId) -> u64
        requires { IsHeld self.now cell }
        ensures { Wherever self.now cell (λ x after. result ≡ x.block) }
    {
        self.cells[cell.0 as usize].block
    }

    /// Returns the octet of the cell at `at`, if there is one.
    pub fn get(&self, cell: CellId, at: u8) -> Option<u8>
        requires { IsHeld self.now cell }
        ensures value { Wherever self.now cell (λ x after. result ≡ slice_index_or x.octets at None) }
        ensures size { Wherever self.now cell (λ x after. length x.octets ≡ 256) }
    {
        self.cells[cell.0 as usize].octets.get(at)
    }

    /// Returns whether none of the `len` offsets of the cell from `at` on has an octet.
    pub fn is_blank(&self, cell: CellId, at: u8, len: usize) -> bool
        requires held { IsHeld self.now cell }
        requires fits { at + len ≤ 256 }
        ensures value { Wherever self.now cell (λ x after. IsTrue result ↔ IsBlank at len x.octets) }
        ensures size { Wherever self.now cell (λ x after. length x.octets ≡ 256) }
    {
        self.cells[cell.0 as usize].octets.is_blank(at, len)
    }

    /// Returns whether each of the `len` offsets of the cell from `at` on has an octet.
    pub fn is_covered(&self, cell: CellId, at: u8, len: usize) -> bool
        requires held { IsHeld self.now cell }
        requires fits { at + len ≤ 256 }
        ensures { Wherever self.now cell (λ x after. IsTrue result ↔ IsCovered at len x.octets) }
    {
        self.cells[cell.0 as usize].octets.is_covered(at, len)
    }

    /// Returns whether the octets of the cell from `at` on are `octets`; each of those offsets must
    /// have an octet.
    pub fn has_run(&self, cell: CellId, at: u8, octets: &[u8]) -> bool
        requires fits { at + length octets.now ≤ 256 }
        requires covered { IsHeldWith self.now cell (IsCovered at (length octets.now)) }
        ensures { Wherever self.now cell (λ x after. IsTrue result ↔ StandsFrom at octets.now x.octets) }
    {
        self.cells[cell.0 as usize].octets.has_run(at, octets)
    }

    /// Copies the octets of the cell from `at` on into `out`; each of those offsets must have an
    /// octet.
    pub fn copy_run(&self, cell: CellId, at: u8, out: &mut [u8])
        requires fits { at + length out.old ≤ 256 }
        requires covered { IsHeldWith self.now cell (IsCovered at (length out.old)) }
        ensures { Wherever self.now cell (λ x after. StandsFrom at out.new x.octets) }
    {
        self.cells[cell.0 as usize].octets.copy_run(at, out);
    }

    /// Takes a free cell into the chain, without octets, after the given cell or at the front.
    /// Returns None exactly if no cell is free.
    pub fn take_after(
        &mut self,
        chain: ChainId,
        after: Option<CellId>,
        block: u64,
    ) -> Option<CellId>
        requires chain_in_range { chain.0 < length self.old.chains }
        requires place { HasPlaceFor (chain_at self.old chain.0) after block }
        ensures full { IsNone result ↔ (self.old.free ≡ 0) }
        ensures unchanged { IfNone result (self.new ≡ self.old) }
        ensures taken { IfSome result
            (λ cell. TakesAfter self.old self.new chain.0 after (empty_cell cell block)) }
    {
        match after {
            Some(after) => self.take_behind(chain, after, block),
            None => self.take_front(chain, block),
        }
    }

    /// Frees the cell after the given one, or the first cell.
    pub fn give_back_after(&mut self, chain: ChainId, after: Option<CellId>)
        requires chain_in_range { chain.0 < length self.old.chains }
        requires place { HasCellAfter (chain_at self.old chain.0) after }
        ensures { GivesBackAfter self.old self.new chain.0 after }
    {
        match after {
            Some(after) => self.give_behind(chain, after),
            None => self.give_front(chain),
        }
    }

    /// Writes an octet into the cell at `at`.
    pub fn set(&mut self, cell: CellId, at: u8, octet: u8)
        requires { IsHeld self.old cell }
        ensures { Writes self.old self.new cell (λ octets. slice_set octets at (Some octet)) }
    {
        let cell = &mut self.cells[cell.0 as usize];
        cell.octets.set(at, octet);
    }

    /// Writes octets into the cell from `at` on. All others stay.
    pub fn set_run(&mut self, cell: CellId, at: u8, octets: &[u8])
        requires held { IsHeld self.old cell }
        requires fits { at + length octets.now ≤ 256 }
        ensures { Writes self.old self.new cell (with_run at octets.now) }
    {
        let cell = &mut self.cells[cell.0 as usize];
        cell.octets.set_run(at, octets);
    }

    /// Removes the octets of the cell below `at` (all of them from 256 on), and returns whether
    /// none is left.
    pub fn clear_below(&mut self, cell: CellId, at: u16) -> bool
        requires { IsHeld self.old cell }
        ensures forgotten { Writes self.old self.new cell (without_below at) }
        ensures none_left { Wherever self.old cell
            (λ x after. IsTrue result ↔ All (λ o. IsNone o) (without_below at x.octets)) }
    {
        let cell = &mut self.cells[cell.0 as usize];
        cell.octets.clear_below(at)
    }

    fn take_front(&mut self, chain: ChainId, block: u64) -> Option<CellId>
        requires chain_in_range { chain.0 < length self.old.chains }
        requires order { BeginsAbove block (chain_at self.old chain.0) }
        ensures full { IsNone result ↔ (self.old.free ≡ 0) }
        ensures unchanged { IfNone result (self.new ≡ self.old) }
        ensures taken { IfSome result
            (λ cell. let cells = empty_cell cell block ∷ chain_at self.old chain.0 in
            self.new ≡ with_chain self.old chain.0 cells (self.old.free - 1)) }
    {
        ready(&mut self.cells, &mut self.trees, &mut self.spare);
        let taken = self.spare?;
        let head = self.heads[chain.0 as usize];
        let cell = &mut self.cells[taken.0 as usize];
        self.spare = cell.next;
        cell.begin(head.first, chain, block);
        self.heads[chain.0 as usize] = Head {
            first: Some(taken),
            count: head.count + 1,
        };
        self.free -= 1;
        self.trees
            .mark_second(&self.cells, chain, head.first, block);
        Some(taken)
    }

    fn take_behind(&mut self, chain: ChainId, after: CellId, block: u64) -> Option<CellId>
        requires chain_in_range { chain.0 < length self.old.chains }
        requires place { HasPlaceFor (chain_at self.old chain.0) (Some after) block }
        ensures full { IsNone result ↔ (self.old.free ≡ 0) }
        ensures unchanged { IfNone result (self.new ≡ self.old) }
        ensures taken { IfSome result
            (λ cell. TakesAfter self.old self.new chain.0 (Some after) (empty_cell cell block)) }
    {
        ready(&mut self.cells, &mut self.trees, &mut self.spare);
        let taken = self.spare?;
        let spare = self.cells[taken.0 as usize].next;
        let link = &self.cells[after.0 as usize];
        let before = link.block;
        let next = link.next;
        set_next(&mut self.cells, after, Some(taken));
        let cell = &mut self.cells[taken.0 as usize];
        cell.begin(next, chain, block);
        let head = &mut self.heads[chain.0 as usize];
        head.count += 1;
        self.spare = spare;
        self.free -= 1;
        self.trees
            .mark_taken(&self.cells, chain, taken, before, block);
        Some(taken)
    }

    fn give_front(&mut self, chain: ChainId)
        requires chain_in_range { chain.0 < length self.old.chains }
        requires place { HasCellAfter (chain_at self.old chain.0) None }
        ensures { GivesBackAfter self.old self.new chain.0 None }
    {
        let head = self.heads[chain.0 as usize];
        let Some(given) = head.first else {
            unreachable!()
        };
        let cell = &mut self.cells[given.0 as usize];
        let next = cell.next;
        let block = cell.block;
        self.heads[chain.0 as usize] = Head {
            first: next,
            count: head.count - 1,
        };
        cell.release(self.spare);
        self.spare = Some(given);
        self.free += 1;
        self.trees.unmark_second(&self.cells, chain, next, block);
    }

    fn give_behind(&mut self, chain: ChainId, after: CellId)
        requires chain_in_range { chain.0 < length self.old.chains }
        requires place { HasCellAfter (chain_at self.old chain.0) (Some after) }
        ensures { GivesBackAfter self.old self.new chain.0 (Some after) }
    {
        let link = &self.cells[after.0 as usize];
        let before = link.block;
        let Some(given) = link.next else {
            unreachable!()
        };
        let cell = &self.cells[given.0 as usize];
        let next = cell.next;
        let block = cell.block;
        self.trees
            .unmark_given(&self.cells, chain, given, before, block);
        set_next(&mut self.cells, after, next);
        let cell = &mut self.cells[given.0 as usize];
        cell.release(self.spare);
        let head = &mut self.heads[chain.0 as usize];
        head.count -= 1;
        self.spare = Some(given);
        self.free += 1;
    }
}
