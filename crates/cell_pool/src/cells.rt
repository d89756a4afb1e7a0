//! Cells and the heads of chains, linked by index.
ghost use Rattle.std.specs.Prelude.{◌≡◌, ◌<◌, length, replicate, vec_capacity, IfOk, None, Some};
ghost use Rattle.cell_pool.specs.working.SoundLinks.{with_next, blank_head, fresh_cell, loose_cell};

use crate::octets::Octets;
use edge_io::NoMemory;
use std::alloc::Global;

/// Number of a chain, below the number of chains of its pool.
#[derive(Clone, Copy, Debug, PartialEq, Eq)]
pub struct ChainId(pub u32);

/// Identifier of a cell, valid while the cell is in a chain.
#[derive(Clone, Copy, Debug, PartialEq, Eq)]
pub struct CellId(pub(crate) u32);

/// Cell of a chain or of the free list.
#[derive(Drop)]
pub(crate) struct Cell {
    /// Next cell of the same chain, or of the free list.
    pub(crate) next: Option<CellId>,
    /// Chain that contains the cell, or none for a free cell. The invariant uses it to keep the
    /// lists disjoint.
    pub(crate) owner: Option<ChainId>,
    pub(crate) block: u64,
    pub(crate) octets: Octets,
}

/// First cell of a chain, and the number of its cells.
#[derive(Clone, Copy)]
pub(crate) struct Head {
    pub(crate) first: Option<CellId>,
    pub(crate) count: u32,
}

impl Cell {
    /// Returns a free cell that is in no list.
    pub(crate) fn loose() -> Cell
        ensures { result ≡ loose_cell }
    {
        Cell {
            next: None,
            owner: None,
            block: 0,
            octets: Octets::empty(),
        }
    }

    /// Makes this an empty cell of chain `owner`, linked to `next`.
    pub(crate) fn begin(&mut self, next: Option<CellId>, owner: ChainId, block: u64)
        ensures { self.new ≡ fresh_cell next owner block }
    {
        self.next = next;
        self.owner = Some(owner);
        self.block = block;
        self.octets.clear();
    }

    /// Makes this a free cell, linked to `next`. Its octets stay until `begin` clears them.
    pub(crate) fn release(&mut self, next: Option<CellId>)
        ensures { self.new ≡ record self.old { next = next; owner = None } }
    {
        self.next = next;
        self.owner = None;
    }
}

/// Links the cell `at` to `next`.
pub(crate) fn set_next(cells: &mut Vec<Cell>, at: CellId, next: Option<CellId>)
    requires { at.0 < length cells.old.items }
    ensures items { cells.new.items ≡ with_next cells.old.items at.0 next }
    ensures room { vec_capacity cells.new ≡ vec_capacity cells.old }
{
    let cell = &mut cells[at.0 as usize];
    cell.next = next;
}

/// Returns the heads of `count` empty chains.
pub(crate) fn empty_heads(alloc: Global, count: u32) -> Result<Vec<Head>, NoMemory>
    ensures { IfOk result (λ heads. heads.items ≡ replicate count blank_head) }
{
    let mut heads = Vec::with_capacity(alloc, count as usize)?;
    for _ in 0..count {
        heads.push(Head {
            first: None,
            count: 0,
        })?;
    }
    Ok(heads)
}
