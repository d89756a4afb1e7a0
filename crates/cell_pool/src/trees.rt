//! The landmarks of each chain, in a tree over the bits of their block numbers. Only speed depends
//! on it: callers check each result before use.
use crate::cells::{Cell, CellId, ChainId};
use edge_io::NoMemory;
use std::alloc::Global;

// Longest path through a tree: at most one fork for each of the 64 bits, and a leaf.
const LONGEST_WAY: u32 = 65;

// Block numbers in one region.
const REGION: u64 = 16;

// Subtree.
#[derive(Clone, Copy)]
enum Branch {
    /// One landmark.
    Leaf(CellId),
    /// Fork with this identifier. It is above the leaf of the landmark with the same identifier.
    Fork(CellId),
}

// Two subtrees: their block numbers agree above this bit, and differ in it.
#[derive(Clone, Copy)]
struct Fork {
    bit: u32,
    low: Branch,
    high: Branch,
}

// Path from the root along the bits of a block number, up to the first subtree whose block numbers
// cannot agree with it, or to a leaf.
#[derive(Clone, Copy)]
struct Way {
    end: Branch,
    /// Fork that leads to the end, and the fork above that one.
    last: Option<CellId>,
    last_but_one: Option<CellId>,
    /// Subtree with the greatest block numbers below those on the path.
    below: Option<Branch>,
}

/// One tree for each chain.
#[derive(Drop)]
pub(crate) struct Trees {
    roots: Vec<Option<Branch>>,
    // Indexed by the identifier of the landmark. It has one for each cell that is made.
    forks: Vec<Fork>,
}

fn has_bit(block: u64, bit: u32) -> bool {
    block.wrapping_shr(bit) & 1 == 1
}

fn block_of(cells: &[Cell], name: CellId) -> Option<u64> {
    Some(cells.get(name.0 as usize)?.block)
}

// Returns whether two block numbers are in one region. A cell is a landmark if the cell before it
// is in another region; the first cell of a chain is no landmark.
fn is_one_region(before: u64, block: u64) -> bool {
    before / REGION == block / REGION
}

// Returns the cell after `name` if it is in the same region.
fn next_in_region(cells: &[Cell], name: CellId) -> Option<CellId> {
    let cell = cells.get(name.0 as usize)?;
    let next = cell.next?;
    if is_one_region(cell.block, block_of(cells, next)?) {
        Some(next)
    } else {
        None
    }
}

// Returns the given cell if `block` is in another region.
fn beyond(cells: &[Cell], cell: Option<CellId>, block: u64) -> Option<CellId> {
    let name = cell?;
    if is_one_region(block, block_of(cells, name)?) {
        None
    } else {
        Some(name)
    }
}

impl Branch {
    // Returns the identifier of one of the landmarks in this subtree.
    fn name(self) -> CellId {
        match self {
            Branch::Leaf(name) => name,
            Branch::Fork(name) => name,
        }
    }
}

impl Fork {
    // Returns the subtree on the side of a block number, and the other one.
    fn parted(self, block: u64) -> (Branch, Branch) {
        if has_bit(block, self.bit) {
            (self.high, self.low)
        } else {
            (self.low, self.high)
        }
    }

    // Replaces the subtree on the side of a block number.
    fn grafted(self, block: u64, branch: Branch) -> Fork {
        if has_bit(block, self.bit) {
            Fork {
                high: branch,
                ..self
            }
        } else {
            Fork {
                low: branch,
                ..self
            }
        }
    }
}

impl Way {
    // Extends the path by one fork.
    fn past(self, fork: Fork, block: u64) -> Way {
        let (end, beside) = fork.parted(block);
        let below = if has_bit(block, fork.bit) {
            Some(beside)
        } else {
            self.below
        };
        Way {
            end,
            last: Some(self.end.name()),
            last_but_one: self.last,
            below,
        }
    }
}

impl Trees {
    /// Creates trees without landmarks.
    pub(crate) fn open(alloc: Global, cells: u32, chains: u32) -> Result<Trees, NoMemory> {
        let roots = vec![in alloc; None; chains as usize]?;
        let forks = Vec::with_capacity(alloc, cells as usize)?;
        Ok(Trees { roots, forks })
    }

    /// Adds the fork of a cell that is being made. `open` reserved its memory.
    pub(crate) fn add_cell(&mut self) {
        let nothing = Branch::Leaf(CellId(0));
        if self.forks.len() < self.forks.capacity() {
            self.forks.push_reserved(Fork {
                bit: 0,
                low: nothing,
                high: nothing,
            });
        }
    }

    /// Returns the last landmark of the chain whose block number is at most `block`. All cells
    /// between it and `block` are in its region.
    pub(crate) fn last_up_to(&self, cells: &[Cell], chain: ChainId, block: u64) -> Option<CellId> {
        let way = self.way(cells, chain, block)?;
        if block_of(cells, way.end.name())? <= block {
            self.greatest(way.end)
        } else {
            self.greatest(way.below?)
        }
    }

    /// Updates the landmarks after `taken`, with this block number, was inserted after a cell with
    /// block number `before`.
    #[inline]
    pub(crate) fn mark_taken(
        &mut self,
        cells: &[Cell],
        chain: ChainId,
        taken: CellId,
        before: u64,
        block: u64,
    ) {
        if !is_one_region(before, block) {
            self.begin_region(cells, chain, taken);
        }
    }

    /// Updates the landmarks before `given`, with this block number, is freed after a cell with
    /// block number `before`.
    #[inline]
    pub(crate) fn unmark_given(
        &mut self,
        cells: &[Cell],
        chain: ChainId,
        given: CellId,
        before: u64,
        block: u64,
    ) {
        if !is_one_region(before, block) {
            self.end_region(cells, chain, given);
        }
    }

    /// Updates the landmarks after a cell with this block number was inserted at the front, before
    /// `second`.
    #[inline]
    pub(crate) fn mark_second(
        &mut self,
        cells: &[Cell],
        chain: ChainId,
        second: Option<CellId>,
        block: u64,
    ) {
        if let Some(name) = beyond(cells, second, block) {
            self.insert(cells, chain, name);
        }
    }

    /// Updates the landmarks after the first cell, with this block number, was freed; `second` was
    /// the cell after it.
    #[inline]
    pub(crate) fn unmark_second(
        &mut self,
        cells: &[Cell],
        chain: ChainId,
        second: Option<CellId>,
        block: u64,
    ) {
        if let Some(name) = beyond(cells, second, block) {
            self.remove(cells, chain, name);
        }
    }

    // Makes `taken` a landmark, in place of the cell after it if that is in the same region.
    #[cold]
    fn begin_region(&mut self, cells: &[Cell], chain: ChainId, taken: CellId) {
        self.insert(cells, chain, taken);
        if let Some(next) = next_in_region(cells, taken) {
            self.remove(cells, chain, next);
        }
    }

    // Removes the landmark `given`. The cell after it becomes one if it is in the same region.
    #[cold]
    fn end_region(&mut self, cells: &[Cell], chain: ChainId, given: CellId) {
        self.remove(cells, chain, given);
        if let Some(next) = next_in_region(cells, given) {
            self.insert(cells, chain, next);
        }
    }

    fn root(&self, chain: ChainId) -> Option<Branch> {
        *self.roots.get(chain.0 as usize)?
    }

    fn fork(&self, name: CellId) -> Option<Fork> {
        Some(*self.forks.get(name.0 as usize)?)
    }

    // Returns the fork of a subtree, where block numbers in it agree with `block` above the fork's
    // bit.
    fn fork_toward(&self, cells: &[Cell], branch: Branch, block: u64) -> Option<Fork> {
        let Branch::Fork(name) = branch else {
            return None;
        };
        let fork = self.fork(name)?;
        let there = block_of(cells, name)?;
        if (there ^ block).wrapping_shr(fork.bit) > 1 {
            return None;
        }
        Some(fork)
    }

    // Returns the path toward a block number, if the chain has a landmark.
    fn way(&self, cells: &[Cell], chain: ChainId, block: u64) -> Option<Way> {
        let mut way = Way {
            end: self.root(chain)?,
            last: None,
            last_but_one: None,
            below: None,
        };
        for _ in 0..LONGEST_WAY {
            let Some(fork) = self.fork_toward(cells, way.end, block) else {
                return Some(way);
            };
            way = way.past(fork, block);
        }
        Some(way)
    }

    // Returns the landmark with the greatest block number in a subtree.
    fn greatest(&self, branch: Branch) -> Option<CellId> {
        let mut branch = branch;
        for _ in 0..LONGEST_WAY {
            match branch {
                Branch::Leaf(name) => return Some(name),
                Branch::Fork(name) => branch = self.fork(name)?.high,
            }
        }
        None
    }

    fn set_root(&mut self, chain: ChainId, root: Option<Branch>) {
        if let Some(place) = self.roots.get_mut(chain.0 as usize) {
            *place = root;
        }
    }

    fn set_fork(&mut self, name: CellId, fork: Fork) {
        if let Some(place) = self.forks.get_mut(name.0 as usize) {
            *place = fork;
        }
    }

    // Replaces the subtree of a fork on the side of a block number, or the root.
    fn graft(&mut self, chain: ChainId, above: Option<CellId>, block: u64, branch: Branch) {
        let Some(name) = above else {
            self.set_root(chain, Some(branch));
            return;
        };
        if let Some(fork) = self.fork(name) {
            self.set_fork(name, fork.grafted(block, branch));
        }
    }

    #[cold]
    fn insert(&mut self, cells: &[Cell], chain: ChainId, name: CellId) {
        let Some(block) = block_of(cells, name) else {
            return;
        };
        let leaf = Branch::Leaf(name);
        let Some(way) = self.way(cells, chain, block) else {
            self.set_root(chain, Some(leaf));
            return;
        };
        let Some(there) = block_of(cells, way.end.name()) else {
            return;
        };
        let apart = there ^ block;
        if apart == 0 {
            return;
        }
        let fork = Fork {
            bit: apart.ilog2(),
            low: way.end,
            high: way.end,
        };
        self.set_fork(name, fork.grafted(block, leaf));
        self.graft(chain, way.last, block, Branch::Fork(name));
    }

    // Removes a landmark and the fork above it. The fork that had the landmark's identifier takes
    // that of the removed fork.
    #[cold]
    fn remove(&mut self, cells: &[Cell], chain: ChainId, name: CellId) {
        let Some(block) = block_of(cells, name) else {
            return;
        };
        let Some(way) = self.way(cells, chain, block) else {
            return;
        };
        let Some(last) = way.last else {
            self.set_root(chain, None);
            return;
        };
        let Some(fork) = self.fork(last) else {
            return;
        };
        let (_, beside) = fork.parted(block);
        self.graft(chain, way.last_but_one, block, beside);
        if last != name {
            self.rename(chain, block, name, last);
        }
    }

    // Changes the identifier of fork `old` to `new`, if it is on the path toward a block number.
    fn rename(&mut self, chain: ChainId, block: u64, old: CellId, new: CellId) {
        let Some(root) = self.root(chain) else {
            return;
        };
        let mut branch = root;
        let mut above = None;
        for _ in 0..LONGEST_WAY {
            let Branch::Fork(name) = branch else {
                return;
            };
            let Some(fork) = self.fork(name) else {
                return;
            };
            if name == old {
                self.set_fork(new, fork);
                self.graft(chain, above, block, Branch::Fork(new));
                return;
            }
            branch = fork.parted(block).0;
            above = Some(name);
        }
    }
}
