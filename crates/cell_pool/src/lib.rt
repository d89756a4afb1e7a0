//! Cells of 256 octets in chains. The memory of all cells is allocated when the pool is opened, and
//! a cell is made in it when it is first taken.
//!
//! Proved: a `Pool` is its lists of cells, one list per chain. Free cells and the cells of all
//! chains together are as many as at opening. A cell is taken exactly if one is free.
//! `Pool::landmark` returns a cell of the chain whose block is not above the one asked for. No
//! clause says how near that cell is: that at most 16 cells lie between follows from how landmarks
//! are chosen, and is tested by time alone (in `retain_store`).
//!
//! Choices: the owner of a cell keeps the lists apart in the invariant, since there is no ghost
//! data; it also tests landmarks. Octets are forgotten when a cell is taken, not when it is given
//! back. Heads of chains have their own vector; in the cells' vector each would cost a whole cell.
//! A run of blocks has one landmark in 16 cells, and none in the first region.
#![tactic(auto)]

mod cells;
mod octets;
mod pool;
mod trees;

pub use cells::{CellId, ChainId};
pub use pool::Pool;
