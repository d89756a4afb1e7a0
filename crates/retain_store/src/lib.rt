//! Octets by chain and offset: the first octet placed at an offset stays until it is forgotten.
//!
//! Proved of `Retain`: `place` adds the octets at offsets that have none, keeps the octet that was
//! first, and takes exactly the cells that are needed. `fresh` returns how many of the offsets have
//! none, and `place_counting` does both. `has_room` says whether as many cells are free as are
//! needed. `settle` replaces octets by those kept and returns whether one changed; `agrees`
//! compares and changes nothing. `look` says whether nothing is kept from an offset on, and whether
//! all octets of a segment in one block are kept, in which case `place_known` does nothing.
//! `forget_below` forgets exactly the octets below its offset. A block is held exactly if one of
//! its 256 offsets has an octet. Other chains stay unchanged. Free cells and held blocks together
//! are the cells at opening. Only timing tests show that a call walks past few cells.
//!
//! Choices: a hint is the name of the cell used last, or of the one that `look` found. A walk
//! begins there or at the front if that is less than 16 blocks before, otherwise at a landmark of
//! the pool. No clause says that `look` sets a hint: only speed depends on it. An emptied cell is
//! given back at once, so a chain has as many cells as blocks with an octet. `has_room` counts
//! missing blocks only if fewer cells are free than blocks are touched. `agrees` exists besides
//! `settle` so that octets which are only compared are not copied. `look` reads one block alone, so
//! that octets in several blocks are compared and placed once each.
#![tactic(auto)]

mod each;
mod forgets;
mod reads;
mod seat;
mod store;
mod writes;

pub use cell_pool::ChainId;
pub use reads::blocks_touched;
pub use store::{Found, Retain};
