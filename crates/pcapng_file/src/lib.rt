//! pcapng files: sections of blocks, whose packet blocks are read one by one as records.
//!
//! Proved, however the source splits the octets: `NgReader` reads block by block exactly by the
//! grammar of the blocks. Each call takes exactly the blocks up to the next packet block. A record
//! has the time of its block and, if the name of the inside interface is given, the side of its
//! interface. A fault is that of the first malformed block, at the offset of that block. All octets
//! are one list of blocks that ends well, or have one first fault at one offset (`laws`).
#![tactic(auto)]

pub mod ahead;
pub mod block;
pub mod content;
pub mod fault;
pub mod front;
pub mod interface;
pub mod laws;
mod numbers;
pub mod reader;
pub mod standing;
mod take;

pub use ahead::{Ahead, read_behind};
pub use fault::{NgFault, OpenFault};
pub use reader::NgReader;
