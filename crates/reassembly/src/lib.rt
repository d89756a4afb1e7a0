//! Fragments over their calls: which are held, and which datagram they make.
//!
//! Proved over every list of calls of `Assembly`: each fragment is held, completes its datagram, or
//! is dropped under the first rule that holds. A completed datagram is made of its fragments, each
//! at its offset, and has the header fields of the first fragment at offset 0. What is held for a
//! datagram depends on its own fragments, on what became of each, and on time; other datagrams
//! affect it by F_MANY and F_ROOM alone. `expire` forgets exactly the datagrams that are too old.
//! No more datagrams and cells are held than the settings allow. Memory is allocated at opening
//! alone.
//!
//! Choices: rules see a view of the calls: the fragments of the datagram, whether as many datagrams
//! are held as may be, and the free cells. F_END asks for the greatest end of the held fragments,
//! since none is empty. A datagram is complete if its last fragment is held and as many octets are
//! held as it has. The first fragment of a datagram is judged before it takes a slot, so one that
//! is dropped for lack of room changes nothing. `offer` and `expire` require times that do not
//! fall; the engine makes them so.
#![tactic(auto)]

mod assembly;
mod forget;
mod id;
pub mod laws;
mod odds;
mod offer;
mod piece;
mod progress;
mod rows;
mod take;

pub use assembly::Assembly;
pub use piece::{Offered, Piece, Whole};
