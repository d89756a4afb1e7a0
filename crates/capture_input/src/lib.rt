//! A capture of either kind as one input: a classic pcap file or a pcapng file.
//!
//! Proved, however the source splits the octets: octets that begin with the type of a section block
//! are read as a pcapng file, all others as a classic file. `Input::open` reads the head, and each
//! `Input::next` takes exactly the octets up to the end of the next record or packet block. A fault
//! is the first one of the whole capture, at the offset of its head, record or block. No more
//! octets are taken of that head, record or block than it has, but up to 12 of a block whose length
//! is below 12. A classic file is refused if the name of the inside interface is given and its head
//! has no fault of its own. A record has its own side only if that name is given, also from a
//! source without known octets.
//!
//! Laws: all octets are one head with one list of records, or have one first fault at one offset.
//! They begin in one way with a given number of records and nothing after the newest, and with no
//! more records than there are before their end or their first fault.
#![tactic(auto)]

pub mod fault;
pub mod input;
pub mod laws;
mod opening;

pub use fault::{InputFault, OpenFault};
pub use input::Input;
