//! What is known of one era of a TCP connection: its state, and the quantities of the segments
//! written in it.
//!
//! Proved: an `Era` holds the quantities of the whole list of its segments, also past 2^32 octets,
//! and each transition returns those of the list with one segment more. A kept octet lies between
//! what is acknowledged and 2^30 past it, and a kept FIN lies at the end. `specs/Emission.antt`
//! defines which segments may be written. They carry the first octet at each offset, below Top and
//! below the end (`laws`).
//!
//! Choices: of an inward segment only the sequence number, the octets, SYN, FIN and, on a SYN, the
//! presence of a window scale are read, so cleaned options, flags and windows change no quantity.
//! Octets are counted from 0 to below Top, since a count over all whole numbers does not compute; a
//! law says that no emitted segment has an octet elsewhere.
#![tactic(auto)]

pub mod called;
pub mod era;
pub mod laws;
pub mod offered;
pub mod offset;
pub mod probe;
pub mod segment;
pub mod syns;
pub mod warm;

pub use called::Called;
pub use era::{Closed, Era, Moved, SynAnswer};
pub use offered::Offered;
pub use offset::Interval;
pub use probe::Probe;
pub use segment::Seg;
pub use syns::Syns;
pub use warm::Warm;
