//! Frames that are longer than a link allows: which they are, and TCP segments cut to fit (this
//! project's profile).
//!
//! Proved: `long_kind` returns exactly by E_CUT and E_MTU whether a frame fits, is cut, or is
//! dropped. `Cutter` returns exactly the segments of the definition, one per call; it also counts
//! those that are left, and skips some. Laws on a frame that is cut: none of its segments is long,
//! they are at most 132, and they carry the payload in order and once. Each is read as its part,
//! with its own sequence number and flags, and is plain if the frame is. Packets that describe one
//! stream still do so after the cuts, are still of it, and stay near what was acknowledged if they
//! did. Nothing long is written.
#![tactic(auto)]

pub mod cutter;
pub mod laws;
pub mod long;
mod parts;
mod piece;

pub use cutter::Cutter;
pub use long::{LongKind, long_kind};
