//! The wire formats, as the public standards give them: numbers, checksums, addresses and sides,
//! flags and frames.
//!
//! Proved: numbers are read and written at their offsets, highest octet first (`u16_at` ..
//! `put_u32`). `sum_right` is true exactly if the 16-bit words, of any number, sum to a positive
//! multiple of 65,535. `sum_for` is the checksum for it, and `pseudo_sum` the sum of the
//! pseudo-header. Sequence numbers are counted modulo 2^32 (`sequence_plus`, `sequence_before`,
//! `sequence_distance`). `frame_kind` returns what a frame carries. A prefix holds an address
//! exactly by its first bits. `read_prefix` returns the prefix that a text is, or its first fault,
//! exactly by the grammar; `read_number` returns the number that decimal digits form. The options
//! of an area are a list that has all its octets, each option at its offset (`laws`). The
//! definitions of the formats are in `specs/`; every crate above cites them.
//!
//! Choices: sums add words of 32 bits in the machine's order and swap the octets of the result once
//! (RFC 1071 section 2). They are folded after each 65,536 octets, so that zero stays apart from a
//! multiple of 65,535 and a slice of any length can be summed.
#![tactic(auto)]

pub mod address;
mod decimal;
pub mod flags;
pub mod frame;
pub mod laws;
pub mod limits;
pub mod number;
pub mod protocol;
pub mod sums;

pub use address::{Addr, FlowKey, Link, Prefix, PrefixFault, Side, read_prefix};
pub use decimal::read_number;
pub use flags::Flags;
pub use frame::{FrameKind, frame_kind, link_octets, packet_in};
pub use limits::{MAX_CAPTURED, MAX_FRAME, MAX_LINK, MAX_PACKET, MAX_PAYLOAD, MAX_SHIFT};
pub use number::{
    put_u16, put_u32, sequence_before, sequence_distance, sequence_plus, u16_at, u32_at,
};
pub use sums::{pseudo_sum, sum_for, sum_right};
