//! The IPv4 header: its fields, its options, its faults, and a header without options (RFC 791
//! section 3.1).
//!
//! Proved: `parse` returns the header with each field from its offset, or its first fault.
//! `parse_into` stores the fields in a header of the caller's. `options` says exactly by the list
//! of options whether an option area is malformed, is empty, and holds a source route.
//! `write_plain` writes exactly a header of 20 octets with its fields at their offsets and a right
//! checksum.
#![tactic(auto)]

pub mod header;
pub mod write;

pub use header::{BadOption, IpFault, Ipv4, OptionFacts, options, parse, parse_into};
pub use write::write_plain;
