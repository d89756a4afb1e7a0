//! TCP: the header of a segment, its options, its faults, and a segment written (RFC 9293 section
//! 3.1).
//!
//! Proved: `parse` returns the header with its fields, or its first fault; `parse_into` stores the
//! fields in a header of the caller's. `scale_of` returns the window shift of the options.
//! `clean_options` cleans an option area octet for octet as defined, and returns whether an octet
//! changed, as `options_change` does without changing one. Cleaning twice is cleaning once, and it
//! keeps the window scale only of a SYN (`laws`). `write_segment` writes a segment octet for octet
//! with a right checksum, and it is read back as the parts it was written from (`laws`);
//! `write_cleaned` does so with cleaned options. `mend` replaces the checksum by the right one and
//! changes nothing else.
#![tactic(auto)]

pub mod header;
pub mod laws;
pub mod write;

pub use header::{SumRule, Tcp, TcpFault, parse, parse_into, scale_of};
pub use write::{SegmentParts, clean_options, mend, options_change, write_cleaned, write_segment};
