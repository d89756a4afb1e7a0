//! ICMP: the header of a message, its faults, and the packet that an error message quotes (RFC
//! 792).
//!
//! Proved: `parse` returns the header or its first fault. `quoted` returns the addresses, protocol
//! and ports of the quoted packet. It returns None exactly if no IPv4 header of at least five
//! words, followed by eight octets, is quoted.
#![tactic(auto)]

pub mod header;
pub mod quote;

pub use header::{Icmp, IcmpFault, parse};
pub use quote::{QuotedKey, quoted};
