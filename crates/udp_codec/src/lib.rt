//! UDP: the header of a message, its faults, and a new checksum (RFC 768).
//!
//! Proved: `parse` returns the header or its first fault. `mend` replaces the checksum by one that
//! is right and never 0, and changes nothing else.
#![tactic(auto)]

pub mod checksum;
pub mod header;

pub use checksum::mend;
pub use header::{Udp, UdpFault, parse};
