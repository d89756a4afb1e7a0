//! Resets of a live era, and the probe that asks the trusted host for the state of the connection.
//!
//! Proved: `judge_reset` refuses a reset of a live era exactly under T_RST, and otherwise passes it
//! with the era's probe (`probe_of`), if there is one. `write_probe` writes exactly the 40 octets
//! of a probe. A probe is plain for every number of routers below its TTL, and has no octet, SYN or
//! FIN (`laws`).
#![tactic(auto)]

pub mod laws;
pub mod reset;
pub mod write;

pub use reset::{ResetAnswer, judge_reset, probe_of};
pub use write::write_probe;
