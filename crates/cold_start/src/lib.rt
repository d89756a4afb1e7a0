//! A TCP segment for which no era is live: it begins an era, its host is probed, or it is refused.
//!
//! Proved (`cold`, `cold_probe`, `warm_from`): a segment begins exactly the era of the list of that
//! one segment, is answered by exactly its cold probe, or is refused, each exactly if its rule
//! holds.
#![tactic(auto)]

pub mod inbound;
pub mod outbound;

pub use inbound::{ColdAnswer, cold, cold_probe};
pub use outbound::warm_from;
