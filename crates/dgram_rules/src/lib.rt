//! The rules on UDP and ICMP: which datagram is dropped, and which UDP checksum is rewritten.
//!
//! Proved: `judge_udp` and `judge_icmp` drop a message under exactly the first of their rules that
//! holds. A message that no rule drops gets a new checksum exactly if its UDP checksum is wrong, it
//! goes outward, and `--offload` is set. No rule of this crate applies to another protocol
//! (`laws`).
#![tactic(auto)]

pub mod judged;
pub mod laws;
pub mod message_rules;

pub use judged::DgramJudged;
pub use message_rules::{judge_icmp, judge_udp};
