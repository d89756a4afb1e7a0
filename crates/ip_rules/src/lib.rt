//! The rules on the link, the IPv4 header and the protocol: which record is dropped, what is
//! changed of one that is not, and how its frame is written.
//!
//! Proved: `judge_ip` drops a record under exactly the first of these rules that holds, with its
//! side if that is known by then. That is the record's own side if its capture gives one, and else
//! that of its addresses. Otherwise it returns ARP, a fragment, or a whole packet with exactly the
//! fix rules that hold. `judge_ip_into` does the same with a packet that its caller keeps. `laws`
//! say what is known of the datagram that a record carries, and that a rewritten header (`write`)
//! is read with the datagram's protocol and addresses and, inwards, has a TTL that passes all
//! routers.
#![tactic(auto)]

pub mod laws;
pub mod rows;
pub mod write;

pub use rows::{Fixes, IpJudged, IpKind, IpPacket, has_low_ttl, judge_ip, judge_ip_into};
