//! The connections: which segments of a TCP connection are passed on, and what they carry.
//!
//! Proved over every list of calls of `TcpNorm`: whether an era of a four-tuple is live (`live`),
//! how many are live (`flows`) and how many cells they hold (`held`), all within the settings. The
//! eras, the entry and the frames of an inbound and of an outbound datagram are those that
//! `outcome_at` defines after these calls. That covers rules that drop or change it, resets with
//! their probe, cold probes, reopening, eviction, the full table and the quota. `expire` ends at
//! most two idle eras, those written least recently first. An era that ends is reported with the
//! number of offsets at which an octet was sent inwards. Each live era holds at most the quota, and
//! if there are cells for the quota of each, T_ROOM drops nothing.
//!
//! Laws over calls that the rules make: the live era of a four-tuple is the one last begun for it
//! and not ended. The live eras are these, each once, in the order of the calls that last wrote in
//! them. A call that neither names nor ends an era leaves it unchanged. What is written of a
//! segment of the stream is the frame of its kept interval, with the octets first sent at their
//! offsets. If the datagrams are segments, each segment of an era is emitted after those before it.
//! Each packet sent is a packet of its datagram, and inwards it is plain. A probe for a dropped
//! segment has no octet, SYN or FIN. If no rule touches the payload, exactly one packet is sent,
//! with that payload. No more blocks hold octets than there are cells, and no more of one era than
//! the quota. Each octet of an era's stream, and its end, was brought by a datagram written inwards
//! in the era. T_CLASH applies to a datagram that no rule drops exactly if it has neither SYN nor
//! RST, and has, at an offset at or past Acked, an octet that differs from the era's stream.
#![tactic(auto)]

mod arrival;
mod begin;
mod emit;
mod expire;
mod inbound;
mod key;
pub mod laws;
mod outbound;
mod state;
mod step;
mod update;

pub use state::TcpNorm;
