//! Agreement of all receivers on what is sent inwards in each era of a connection, whoever sent it.
//! There are only laws here.
//!
//! Proved: let each segment written in an era be outbound, or be emitted after those before it. An
//! emitted segment is an inward one without octets and FIN, or the frame of a kept interval with
//! the octets first sent at their offsets. Let the inward packets of the era be plain, and let
//! those that are not its segments (probes) have no octet, SYN or FIN. Then the packets, each read
//! at the offset of its sequence number, describe one stream: the first octets and the first FIN of
//! the era. They stay near what was acknowledged before the record of each. So all receivers of the
//! family agree, each reads a part of that stream, from whichever offset it starts, and a monitor
//! misses nothing. It is never behind acknowledgments, if these are those of receivers. Two eras
//! are read as one, if the second goes on where all of the first is acknowledged, without a FIN in
//! the first and a SYN in the second.
#![tactic(auto)]

pub mod laws;
