//! What the headers of a packet say, and what differs between a record and a frame that was written
//! for it.
//!
//! Proved: `flow_of` returns the addresses, ports and marks that the headers of a frame's packet
//! say, exactly where an IPv4 header can be read. `length_of` returns the number of octets after
//! the last header that can be read. `add_changes` adds exactly the fields in which a record and a
//! frame say something else, in the order of the headers, with both values. For the payload these
//! are the octets cut off at either end, those after its end, and the runs replaced. `add_made`
//! adds exactly the kind of a frame that norm made itself, what its headers say, and the number of
//! octets after them. What is said in the fields determines a frame: two frames of octets say the
//! same in each exactly if they are equal. So nothing differs exactly between equal frames
//! (`laws`).
//!
//! Choices: header lengths, the data offset and the fragment offset are in octets. A TCP or UDP
//! header is read only where it is whole, in a packet that is unfragmented or the first fragment;
//! otherwise the payload begins after the IPv4 header. Where no IPv4 header can be read, all octets
//! after the link header are payload. A total length above the number of octets present, or below
//! the header length, is read as their number.
#![tactic(auto)]

pub mod change;
pub mod field;
pub mod flow;
pub mod laws;
mod parts;
mod payload;
mod reading;

pub use change::{Change, Made, PayloadChange, Replaced, Said, add_changes, add_made};
pub use field::Field;
pub use flow::{
    Flow, IcmpMarks, Ports, TcpMarks, ethertype_of, flow_of, flow_of_packet, length_of,
};
pub use parts::{message_end, message_in, packet_of};
