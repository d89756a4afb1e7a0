//! Receivers that put a stream together from frames, and the law that all of them agree.
//!
//! Proved (`laws::members_agree`): let plain frames describe one stream, with one octet at each
//! offset and one end. Then any two receivers of the family that start at the same offset, behind
//! at most `hops` routers, agree: the stream of one is a prefix of the other's. The schedules are
//! any in which each octet arrives within 2^31 of the receiver's next offset. A monitor hears every
//! frame, keeps each octet not yet read and delivers all that it can; the stream of every other
//! receiver from the same start is a prefix of its stream (`laws::monitors_miss_nothing`). It hears
//! the frames in any order, each in time; or in order, whenever they arrive, if they stay near what
//! was acknowledged. In order each is in time while the monitor is not far behind that
//! (`laws::monitors_are_in_time`). From whichever offset a receiver starts, it reads a part of the
//! one stream (`laws::members_read_parts`), so any two have the same octet wherever both have one
//! (`laws::parts_meet`). A monitor that hears the frames in time has all that a receiver has which
//! starts within what the monitor has read (`laws::monitors_cover_parts`). A `Stream` with any of
//! four policies is a receiver of the family, and a monitor once it has taken every frame in order
//! (`laws::streams_are_monitors`). `Family::agree` returns exactly whether each two of the four
//! agree, and they do if their frames describe one stream and arrive in time. `plain` returns
//! exactly whether a packet is plain. A written header and segment are plain for every number of
//! routers below the TTL, and are read as that segment (`laws::written_packets_are_read`). Any two
//! receivers read a plain packet as the same segment, UDP datagram or ICMP message
//! (`laws::plain_packets_are_read_alike`).
//!
//! Choices: offsets are whole numbers, and one relation (`Names`) has the wrap at 2^32. A receiver
//! reads a number near the offset at which its stream continues, for octets and FIN alike, and a
//! segment that was taken keeps that offset. Nothing is claimed of a frame that arrives outside of
//! that range. A stream that has ended may continue if octets wait there; only the premises of the
//! law exclude such octets.
#![tactic(auto)]

pub mod agreement;
pub mod family;
pub mod laws;
mod mark;
pub mod member;
mod piece;
pub mod plain_packet;
pub mod policy;
pub mod segment;
pub mod stream;

pub use agreement::agree;
pub use family::Family;
pub use member::Member;
pub use plain_packet::plain;
pub use policy::Policy;
pub use segment::{Segment, read_plain};
pub use stream::Stream;
