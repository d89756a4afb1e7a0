//! One record, judged by one engine or by two if both sides are protected: a second engine with
//! exchanged sides then reads the frames that the first one writes. The frames for the record are
//! written, and then its lines.
//!
//! Proved: a `Both` represents a pair of traces: that of the records, and that of the frames of the
//! first engine, lawful under exchanged sides. `front` returns exactly the entry that the first
//! engine gives a record, and its frames are then pending. `back` returns exactly the entry and the
//! frames that the second engine gives the next of them. Laws, for records of octets and at most
//! 254 routers. If no record has its own side, each frame that the first engine writes for a record
//! which does not go outwards passes the second one octet for octet. In each era of either trace
//! all receivers agree and read parts of one stream.
//!
//! Proved of `Relay::relay`: all frames that the record has are written, and then its lines; if a
//! sink fails, a prefix of these. The engines then represent the run with this record, and what is
//! written for it is what the definitions say. Laws (`laws`): records have one lawful run. One
//! engine writes its trace, cut for the MTU as `norm_engine` defines; two engines write the frames
//! of the second trace. In a lawful run clean records keep their payload, with `--mtu` in one frame
//! or in segments, unless a frame is too long and cannot be cut. No more is held than the settings
//! allow. Receivers agree on each protected side. Each frame written inwards is plain, except ARP,
//! and none has more than 65,549 octets.
//!
//! Choices: the record of a frame has the time of the record that the frame was written for, its
//! own length as original length, and no side. A frame is read from the outbox that it was written
//! to, without a copy. A record has at most two frames, so half of a `u32` is left for records. ARP
//! has no side and passes both engines. With `--mtu` a record has at most 133 frames, since only
//! its first frame can be long: at most a probe of 40 octets follows it. Segments are written as
//! they are made, and the line of the record after all of them, since it counts them.
#![tactic(auto)]

pub mod both;
mod cut;
mod engines;
mod fault;
pub mod laws;
mod one_engine;
mod relay;
mod room;
mod two_engines;

pub use both::Both;
pub use engines::Engines;
pub use fault::RelayFault;
pub use relay::Relay;
