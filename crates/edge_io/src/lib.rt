//! Sources and sinks of octets with a count of faults, and the outbox for the frames of one record.
//!
//! Proved of every `Source` and `Sink`: a call fails only if the count of faults rises in it or is
//! at the last value of its `u64`. No count falls. A call that succeeds leaves its count unchanged.
//! Proved of one with known octets, that is, whose `left` or `held` is a list: `fetch` moves the
//! first octets left into the buffer, and takes none if it fails. `put` appends its argument, or a
//! prefix of it if it fails. `flush` changes nothing and does not fail. `MemSource` and `MemSink`
//! fail exactly at the calls that their lists name (the sink does so too if the octets do not fit).
//! Every other call moves the octets that the contract names. `read_full` fills the buffer or
//! reaches the end of the source. An `Outbox` is the list of the frames put into it: at most two,
//! of at most 65,549 octets each.
//!
//! A `BufferedSource` over a reader with known octets has these left: those in its buffer, and then
//! those of the reader. It reads only if its buffer is empty. A `BufferedSink` over a writer with
//! known octets keeps their order and loses none unless a call fails. After a `put` the octets of
//! the writer and then those in the buffer are what they were, followed by its argument. After a
//! `flush` the writer has them all.
//!
//! The octets of files and of standard output are not known. So of `FileSource`, `FileSink` and
//! `LineOut` the clauses state what happens in the buffer. Octets in it are fetched in order,
//! octets that fit are appended to it, and a call of a sink that fails leaves none in it. A call
//! without a file fails. The clauses state how the count of faults changes, and that there is a
//! last error if and only if a call failed, but not which error. That files get and give their
//! octets in order is tested.
//!
//! Choices: a write is repeated by std's `write_all`, which refuses a write that takes nothing; an
//! interrupted read is tried 1,000 times. `Sink::flush` does nothing by default, since a sink with
//! known octets buffers none. A count of faults saturates at the last value of its `u64`.
#![tactic(auto)]

pub mod ends;
pub mod faults;
pub mod files;
pub mod memory;
pub mod outbox;

pub use ends::{Sink, Source};
pub use faults::{Failed, NoMemory};
pub use files::{BufferedSink, BufferedSource, FileSink, FileSource, LineOut, read_full};
pub use memory::{MemSink, MemSource};
pub use outbox::{MAX_FRAME, Outbox};
