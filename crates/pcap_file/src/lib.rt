//! Classic pcap files: the head, and records that are read and written one by one.
//!
//! Proved, however the source splits the octets: `read_head` accepts exactly the heads of the
//! format, of either byte order, either time unit and either link; `Reader::next` returns exactly
//! the records of the format. Otherwise both return the first fault. The contracts state which
//! octets are taken for each result. What `write_head` and `write_record` append is read back as
//! that head and that record. Any octets are either a capture with one head and one list of
//! records, or have one first fault at one offset (`laws`).
#![tactic(auto)]

pub mod head;
pub mod laws;
pub mod reader;
pub mod record;
pub mod writer;

pub use head::{Head, HeadFault, read_head};
pub use reader::{Reader, RecordFault};
pub use record::{Order, Record};
pub use writer::{WriteFault, write_head, write_record};
