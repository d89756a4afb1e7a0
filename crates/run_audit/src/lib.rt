//! The audit of a finished run: it judges the written capture and the report without the rules of
//! the run.
//!
//! Proved of `audit`: it returns one of its statuses, with a cause that holds for the words and for
//! each source with known octets. It writes its whole line unless the output's count of faults
//! rose. If an answer applies to the words and to sources with known octets, no other holds
//! (`answers_are_one`), and it is returned unless memory could not be allocated or a source failed.
//! At 0, if both sources have known octets, all receivers agree in each era that the report names
//! and read parts of one stream, from whichever offset each starts, whoever wrote the two files.
//!
//! Laws: the segments by which an era is read have the base of all its segments, and nothing is
//! acknowledged before it is fixed. In each era of a lawful trace nothing is written after an
//! outbound RST. The frames of a lawful trace are those of its entries and have no fault, and the
//! numbers of its entries fit a report if records and frames are fewer than 2^32. The audit of the
//! capture and the report written for a lawful trace answers `yes` under these premises. The
//! records are those of a capture of octets, there are at most 2^32 - 1 frames of at most 262,144
//! octets each, and the report has at most 67,108,864 octets. Runs with `--mtu` or `--both` are not
//! covered.
//!
//! Choices: first octets are held in blocks of 256 offsets, one ordered map per era. Nothing is
//! forgotten, so memory grows with the octets written inwards; an octet far from all others takes
//! its own block. That a frame has no fault is a record of what holds for it and not a negation.
//! The law on written files asks that no frame is longer than a record may be; `run_laws` shows
//! that of the files of a run.
#![tactic(auto)]

mod answer;
mod examine;
mod frame;
pub mod laws;
mod ledger;
mod named;
mod octets;
mod offset;
mod owners;
mod report;
mod words;

pub use answer::{Answer, Flaw, Reason};
pub use examine::audit;
