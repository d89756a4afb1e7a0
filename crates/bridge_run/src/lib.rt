//! The run: a capture is read, each record judged, and the normalized capture and the report
//! written; or a load is judged and summed up.
//!
//! Proved of `run`, `run_capture` and `run_load`: the theorem that joins all others
//! (docs/PROVED.md). At status 0 the octets written are the frames and the report of the one lawful
//! run over the records. No more is held than the settings allow, clean records keep their payload,
//! and receivers agree and read parts of one stream. A monitor misses nothing, and each frame
//! written inwards is plain, except ARP. At each other status the contract says what was taken from
//! the source and written to the sinks, and `laws` states it status by status. A load writes its
//! summary. Clauses on octets speak of sources and sinks with known octets (`edge_io`); of files
//! the contract says which counts of faults rose.
#![tactic(auto)]

pub mod laws;
mod load;
mod runner;
mod stop;
mod tally;

pub use load::run_load;
pub use runner::{run, run_capture};
