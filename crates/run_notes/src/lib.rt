//! Notes on bad input: what a finished run says of its capture as a whole, where lines that are
//! each right leave a reader believing the wrong thing, such as a capture that lost packets.
//!
//! Proved safe; what is counted, and when there is a note, is tested. `Notes::take` takes each line
//! of the first engine with its record, `Notes::list` returns the notes, `Notes::hosts` the
//! addresses that most records have.
//!
//! Choices: counts have 64 bits and stop at the greatest value. Memory is that of the eras, their
//! four-tuples and the runs of octets that each of their streams has, and of the datagrams that
//! ever had a held fragment. It also holds at most 65,536 addresses per side, the types and
//! protocols that are not judged, and the last four records. An octet is lost if its side passed
//! over it, the other side acknowledged it, and no segment of the capture has it. Octets of
//! fragments are not counted as those of segments.
#![tactic(auto)]

mod by_side;
mod coverage;
mod early;
mod firsts;
mod fragments;
mod held;
mod hosts;
mod kinds;
mod layers;
mod line;
mod list;
mod notes;
mod streams;
mod sums;
mod tuples;
mod twins;

pub use by_side::BySide;
pub use early::{EARLY_RULES, RuleDrops};
pub use firsts::Firsts;
pub use fragments::NumberCount;
pub use held::Clash;
pub use hosts::{HostCount, Hosts};
pub use kinds::{Full, Tagged};
pub use line::NotedLine;
pub use list::{Note, has_warning};
pub use notes::Notes;
