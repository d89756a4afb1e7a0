//! The report: its rules, the entry of each record, and the text of its lines.
//!
//! Proved: `Rule::number`, `Rule::name`, `Rule::sentence` and `Rule::of_name` are the table of
//! rules (`specs/Rules.antt`), names and numbers in both directions. The drop rules form one list
//! per layer, in the order of testing. These lists and those of the other rules are the table's, by
//! layer and kind. Along the drop rules numbers rise except at T_QUOTA (`laws`). `entry_line`,
//! `last_line` and `load_line` write exactly the text of their argument, in at most 376, 64 and 64
//! octets. `read_entry` and `read_last` return an entry and a last line exactly if the octets are
//! its text, with its line feed; ended eras have their octets in version 2 alone. `read_report`
//! returns a report of version 1 or 2 exactly if the octets are its text. Otherwise it returns the
//! first fault and its line, or that memory could not be allocated. No text is the text of two
//! reports, of whatever versions (`laws`).
//!
//! Choices: `entry_line` requires a buffer of 400 octets. The longest line has exactly 376: 16
//! rules of 10 octets with their space, 4 ended eras of 42, two eras of 12, and 24 for number,
//! side, verdict, frames and line feed. The variants of `Rule` are in the order of the numbers, not
//! of testing; no rule has the number 59.
#![tactic(auto)]

pub mod entry;
pub mod fault;
mod found;
pub mod last;
pub mod laws;
mod line;
pub mod load;
pub mod report;
pub mod rule;
mod words;

pub use entry::{Ended, Entry, Reason, Verdict, entry_line};
pub use fault::LineFault;
pub use found::{read_entry, read_last};
pub use last::{Last, StopKind, last_line};
pub use load::{LoadLine, load_line};
pub use report::{Report, read_report};
pub use rule::Rule;
