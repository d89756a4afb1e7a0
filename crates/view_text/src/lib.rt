//! What is said of a record, of an era and of a whole run: a list of named fields, as text, as JSON
//! or as a row of a table.
//!
//! `ShownLine` is the value of a line; `specs/PlainLines.antt` has it over plain lists. The
//! printers are proved safe, and no contract says what they write: that is tested. A time is the
//! RFC 3339 text of the instant.
//!
//! Choices: in JSON each key of an event has one type in all events, and each key of an object in
//! an array one in all such objects. Of octets that were cut off or replaced a text line has the
//! first
//! 64. Words are not escaped in JSON: no word of this crate has a character to escape.
#![tactic(auto)]

mod change;
mod eras;
mod field;
mod flow;
mod json;
pub mod line;
mod notes;
mod octets;
mod put;
mod records;
mod rule_list;
mod run_summary;
mod table;
mod text;
mod time;
mod value;
pub mod view;
mod word;

pub use line::{
    chosen_line, era_heading, era_line, evidence_lines, notes_text, record_heading, record_line,
    stop_line, summary_line,
};
pub use view::{
    EraCounts, EraView, EvidenceCounts, Format, Opened, RuleCount, ShownLine, Sides, Summary,
    VerdictCounts,
};
