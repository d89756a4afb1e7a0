//! The view of a finished run: the capture that a run read, the capture that it wrote and its
//! report are read in step, and records, eras and a summary are shown.
//!
//! `view` writes to `Events`: a list of events, one for each record that is shown, with all its
//! lines, and one for how many were chosen. Its contract, by status:
//!
//! - 0, 10 or 11: the words are accepted, and there is one list of items, one per line of the
//!   report, with its record, its entry and its frames. The input is a capture of the records, the
//!   output one of the frames with the link of the input, and the report that of a finished run
//!   with the lines. A record that was passed has one frame, with its octets and its time. The
//!   events that were shown are exactly those of the items by the words (`events_of`). Where
//!   evidence is asked for, it is 11 if a record is chosen and 0 if none is. In a report of two
//!   engines a line of the first engine has a record and no frames, and is followed by a line of
//!   the second for each frame that it names; these have the frames of the output.
//! - 1, 9: the three files are not those of a finished run.
//! - 2: the arguments are invalid.
//! - 3, 4: the input is no capture, or the output is none, or has another link.
//! - 5, 7: the count of faults of a source, or of the output, rose, or is at its last value.
//! - 8: memory could not be allocated (that is not claimed).
//!
//! Nothing is claimed of a source or of events that are not known. What a `Printer` writes of the
//! events, headings, eras, the summary, notes, the classes of evidence, the line of a stop, and
//! which of 0 and 10 it is, are proved safe and tested.
//!
//! Laws (`runs_are_viewed`): let three files be an input, an output of its link and a report of the
//! same items. With words that are accepted, a view of them stops only if memory cannot be
//! allocated, or if a count of faults rises or is at its last value. A table of eras and notes show
//! no record (`others_show_no_record`). A report and an input have one list of lines and of records
//! (`items_are_one`). Records are chosen where words that are accepted give a condition
//! (`conditions_choose`).
//!
//! Choices: counts of 64 bits saturate at the last value. Conditions choose a record with all its
//! lines, and the lines of at most one record are kept; each condition may be met by another line.
//! A frame of a line of the second engine is compared with the record, since what the first engine
//! wrote is in no file. A frame that norm made itself, for a dropped record, by C_PROBE or by
//! F_DONE, is named and not compared. The report is read ahead, at most 4,096 octets: where its
//! source fails, the last octets that were read ahead, fewer than 400 and what the failed call
//! read, are not viewed.
#![tactic(auto)]

mod chosen;
mod compare;
mod ends;
mod eras;
pub mod events;
mod evidence;
pub mod form;
mod item;
mod judged;
pub mod laws;
mod line;
mod print;
mod show;
mod sources;
pub mod stop;
mod take;
mod tally;
mod turn;
pub mod values;
pub mod viewer;
pub mod words;

pub use events::{Event, Events, MemEvents, Printer, Unshown};
pub use form::Form;
pub use stop::Stop;
pub use viewer::view;
pub use words::Asked;
