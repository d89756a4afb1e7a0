//! What a run is asked for: its settings, the side of a packet, and the command line.
//!
//! Proved: `read_words` returns the command that the words form, exactly by the grammar: a run with
//! its names and settings, or a load with its seed and count. Otherwise it returns the first fault
//! in the order 1, 5, 3, 2, with the position of the first malformed prefix, or that memory could
//! not be allocated. The settings returned are in their ranges and go together. The words after
//! `run` are read as a line exactly if they are uses of options and then names (`laws`). Each
//! option is known, given once, in one of its forms and with a value that fits. The parser clap
//! refuses such a line only if memory could not be allocated (`run_matches`). `Choice::row` and
//! `Choice::standard` are the table of options, and no two options have the same name (`laws`).
//! `number_within` returns the number that 1 to 20 digits form, if it is in the range. `side_of`
//! returns the side of a packet by the trusted addresses, also with exchanged sides.
#![tactic(auto)]

pub mod command;
pub mod fault;
mod found;
pub mod laws;
mod line;
mod numbers;
pub mod options;
pub mod parsed;
pub mod settings;
pub mod sides;
pub mod words;

pub use command::{Command, Names};
pub use fault::WordFault;
pub use numbers::number_within;
pub use options::{Choice, Kind, Row};
pub use settings::Settings;
pub use sides::side_of;
pub use words::read_words;
