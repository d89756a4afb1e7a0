//! The command of a command line.
use crate::Settings;

/// The files of a run.
#[derive(Debug, Drop)]
pub struct Names {
    pub input: String,
    pub output: String,
}

/// The command: to normalize a capture, or to normalize `count` records generated from a seed.
#[derive(Debug, Drop)]
pub enum Command {
    Run { names: Names, settings: Settings },
    Load { seed: u64, count: u32 },
}
