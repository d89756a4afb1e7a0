//! Errors in the text of a report.
ghost use Rattle.std.specs.Prelude.{◌≡◌};
ghost use Rattle.rule_book.specs.declared.fault.LineFault.TheVariants.{NoMemory};

use std::alloc::{AllocError, AllocFailed};
use thiserror::Error;

/// The first error in the text of a report, or a failed allocation. Lines are counted from 1.
#[derive(Clone, Copy, Debug, PartialEq, Eq, Error)]
pub enum LineFault {
    #[error("the first line is neither `norm 1` nor `norm 2`")]
    First,
    /// This line is missing, is malformed, or follows the `end` or `stop` line.
    #[error("line {0} is no line of a report")]
    Shape(u64),
    /// The record number in this line is not the next one.
    #[error("line {0} has another record number than the next")]
    Number(u64),
    #[error("no memory for the report")]
    NoMemory,
}

impl<T: Drop> From<AllocFailed<T>> for LineFault {
    ghost from_gives = { λ _ fault. fault ≡ NoMemory };

    fn from(_: AllocFailed<T>) -> LineFault {
        LineFault::NoMemory
    }
}
