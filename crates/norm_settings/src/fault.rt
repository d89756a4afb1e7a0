//! Faults of a command line.
ghost use Rattle.std.specs.Prelude.{◌≡◌};
ghost use Rattle.norm_settings.specs.RefusalNumbers.{number_of};
ghost use Rattle.norm_settings.specs.declared.fault.WordFault.TheVariants.{NoMemory};

use std::alloc::AllocError;
use thiserror::Error;

/// Reasons why words are not a command. Tested in the order `Refused`, `Same`, `TooMany`, `Prefix`;
/// numbers are from 1 to 5. `NoMemory` (4) is in no line of a report.
#[derive(Clone, Copy, Debug, PartialEq, Eq, Error)]
pub enum WordFault {
    /// Words of a form other than `run OPTION* IN OUT PREFIX+` and `load SEED COUNT`: an option
    /// that is unknown, is given twice, has no value or one that does not fit, or conflicts with
    /// another. Also a name that is empty or begins with `-`, or a seed or count that is not a
    /// number or is out of its range.
    #[error("not the words `run [OPTION..] IN OUT PREFIX..` or `load SEED COUNT`")]
    Refused,
    /// The prefix at this position, counted from 1, is malformed.
    #[error("prefix {0} is faulty")]
    Prefix(u8),
    #[error("more than 16 prefixes")]
    TooMany,
    #[error("no memory for the names")]
    NoMemory,
    #[error("one name for both files")]
    Same,
}

impl WordFault {
    /// Returns the fault's number in the report.
    pub fn number(&self) -> u8
        ensures { result ≡ number_of self.now }
    {
        match self {
            WordFault::Refused => 1,
            WordFault::Prefix(_) => 2,
            WordFault::TooMany => 3,
            WordFault::NoMemory => 4,
            WordFault::Same => 5,
        }
    }
}

impl From<AllocError> for WordFault {
    ghost from_gives = { λ _ fault. fault ≡ NoMemory };

    fn from(_: AllocError) -> WordFault {
        WordFault::NoMemory
    }
}
