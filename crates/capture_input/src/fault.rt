//! Faults of a capture.
ghost use Rattle.std.specs.Prelude.{◌≡◌};
ghost use Rattle.capture_input.specs.Faults.{of_head, of_record, of_block};

use edge_io::Failed;
use pcap_file::{HeadFault, RecordFault};
use pcapng_file::NgFault;
use thiserror::Error;

/// Reasons why there is no further record.
#[derive(Clone, Copy, Debug, PartialEq, Eq, Error)]
pub enum InputFault {
    #[error("the octets end inside the head, a record or a block")]
    Cut,
    #[error("a magic that is not read")]
    Magic,
    #[error("a version that is not read")]
    Version,
    #[error("a link that is not read")]
    Link,
    #[error("a block that is not well formed, or a classic file where interfaces are asked for")]
    Block,
    #[error("a captured length above 262144")]
    Long,
    #[error("more than 4294967295 records or blocks")]
    Many,
    #[error("the source failed")]
    ReadFault,
}

/// The reason why no capture was opened, and the offset of the malformed head or block, in octets
/// from the start of the capture.
#[derive(Clone, Copy, Debug, PartialEq, Eq, Error)]
#[error("{fault}, at octet {offset}")]
pub struct OpenFault {
    pub fault: InputFault,
    pub offset: u64,
}

// Returns the input fault of a fault of a classic head.
fn head_fault(fault: HeadFault) -> InputFault
    ensures { result ≡ of_head fault }
{
    match fault {
        HeadFault::Cut => InputFault::Cut,
        HeadFault::Magic => InputFault::Magic,
        HeadFault::Version => InputFault::Version,
        HeadFault::Link => InputFault::Link,
        HeadFault::ReadFault => InputFault::ReadFault,
    }
}

// Returns the input fault of a fault of a block.
fn block_fault(fault: NgFault) -> InputFault
    ensures { result ≡ of_block fault }
{
    match fault {
        NgFault::Cut => InputFault::Cut,
        NgFault::Magic => InputFault::Magic,
        NgFault::Version => InputFault::Version,
        NgFault::Link => InputFault::Link,
        NgFault::Block => InputFault::Block,
        NgFault::Long => InputFault::Long,
        NgFault::Many => InputFault::Many,
        NgFault::ReadFault => InputFault::ReadFault,
    }
}

impl From<RecordFault> for InputFault {
    ghost use Rattle.std.specs.Prelude.{◌≡◌};
    ghost use Rattle.capture_input.specs.Faults.{of_record};

    ghost from_gives = { λ fault gives. gives ≡ of_record fault };

    fn from(fault: RecordFault) -> Self {
        match fault {
            RecordFault::Cut => InputFault::Cut,
            RecordFault::Long => InputFault::Long,
            RecordFault::TooMany => InputFault::Many,
            RecordFault::ReadFault => InputFault::ReadFault,
        }
    }
}

impl From<NgFault> for InputFault {
    ghost use Rattle.std.specs.Prelude.{◌≡◌};
    ghost use Rattle.capture_input.specs.Faults.{of_block};

    ghost from_gives = { λ fault gives. gives ≡ of_block fault };

    fn from(fault: NgFault) -> Self {
        block_fault(fault)
    }
}

impl From<Failed> for OpenFault {
    ghost use Rattle.std.specs.Prelude.{◌≡◌};
    ghost use Rattle.capture_input.specs.Faults.{at_first};
    ghost use Rattle.capture_input.specs.declared.fault.InputFault.TheVariants.{ReadFault};

    ghost from_gives = { λ _ gives. gives ≡ at_first ReadFault };

    fn from(_: Failed) -> Self {
        OpenFault {
            fault: InputFault::ReadFault,
            offset: 0,
        }
    }
}

impl From<HeadFault> for OpenFault {
    ghost use Rattle.std.specs.Prelude.{◌≡◌};
    ghost use Rattle.capture_input.specs.Faults.{at_first, of_head};

    ghost from_gives = { λ fault gives. gives ≡ at_first (of_head fault) };

    fn from(fault: HeadFault) -> Self {
        OpenFault {
            fault: head_fault(fault),
            offset: 0,
        }
    }
}

impl From<pcapng_file::OpenFault> for OpenFault {
    ghost use Rattle.std.specs.Prelude.{◌≡◌};
    ghost use Rattle.capture_input.specs.Faults.{at_block};

    ghost from_gives = { λ stop gives. gives ≡ at_block stop };

    fn from(stop: pcapng_file::OpenFault) -> Self {
        OpenFault {
            fault: block_fault(stop.fault),
            offset: stop.offset,
        }
    }
}
