//! Faults of a pcapng file.
use edge_io::Failed;
use thiserror::Error;

/// Reasons why no further record exists. `Magic`, `Many`, and `Block` for a size that no block has
/// are found in the first twelve octets of a block. `Version`, `Link`, `Long`, and `Block` for
/// anything else are returned only if the block is not cut short. `Cut`: the file ends inside a
/// block, or before an interface block. `Magic`: the first block is no section block, or a section
/// block has an unknown byte order. `Version`: a major version other than 1. `Link`: a link other
/// than 1 and 101, or than that of the first interface. `Block`: the block is malformed, as a
/// packet without its interface is, or not supported. Not supported are more than 64 interfaces in
/// a section, a unit of time other than micro- and nanoseconds, a time of 2^32 seconds or more, and
/// a packet block of type 2. `Long`: a captured length above 262,144 octets. `Many`: 2^32 - 1
/// blocks precede.
#[derive(Clone, Copy, Debug, PartialEq, Eq, Error)]
pub enum NgFault {
    #[error("the octets end inside a block, or before the first interface")]
    Cut,
    #[error("no section block, or one whose byte-order magic is not read")]
    Magic,
    #[error("another major version than 1")]
    Version,
    #[error("a link that is not read, or another than that of the first interface")]
    Link,
    #[error("a block that is not well formed")]
    Block,
    #[error("a captured length above 262144")]
    Long,
    #[error("more than 4294967295 blocks")]
    Many,
    #[error("the source failed")]
    ReadFault,
}

/// The reason why no file was opened, and the offset of the malformed block, in octets from the
/// start of the file.
#[derive(Clone, Copy, Debug, PartialEq, Eq, Error)]
#[error("{fault}, at octet {offset}")]
pub struct OpenFault {
    pub fault: NgFault,
    pub offset: u64,
}

impl From<Failed> for NgFault {
    ghost use Rattle.std.specs.Prelude.{◌≡◌};
    ghost use Rattle.pcapng_file.specs.declared.fault.NgFault.TheVariants.{ReadFault};

    ghost from_gives = { λ _ fault. fault ≡ ReadFault };

    fn from(_: Failed) -> Self {
        NgFault::ReadFault
    }
}
