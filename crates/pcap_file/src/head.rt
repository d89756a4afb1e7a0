//! The head of a capture file.
ghost use Rattle.std.specs.Prelude.{◌≡◌, ◌≤◌, length, IsErrOf};
ghost use Rattle.edge_io.specs.FaultCounts.{Rose};
ghost use Rattle.pcap_file.specs.FileHead as heads;
ghost use Rattle.pcap_file.specs.HeadReading.{ReadsHead, KeepsCount};
ghost use Rattle.pcap_file.specs.working.HeadParsing.{Judges};

use crate::Order;
use edge_io::{Failed, Source, read_full};
use thiserror::Error;
use wire_base::Link;

/// The format of a capture file: its byte order, the unit of the fraction of a second, and the link
/// of its frames.
#[derive(Clone, Copy, Debug, PartialEq, Eq)]
pub struct Head {
    pub order: Order,
    /// Whether fractions count nanoseconds; otherwise they count microseconds.
    pub nano: bool,
    pub link: Link,
}

/// The reason why no head was read. The variants are in the order of testing. `Cut`: fewer than 24
/// octets are left. `Magic`: neither 0xa1b2c3d4 nor 0xa1b23c4d in either byte order. `Version`: not
/// 2.4. `Link`: a network other than 1 and 101. `ReadFault`: the source failed.
#[derive(Clone, Copy, Debug, PartialEq, Eq, Error)]
pub enum HeadFault {
    #[error("fewer than 24 octets")]
    Cut,
    #[error("a magic that is not read")]
    Magic,
    #[error("another version than 2.4")]
    Version,
    #[error("a network that is not read")]
    Link,
    #[error("the source failed")]
    ReadFault,
}

impl From<Failed> for HeadFault {
    ghost use Rattle.std.specs.Prelude.{◌≡◌};
    ghost use Rattle.pcap_file.specs.declared.head.HeadFault.TheVariants.{ReadFault};

    ghost from_gives = { λ _ fault. fault ≡ ReadFault };

    fn from(_: Failed) -> Self {
        HeadFault::ReadFault
    }
}

pub(crate) const MICRO_MAGIC: u32 = 0xa1b2_c3d4;

pub(crate) const NANO_MAGIC: u32 = 0xa1b2_3c4d;

pub(crate) const ETHERNET: u32 = 1;

pub(crate) const RAW: u32 = 101;

// Returns whether a magic means nanoseconds; None if it is no magic.
fn unit_of(magic: u32) -> Option<bool>
    ensures { result ≡ heads.unit_of magic }
{
    match magic {
        MICRO_MAGIC => Some(false),
        NANO_MAGIC => Some(true),
        _ => None,
    }
}

// Returns the link of a network number.
fn link_of(network: u32) -> Option<Link>
    ensures { result ≡ heads.link_of network }
{
    match network {
        ETHERNET => Some(Link::Ethernet),
        RAW => Some(Link::Raw),
        _ => None,
    }
}

// Returns the byte order and the unit of the stored magic. The unit is true for nanoseconds.
fn form_of(octets: &[u8]) -> Option<(Order, bool)>
    requires { length octets.now ≡ 24 }
    ensures { result ≡ heads.form_of octets.now }
{
    if let Some(nano) = unit_of(Order::Little.u32_at(octets, 0)) {
        return Some((Order::Little, nano));
    }
    let nano = unit_of(Order::Big.u32_at(octets, 0))?;
    Some((Order::Big, nano))
}

// Parses the 24 octets of a head.
#[tactic(auto, unfolding(crate::specs::FileHead::head_of))]
fn judge(octets: &[u8]) -> Result<Head, HeadFault>
    requires { length octets.now ≡ 24 }
    ensures { Judges octets.now result }
{
    let Some((order, nano)) = form_of(octets) else {
        return Err(HeadFault::Magic);
    };
    if order.u16_at(octets, 4) != 2 || order.u16_at(octets, 6) != 4 {
        return Err(HeadFault::Version);
    }
    let Some(link) = link_of(order.u32_at(octets, 20)) else {
        return Err(HeadFault::Link);
    };
    Ok(Head { order, nano, link })
}

/// Reads the head. Zone, accuracy and snap length are ignored. Takes 24 octets; `Cut` takes all
/// that are left, `ReadFault` fewer than 24.
pub fn read_head<S: Source>(source: &mut S) -> Result<Head, HeadFault>
    ensures octets { ReadsHead (S.left source.old) (S.left source.new) result }
    ensures later { S.fault_count source.old ≤ S.fault_count source.new }
    ensures kept { KeepsCount result (S.fault_count source.old) (S.fault_count source.new) }
    ensures cause { IsErrOf result HeadFault.ReadFault → Rose (S.fault_count source.old) (S.fault_count source.new) }
{
    let mut octets = [0u8; 24];
    let count = read_full(source, &mut octets)?;
    if count < 24 {
        return Err(HeadFault::Cut);
    }
    judge(&octets)
}
