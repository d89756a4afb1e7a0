//! The first twelve octets of a block.
ghost use Rattle.std.specs.Prelude.{◌≡◌, length};
ghost use Rattle.pcapng_file.specs.Blocks as blocks;
ghost use Rattle.pcapng_file.specs.working.BlockFronts as blocks_working;

use crate::NgFault;
use crate::content::SECTION;
use crate::numbers::u32_at;
use pcap_file::Order;

/// The front of a block: its type and its size in octets, in the byte order of its section.
#[derive(Clone, Copy, Debug, PartialEq, Eq)]
pub struct Front {
    pub order: Order,
    pub kind: u32,
    pub size: u32,
}

const MAGIC: u32 = 0x1a2b_3c4d;

// Returns whether a block may have this size.
fn is_size(size: u32) -> bool
    ensures { result ≡ blocks.is_size size }
{
    size >= 12 && size % 4 == 0
}

// Returns the byte order by the byte-order magic of a section block.
fn order_by_magic(head: &[u8]) -> Option<Order>
    requires { length head.now ≡ 12 }
    ensures { result ≡ blocks.order_by_magic head.now }
{
    if u32_at(Order::Little, head, 8) == MAGIC {
        return Some(Order::Little);
    }
    if u32_at(Order::Big, head, 8) == MAGIC {
        return Some(Order::Big);
    }
    None
}

// Returns the byte order of a block: that of its section, or its own if it begins a section.
fn order_at(section: Option<Order>, head: &[u8]) -> Option<Order>
    requires { length head.now ≡ 12 }
    ensures { result ≡ blocks.order_at section head.now }
{
    if u32_at(Order::Little, head, 0) == SECTION {
        return order_by_magic(head);
    }
    section
}

/// Parses the first twelve octets of a block.
pub(crate) fn front_of(section: Option<Order>, head: &[u8]) -> Result<Front, NgFault>
    requires { length head.now ≡ 12 }
    ensures { result ≡ blocks_working.front_in (blocks.order_at section head.now) head.now }
{
    let Some(order) = order_at(section, head) else {
        return Err(NgFault::Magic);
    };
    let size = u32_at(order, head, 4);
    if !is_size(size) {
        return Err(NgFault::Block);
    }
    let kind = u32_at(order, head, 0);
    Ok(Front { order, kind, size })
}
