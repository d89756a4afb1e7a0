//! Numbers in the byte order of a section.
ghost use Rattle.std.specs.Prelude.{◌≡◌, ◌+◌, ◌≤◌, length};
ghost use Rattle.pcap_file.specs.FileNumbers as numbers;

use byteorder::{BigEndian, ByteOrder, LittleEndian};
use pcap_file::Order;

/// Returns the 16-bit number at the offset `at`.
pub(crate) fn u16_at(order: Order, bytes: &[u8], at: usize) -> u16
    requires { at + 2 ≤ length bytes.now }
    ensures { result ≡ numbers.u16_at order bytes.now at }
{
    match order {
        Order::Little => LittleEndian::read_u16(&bytes[at..]),
        Order::Big => BigEndian::read_u16(&bytes[at..]),
    }
}

/// Returns the 32-bit number at the offset `at`.
pub(crate) fn u32_at(order: Order, bytes: &[u8], at: usize) -> u32
    requires { at + 4 ≤ length bytes.now }
    ensures { result ≡ numbers.u32_at order bytes.now at }
{
    match order {
        Order::Little => LittleEndian::read_u32(&bytes[at..]),
        Order::Big => BigEndian::read_u32(&bytes[at..]),
    }
}
