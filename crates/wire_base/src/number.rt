//! Numbers in octets, most significant octet first, and TCP sequence numbers, which
//! count octets modulo 2^32 (RFC 9293 section 3.4).
ghost use Rattle.std.specs.Prelude.{◌≡◌, ◌+◌, ◌≤◌, length, ◌-◌, ◌%◌, ◌^◌};
ghost use Rattle.wire_base.specs.Numbers as numbers;

use byteorder::{BigEndian, ByteOrder};

/// 2^32, the number of sequence numbers.
const TURN: u64 = 1 << 32;

/// Returns the 16-bit number at the offset `at`. Big-endian.
pub fn u16_at(bytes: &[u8], at: usize) -> u16
    requires { at + 2 ≤ length bytes.now }
    ensures { result ≡ numbers.u16_at bytes.now at }
{
    BigEndian::read_u16(&bytes[at..])
}

/// Returns the 32-bit number at the offset `at`. Big-endian.
pub fn u32_at(bytes: &[u8], at: usize) -> u32
    requires { at + 4 ≤ length bytes.now }
    ensures { result ≡ numbers.u32_at bytes.now at }
{
    BigEndian::read_u32(&bytes[at..])
}

/// Writes a 16-bit number at the offset `at`. Big-endian; all other octets stay.
pub fn put_u16(bytes: &mut [u8], at: usize, value: u16)
    requires { at + 2 ≤ length bytes.old }
    ensures { bytes.new ≡ numbers.with_u16 bytes.old at value }
{
    BigEndian::write_u16(&mut bytes[at..], value);
}

/// Writes a 32-bit number at the offset `at`. Big-endian; all other octets stay.
pub fn put_u32(bytes: &mut [u8], at: usize, value: u32)
    requires { at + 4 ≤ length bytes.old }
    ensures { bytes.new ≡ numbers.with_u32 bytes.old at value }
{
    BigEndian::write_u32(&mut bytes[at..], value);
}

/// Returns the sequence number `octets` after `number`.
pub fn sequence_plus(number: u32, octets: u64) -> u32
    ensures { result ≡ (number + octets) % 2 ^ 32 }
{
    ((u64::from(number) + octets % TURN) % TURN) as u32
}

/// Returns the sequence number before `number`.
pub fn sequence_before(number: u32) -> u32
    ensures { result ≡ (number + (2 ^ 32 - 1)) % 2 ^ 32 }
{
    number.wrapping_sub(1)
}

/// Returns the number of octets from the sequence number `first` up to `last`, from 0 to 2^32 - 1.
pub fn sequence_distance(first: u32, last: u32) -> u64
    ensures { result ≡ (last + 2 ^ 32 - first) % 2 ^ 32 }
{
    (u64::from(last) + TURN - u64::from(first)) % TURN
}
