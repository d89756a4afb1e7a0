//! Checksums: sums of 16-bit words (RFC 1071).
ghost use Rattle.std.specs.Prelude.{◌≡◌, ◌+◌, ◌*◌, ◌/◌, ◌≤◌, ◌<◌, ◌^◌, length, drop};
ghost use Rattle.wire_base.specs.Checksums as sums;
ghost use Rattle.wire_base.specs.working.SumCounting as sums_working;

use crate::Addr;
use byteorder::{ByteOrder, LittleEndian};

/// Returns the sum of the pseudo-header of TCP and UDP: the addresses, the protocol, and the length
/// of the packet's payload in octets (RFC 768, RFC 9293 section 3.1).
pub fn pseudo_sum(src: Addr, dst: Addr, protocol: u8, len: u16) -> u32
    ensures { result ≡ sums.pseudo_sum src.0 dst.0 protocol len }
{
    let source = (src.0 >> 16) + (src.0 & 0xffff);
    let destination = (dst.0 >> 16) + (dst.0 & 0xffff);
    source + destination + u32::from(protocol) + u32::from(len)
}

/// Returns whether the sum of `extra` and the words of the octets, the checksum among them, is
/// right: a positive multiple of 65,535. An odd last octet is the high octet of its word.
pub fn sum_right(bytes: &[u8], extra: u32) -> bool
    ensures { result ≡ sums.sum_is_right bytes.now extra }
{
    is_right(total_sum(bytes, extra))
}

/// Returns the checksum that makes the sum of `extra` and the words of the octets right. The octets
/// have 0 in the checksum field.
pub fn sum_for(bytes: &[u8], extra: u32) -> u16
    ensures { result ≡ sums.checksum_for (extra + sums.word_sum bytes.now) }
{
    let total = total_sum(bytes, extra);
    if is_right(total) {
        0
    } else {
        65535 - (total % 65535) as u16
    }
}

// Returns whether a total is a positive multiple of 65,535.
fn is_right(total: u64) -> bool
    ensures { result ≡ sums.is_right total }
{
    total > 0 && total % 65535 == 0
}

// Returns the sum of `extra` and the words of the octets, up to multiples of 65,535. Adds numbers
// whose least significant octet is first, and multiplies their sum by 256 once: modulo 65,535 that
// swaps the two octets of each 16-bit word (RFC 1071 section 2).
fn total_sum(bytes: &[u8], extra: u32) -> u64
    ensures { sums_working.CountsAs result (extra + sums.word_sum bytes.now) }
{
    u64::from(extra) + 256 * sum_of_numbers(bytes)
}

// Returns the sum of the octets as numbers, least significant octet first, up to multiples of
// 65,535. Nearly each header of IPv4 has 20 octets, which take no other test of their length.
fn sum_of_numbers(bytes: &[u8]) -> u64
    ensures alike { sums_working.CountsAs (256 * result) (sums.word_sum bytes.now) }
    ensures small { result < 2 ^ 35 }
{
    if bytes.len() == 20 {
        sum_of_twenty(bytes)
    } else if bytes.len() < 8 {
        sum_of_few(bytes)
    } else {
        sum_of_many(bytes)
    }
}

// Returns the sum of 20 octets as 32-bit numbers.
fn sum_of_twenty(header: &[u8]) -> u64
    requires { length header.now ≡ 20 }
    ensures alike { sums_working.CountsAs (256 * result) (sums.word_sum header.now) }
    ensures small { result < 2 ^ 35 }
{
    let first = u64::from(lowest_first_at(header, 0)) + u64::from(lowest_first_at(header, 4));
    let second = u64::from(lowest_first_at(header, 8)) + u64::from(lowest_first_at(header, 12));
    first + second + u64::from(lowest_first_at(header, 16))
}

// Returns the sum of at most 7 octets as one number, up to multiples of 65,535. It is not inlined,
// since each longer sum would then save registers for the reading of the number.
#[cold]
#[inline(never)]
fn sum_of_few(bytes: &[u8]) -> u64
    requires { length bytes.now < 8 }
    ensures alike { sums_working.CountsAs (256 * result) (sums.word_sum bytes.now) }
    ensures small { result < 2 ^ 35 }
{
    if bytes.is_empty() {
        0
    } else {
        folded(u128::from(LittleEndian::read_uint(bytes, bytes.len())))
    }
}

// Returns the sum of at least 8 octets as 64-bit numbers, up to multiples of 65,535. Only blocks of
// 64 octets take a loop, so that a short packet takes none.
fn sum_of_many(bytes: &[u8]) -> u64
    requires { 8 ≤ length bytes.now }
    ensures alike { sums_working.CountsAs (256 * result) (sums.word_sum bytes.now) }
    ensures small { result < 2 ^ 35 }
{
    let sum = sum_by_eight(bytes);
    let at = 8 * (bytes.len() / 8);
    if at == bytes.len() {
        folded(sum)
    } else {
        folded(sum + u128::from(last_at(bytes, at)))
    }
}

// Returns the sum of all octets but the last 0 to 7 as 64-bit numbers.
fn sum_by_eight(bytes: &[u8]) -> u128
    ensures alike { sums_working.CountsUpTo (8 * (length bytes.now / 8)) result bytes.now }
    ensures small { result ≤ 18446744073709551615 * (length bytes.now / 8) }
{
    let sum = sum_by_sixteen(bytes);
    if bytes.len() % 16 < 8 {
        sum
    } else {
        sum + u128::from(eight_at(bytes, 16 * (bytes.len() / 16)))
    }
}

// Returns the sum of all octets but the last 0 to 15 as 64-bit numbers.
fn sum_by_sixteen(bytes: &[u8]) -> u128
    ensures alike { sums_working.CountsUpTo (16 * (length bytes.now / 16)) result bytes.now }
    ensures small { result ≤ 18446744073709551615 * (2 * (length bytes.now / 16)) }
{
    let sum = sum_by_half(bytes);
    if bytes.len() % 32 < 16 {
        sum
    } else {
        let at = 32 * (bytes.len() / 32);
        sum + u128::from(eight_at(bytes, at)) + u128::from(eight_at(bytes, at + 8))
    }
}

// Returns the sum of all octets but the last 0 to 31 as 64-bit numbers.
fn sum_by_half(bytes: &[u8]) -> u128
    ensures alike { sums_working.CountsUpTo (32 * (length bytes.now / 32)) result bytes.now }
    ensures small { result ≤ 18446744073709551615 * (4 * (length bytes.now / 32)) }
{
    let sum = sum_of_blocks(bytes);
    if bytes.len() % 64 < 32 {
        sum
    } else {
        with_half(sum, bytes, 64 * (bytes.len() / 64))
    }
}

// Returns the sum of all octets but the last 0 to 63 as 64-bit numbers. It is below 2^125 for each
// slice, so that no carry is folded on the way.
fn sum_of_blocks(bytes: &[u8]) -> u128
    ensures alike { sums_working.CountsUpTo (64 * (length bytes.now / 64)) result bytes.now }
    ensures small { result ≤ 18446744073709551615 * (8 * (length bytes.now / 64)) }
{
    let mut sum: u128 = 0;
    for i in 0..bytes.len() / 64 {
        let half = with_half(sum, bytes, 64 * i);
        sum = with_half(half, bytes, 64 * i + 32);
    }
    sum
}

// Returns the sum of `sum` and the half block at the offset `at`.
fn with_half(sum: u128, bytes: &[u8], at: usize) -> u128
    requires inside { at + 32 ≤ length bytes.now }
    requires room { sum < 2 ^ 127 }
    ensures alike { sums_working.CountsAs (256 * result + sums.word_sum (drop (at + 32) bytes.now)) (256 * sum + sums.word_sum (drop at bytes.now)) }
    ensures small { result ≤ sum + 18446744073709551615 * 4 }
{
    let first = sum + u128::from(eight_at(bytes, at)) + u128::from(eight_at(bytes, at + 8));
    first + u128::from(eight_at(bytes, at + 16)) + u128::from(eight_at(bytes, at + 24))
}

// Returns a sum with its carries folded in: adds the bits above the low 64 to these, and then those
// above the low 32.
fn folded(sum: u128) -> u64
    ensures alike { sums_working.CountsAs (256 * result) (256 * sum) }
    ensures small { result < 2 ^ 35 }
{
    let carried = (sum >> 64) + (sum & 0xffff_ffff_ffff_ffff);
    ((carried >> 32) + (carried & 0xffff_ffff)) as u64
}

// Returns the 32-bit number at the offset `at`, least significant octet first.
fn lowest_first_at(bytes: &[u8], at: usize) -> u32
    requires { at + 4 ≤ length bytes.now }
    ensures { result ≡ sums_working.lowest_first_at bytes.now at }
{
    LittleEndian::read_u32(&bytes[at..])
}

// Returns the 64-bit number at the offset `at`, least significant octet first.
fn eight_at(bytes: &[u8], at: usize) -> u64
    requires { at + 8 ≤ length bytes.now }
    ensures { result ≡ sums_working.eight_at bytes.now at }
{
    LittleEndian::read_u64(&bytes[at..])
}

// Returns the number in the 1 to 8 octets from the offset `at` to the end, least significant octet
// first. Reads the last 8 octets, so that it takes no branch on how many there are.
fn last_at(bytes: &[u8], at: usize) -> u64
    requires long { 8 ≤ length bytes.now }
    requires inside { at < length bytes.now }
    requires last { length bytes.now ≤ at + 8 }
    ensures { result ≡ sums_working.eight_at bytes.now at }
{
    let front = bytes.len() - 8;
    eight_at(bytes, front) >> (8 * (at - front))
}
