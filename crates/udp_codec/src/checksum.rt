//! The checksum of a UDP message.
ghost use Rattle.std.specs.Prelude.{◌≡◌, ◌<◌, ◌≤◌, true, length};
ghost use Rattle.wire_base.specs.Checksums.{sum_is_right};
ghost use Rattle.wire_base.specs.Udp as udp;
ghost use Rattle.udp_codec.specs.WrittenChecksum.{mended};

use wire_base::{put_u16, sum_for};

/// Offset of the checksum in a message, in octets.
const CHECKSUM: usize = 6;

/// Writes the right checksum into a message, with 65,535 instead of 0: a checksum of 0 means that
/// the sender made none (RFC 768). `pseudo` is the sum of the pseudo-header.
pub fn mend(bytes: &mut [u8], pseudo: u32)
    requires { 8 ≤ length bytes.old }
    ensures exact { bytes.new ≡ mended pseudo bytes.old }
    ensures right { sum_is_right bytes.new pseudo ≡ true }
    ensures made { 0 < udp.checksum bytes.new }
{
    put_u16(bytes, CHECKSUM, 0);
    let sum = sum_for(bytes, pseudo);
    put_u16(bytes, CHECKSUM, if sum == 0 { 65535 } else { sum });
}
