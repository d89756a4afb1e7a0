//! Headers without options, written.
ghost use Rattle.std.specs.Prelude.{◌≡◌, ◌+◌, ◌≤◌, ◌++◌, true, length, drop};
ghost use Rattle.ipv4_codec.specs.HeaderFields.{fields_of};
ghost use Rattle.ipv4_codec.specs.WrittenHeader.{octets_of, plain_fields, plain_header};
ghost use Rattle.wire_base.specs.Ipv4 as ip;
ghost use Rattle.wire_base.specs.Checksums.{sum_is_right};
ghost use Rattle.wire_base.specs.declared.limits.TheConstants.{MAX_PAYLOAD};

use crate::Ipv4;
use wire_base::{put_u16, sum_for};

// Length of a header without options in octets.
const HEADER: usize = 20;

/// Writes the header of a packet that is no fragment and has `payload` octets after its header.
/// Type of service, identification, don't fragment, time to live, protocol and addresses are those
/// of `head`. No other flag is set, the offset is 0, there are no options, and the checksum is
/// right (RFC 791 section 3.1). Returns the header's length in octets.
pub fn write_plain(head: &Ipv4, payload: u16, buf: &mut [u8]) -> usize
    requires payload { payload ≤ MAX_PAYLOAD }
    requires room { 20 ≤ length buf.old }
    ensures exact { buf.new ≡ plain_header head.now payload ++ drop 20 buf.old }
    ensures size { result ≡ 20 }
    ensures version { ip.version buf.new ≡ 4 }
    ensures fields { fields_of buf.new ≡ plain_fields head.now payload (ip.header_checksum buf.new) }
    ensures sum { sum_is_right (ip.header buf.new) 0 ≡ true }
{
    let mut header = without_sum(head, payload);
    let sum = sum_for(&header, 0);
    put_u16(&mut header, 10, sum);
    buf[..HEADER].copy_from_slice(&header);
    HEADER
}

// Returns the header with 0 in its checksum field.
fn without_sum(head: &Ipv4, payload: u16) -> [u8; 20]
    requires { payload ≤ MAX_PAYLOAD }
    ensures exact { result ≡ octets_of head.now (20 + payload) 0 }
    ensures fields { fields_of result ≡ plain_fields head.now payload 0 }
{
    let [total_high, total_low] = (20 + payload).to_be_bytes();
    let [ident_high, ident_low] = head.ident.to_be_bytes();
    let flags = if head.df { 0x40 } else { 0 };
    let [a, b, c, d] = head.src.0.to_be_bytes();
    let [e, f, g, h] = head.dst.0.to_be_bytes();
    [
        0x45,
        head.tos,
        total_high,
        total_low,
        ident_high,
        ident_low,
        flags,
        0,
        head.ttl,
        head.protocol,
        0,
        0,
        a,
        b,
        c,
        d,
        e,
        f,
        g,
        h,
    ]
}
