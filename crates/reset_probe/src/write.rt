//! Writing of a probe.
ghost use Rattle.std.specs.Prelude.{◌≡◌, ◌≤◌, ◌<◌, ◌++◌, ℕ, length, drop, []};
ghost use Rattle.wire_base.specs.Plain.{Plain};
ghost use Rattle.tcp_codec.specs.WrittenSegment.{segment_of};
ghost use Rattle.reset_probe.specs.ProbePackets.{probe_octets, probe_segment};

use arrayvec::ArrayVec;
use era_state::Probe;
use ipv4_codec::{Ipv4, write_plain};
use tcp_codec::{SegmentParts, write_segment};
use wire_base::Flags;

// Octets of an IPv4 header and of a TCP header without options, and the flag ACK alone (RFC 791
// section 3.1, RFC 9293 section 3.1).
const HEADER: usize = 20;

const SEGMENT: u16 = 20;

const ACK: Flags = Flags(16);

/// Writes the packet of a probe between the addresses of `head` and these ports. Returns its length
/// in octets. 40 octets: an IPv4 header and a TCP header with ACK alone.
pub fn write_probe(head: &Ipv4, sport: u16, dport: u16, probe: &Probe, buf: &mut [u8]) -> usize
    requires room { 40 ≤ length buf.old }
    ensures exact { buf.new ≡ probe_octets head.now sport dport probe.now ++ drop 40 buf.old }
    ensures size { result ≡ 40 }
    ensures plain { (hops : ℕ) → head.now.protocol ≡ 6 → hops < head.now.ttl → Plain hops (probe_octets head.now sport dport probe.now) }
{
    let parts = probe_parts(head, sport, dport, probe);
    let (header, segment) = buf.split_at_mut(HEADER);
    let size = write_plain(head, SEGMENT, header);
    size + write_segment(&parts, &[], segment)
}

// Returns a segment with ACK alone, without options.
fn probe_parts(head: &Ipv4, sport: u16, dport: u16, probe: &Probe) -> SegmentParts
    ensures segment { segment_of result [] ≡ probe_segment head.now sport dport probe.now }
    ensures options { result.options.items ≡ [] }
    ensures flags { result.flags.0 ≡ 16 }
{
    SegmentParts {
        src: head.src,
        dst: head.dst,
        sport,
        dport,
        seq: probe.seq,
        ack: probe.ack,
        flags: ACK,
        window: probe.window,
        options: ArrayVec::new(),
    }
}
