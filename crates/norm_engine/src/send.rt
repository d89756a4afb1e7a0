//! The frames written for a record that is not a segment, by its judgment.
ghost use Rattle.std.specs.Prelude.{◌≡◌, ◌+◌, ◌<◌, ◌≤◌, ◌^◌, true, ℕ, List, [], ◌∷◌, ◌++◌, length};
ghost use Rattle.ip_rules.specs.Datagrams.{datagram_with};
ghost use Rattle.dgram_rules.specs.RuleRows.{pseudo_of};
ghost use Rattle.udp_codec.specs.WrittenChecksum.{mended};
ghost use Rattle.tcp_codec.specs.declared.header.Tcp.{Tcp};
ghost use Rattle.norm_engine.specs.working.RecordJudgment.{judgment_of};
ghost use Rattle.norm_engine.specs.EngineState as spec;
ghost use Rattle.norm_engine.specs.working.EngineAnswers as working;
ghost use Rattle.wire_base.specs.declared.limits.TheConstants.{MAX_PAYLOAD};

use crate::judge::Decision;
use edge_io::Outbox;
use ip_rules::IpPacket;
use ip_rules::write::{head_sent, put_anew};
use udp_codec::mend;
use wire_base::{Link, link_octets, pseudo_sum};

/// Puts the frame of a record with this decision into the outbox, which is empty, or returns true
/// if the record is written as it was read: it is ARP, or no rule rewrites it.
#[inline(always)]
pub fn send(
    decision: Decision,
    packet: &IpPacket<'_>,
    hops: u8,
    link: Link,
    scratch: &mut [u8],
    out: &mut Outbox,
) -> bool
    requires empty { out.old ≡ [] }
    requires room { MAX_PAYLOAD ≤ length scratch.old }
    requires hops { hops ≤ 254 }
    requires fits { working.Fits packet.now decision }
    ensures as_read { (head : Tcp) → result ≡ working.is_as_read (judgment_of packet.now head decision) }
    ensures empty { result ≡ true → out.new ≡ [] }
    ensures frames { (head : Tcp) (octets : List ℕ) →
        spec.frames_given result octets out.new ≡ working.frames_for (judgment_of packet.now head decision) hops link octets }
{
    match decision {
        Decision::Arp => true,
        Decision::Drop(_, _) | Decision::Hold(_) | Decision::Segment => false,
        Decision::Send(_) if packet.fixes.is_empty() => true,
        Decision::Send(mend) => {
            send_mended(packet, mend, hops, link, scratch, out);
            false
        }
    }
}

// Puts a packet into the empty outbox, after its link octets and a rewritten header, with its UDP
// checksum corrected if `mend` is set.
fn send_mended(
    packet: &IpPacket<'_>,
    mend: bool,
    hops: u8,
    link: Link,
    scratch: &mut [u8],
    out: &mut Outbox,
)
    requires empty { out.old ≡ [] }
    requires room { MAX_PAYLOAD ≤ length scratch.old }
    requires hops { hops ≤ 254 }
    requires fits { length packet.now.payload.now ≤ MAX_PAYLOAD }
    requires whole { mend ≡ true → 8 ≤ length packet.now.payload.now }
    ensures { out.new ≡ working.frame_for packet.now mend hops link ∷ [] }
{
    let head = head_sent(packet, hops);
    let before = link_octets(link, packet.frame);
    if mend {
        let message = mended_in(packet, scratch);
        put_anew(before, &head, message, out);
    } else {
        put_anew(before, &head, packet.payload, out);
    }
}

// Returns the UDP message of a packet with its checksum corrected, copied to the scratch buffer.
fn mended_in<'a>(packet: &IpPacket<'_>, scratch: &'a mut [u8]) -> &'a [u8]
    requires room { MAX_PAYLOAD ≤ length scratch.old }
    requires fits { length packet.now.payload.now ≤ MAX_PAYLOAD }
    requires whole { 8 ≤ length packet.now.payload.now }
    ensures octets { result.now ≡ mended (pseudo_of (datagram_with [] packet.now)) packet.now.payload.now }
    ensures size { length result.now ≡ length packet.now.payload.now }
{
    let size = packet.payload.len();
    let pseudo = pseudo_sum(
        packet.head.src,
        packet.head.dst,
        packet.head.protocol,
        size as u16,
    );
    let message = &mut scratch[..size];
    message.copy_from_slice(packet.payload);
    mend(message, pseudo);
    message
}
