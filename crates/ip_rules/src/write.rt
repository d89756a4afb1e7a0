//! Frames written to the outbox: as they were read, or with a new header (RFC 791 section 3.1).
ghost use Rattle.std.specs.Prelude.{◌≡◌, ◌+◌, ◌≤◌, ◌<◌, [], ◌∷◌, ◌++◌, length};
ghost use Rattle.ipv4_codec.specs.WrittenHeader.{plain_header};
ghost use Rattle.ip_rules.specs.Datagrams as spec;
ghost use Rattle.wire_base.specs.declared.limits.TheConstants.{MAX_FRAME, MAX_LINK, MAX_PAYLOAD};

use crate::rows::IpPacket;
use edge_io::Outbox;
use ipv4_codec::{Ipv4, write_plain};
use wire_base::Side;

/// Returns the header of a datagram as it is written: an inbound one whose TTL does not pass `hops`
/// routers gets a TTL of `hops` + 1.
pub fn head_sent(packet: &IpPacket<'_>, hops: u8) -> Ipv4
    requires { hops ≤ 254 }
    ensures { result ≡ spec.head_at packet.now.side hops packet.now.head }
{
    match packet.side {
        Side::Inward => raised(&packet.head, hops),
        Side::Outward => packet.head,
    }
}

/// Returns the header with a TTL that passes `hops` routers.
pub fn raised(head: &Ipv4, hops: u8) -> Ipv4
    requires { hops ≤ 254 }
    ensures { result ≡ spec.raised hops head.now }
{
    let mut head = *head;
    head.ttl = head.ttl.max(hops + 1);
    head
}

/// Writes a frame as it was read to the empty outbox.
pub fn put_read(frame: &[u8], out: &mut Outbox)
    requires empty { out.old ≡ [] }
    requires short { length frame.now ≤ MAX_FRAME }
    ensures { out.new ≡ frame.now ∷ [] }
{
    out.begin();
    out.append(frame);
}

/// Writes a packet with a new header, after these link octets, to the empty outbox.
pub fn put_anew(link: &[u8], head: &Ipv4, octets: &[u8], out: &mut Outbox)
    requires empty { out.old ≡ [] }
    requires link { length link.now ≤ MAX_LINK }
    requires short { length octets.now ≤ MAX_PAYLOAD }
    ensures { out.new ≡ (link.now ++ plain_header head.now (length octets.now) ++ octets.now) ∷ [] }
{
    let mut header = [0u8; 20];
    write_plain(head, octets.len() as u16, &mut header);
    begin_after(link, out);
    out.append(&header);
    out.append(octets);
}

// Begins a frame after these link octets, in the empty outbox. Raw IP has no link octets.
fn begin_after(link: &[u8], out: &mut Outbox)
    requires empty { out.old ≡ [] }
    requires link { length link.now ≤ MAX_LINK }
    ensures { out.new ≡ link.now ∷ [] }
{
    out.begin();
    if !link.is_empty() {
        out.append(link);
    }
}
