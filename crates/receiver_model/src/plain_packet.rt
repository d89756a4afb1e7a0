//! Packets that every host of the family reads alike.
ghost use Rattle.std.specs.Prelude.{◌≡◌, ◌↔◌, ◌<◌, ◌≤◌, ℕ, List, true, length, IfNone, IfSome, IsTrue};
ghost use Rattle.ipv4_codec.specs.HeaderFields.{fields_of};
ghost use Rattle.wire_base.specs.Ipv4 as ip;
ghost use Rattle.wire_base.specs.Options.{are_well_formed, cleaned};
ghost use Rattle.wire_base.specs.Plain.{IsPlainHeader, IsPlainIcmp, IsPlainMessage, IsPlainTcp, IsPlainUdp, Plain, pseudo_of};
ghost use Rattle.receiver_model.specs.working.FieldTests as test;

use ipv4_codec::Ipv4;
use tcp_codec::{SumRule, Tcp, clean_options};
use wire_base::{protocol, pseudo_sum};

// Octets of a header without options, of IP and of TCP (RFC 791 section 3.1, RFC 9293 section 3.1),
// and the greatest number of octets of TCP options.
const HEADER: usize = 20;

const OPTIONS: usize = 40;

/// Returns whether each host behind at most `hops` routers receives this packet and reads it by its
/// fields (this project's profile).
pub fn plain(hops: u8, bytes: &[u8]) -> bool
    ensures { IsTrue result ↔ Plain hops bytes.now }
{
    match plain_header(bytes) {
        Some(head) => {
            let message = is_plain_message(&head, bytes);
            hops < head.ttl && message
        }
        None => false,
    }
}

// Returns the header of a packet, if it is plain.
fn plain_header(bytes: &[u8]) -> Option<Ipv4>
    ensures fields { IfSome result (λ head. head ≡ fields_of bytes.now) }
    ensures some { IfSome result (λ head. IsPlainHeader bytes.now) }
    ensures none { IfNone result (IsPlainHeader bytes.now → ⊥) }
{
    match ipv4_codec::parse(bytes) {
        Ok(head) if is_whole(&head, bytes.len()) => Some(head),
        _ => None,
    }
}

// Returns whether a packet of `len` octets has no options, no octet after its total length, a clear
// reserved flag, and is not a fragment.
fn is_whole(head: &Ipv4, len: usize) -> bool
    ensures { result ≡ test.is_whole head.now len }
{
    head.header == HEADER
        && usize::from(head.total) == len
        && !head.reserved
        && !head.more
        && head.offset == 0
}

// Returns whether the message after a plain header is plain.
fn is_plain_message(head: &Ipv4, bytes: &[u8]) -> bool
    requires header { IsPlainHeader bytes.now }
    requires fields { head.now ≡ fields_of bytes.now }
    ensures { IsTrue result ↔ IsPlainMessage bytes.now }
{
    let message = &bytes[HEADER..];
    let pseudo = pseudo_sum(head.src, head.dst, head.protocol, message.len() as u16);
    match head.protocol {
        protocol::ICMP => icmp_codec::parse(message).is_ok(),
        protocol::TCP => is_plain_tcp(message, pseudo),
        protocol::UDP => udp_codec::parse(message, pseudo).is_ok(),
        _ => false,
    }
}

// Returns whether a segment is plain; `pseudo` is the sum of its pseudo-header.
fn is_plain_tcp(message: &[u8], pseudo: u32) -> bool
    ensures { (p : List ℕ) → ip.payload p ≡ message.now → pseudo_of p ≡ pseudo → IsTrue result ↔ IsPlainTcp p }
{
    match tcp_codec::parse(message, pseudo, SumRule::Must) {
        Ok(head) => {
            let clean = is_clean(&message[HEADER..head.header], head.flags.syn());
            let bare = is_bare(&head, message.len());
            clean && bare
        }
        Err(_) => false,
    }
}

// Returns whether a segment of `len` octets has clear reserved bits, no URG, urgent pointer 0, and
// no octets on SYN or RST.
fn is_bare(head: &Tcp, len: usize) -> bool
    ensures { result ≡ test.is_bare head.now len }
{
    let empty = !(head.flags.syn() || head.flags.rst()) || head.header == len;
    head.reserved == 0 && !head.flags.urg() && head.urgent == 0 && empty
}

// Returns whether cleaning leaves the options unchanged.
fn is_clean(options: &[u8], syn: bool) -> bool
    requires room { length options.now ≤ 40 }
    requires formed { are_well_formed options.now ≡ true }
    ensures { IsTrue result ↔ (cleaned syn options.now ≡ options.now) }
{
    let mut area = [0; OPTIONS];
    let area = &mut area[..options.len()];
    area.copy_from_slice(options);
    !clean_options(area, syn)
}
