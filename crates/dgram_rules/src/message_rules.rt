//! The rules on UDP and ICMP, in the order of their numbers.
ghost use Rattle.std.specs.Prelude.{◌≡◌, ◌≤◌, ◌&&◌, not, ℕ, List, All, false, length};
ghost use Rattle.wire_base.specs.Udp as udp;
ghost use Rattle.wire_base.specs.Checksums.{pseudo_sum};
ghost use Rattle.norm_settings.specs.SettingValues.{plain_settings};
ghost use Rattle.icmp_codec.specs.QuotedPacket.{quoted_in};
ghost use Rattle.ip_rules.specs.Datagrams.{datagram_with, goes_in};
ghost use Rattle.dgram_rules.specs.RuleRows as table;
ghost use Rattle.dgram_rules.specs.JudgedDatagram as spec;

use crate::judged::DgramJudged;
use icmp_codec::{IcmpFault, quoted};
use ip_rules::IpPacket;
use ipv4_codec::Ipv4;
use norm_settings::{Settings, side_of};
use rule_book::Rule;
use udp_codec::UdpFault;
use wire_base::{Side, protocol, pseudo_sum};

/// Judges a packet that carries UDP by the first rule that holds; returns `Mend` if that is
/// U_SUM_OUT. Rules 23 to 25 and 47.
#[inline(never)]
pub fn judge_udp(settings: &Settings, packet: &IpPacket<'_>) -> DgramJudged
    ensures { (header : List ℕ) → result ≡ spec.udp_judged (plain_settings settings.now) (datagram_with header packet.now) }
{
    let pseudo = pseudo_of(&packet.head, packet.payload);
    let offloaded = is_offloaded(settings, packet);
    match udp_codec::parse(packet.payload, pseudo) {
        Ok(_) => DgramJudged::Pass,
        Err(UdpFault::Short) => DgramJudged::Drop(Rule::UShort),
        Err(UdpFault::Length) => DgramJudged::Drop(Rule::ULen),
        Err(UdpFault::Sum) if offloaded => DgramJudged::Mend,
        Err(UdpFault::Sum) => DgramJudged::Drop(Rule::USum),
    }
}

// Returns the sum of the pseudo-header. A message longer than the length field can state is dropped
// by U_LEN, so its sum does not matter.
fn pseudo_of(head: &Ipv4, message: &[u8]) -> u32
    ensures { udp.has_other_length message.now ≡ false → result ≡ pseudo_sum head.now.src.0 head.now.dst.0 head.now.protocol (length message.now) }
{
    let size = u16::try_from(message.len()).unwrap_or(u16::MAX);
    pseudo_sum(head.src, head.dst, head.protocol, size)
}

// Returns whether the packet is outbound and its sender leaves checksums to its network card.
fn is_offloaded(settings: &Settings, packet: &IpPacket<'_>) -> bool
    ensures { result ≡ (not (goes_in packet.now.side) && settings.now.offload) }
{
    match packet.side {
        Side::Outward => settings.offload,
        Side::Inward => false,
    }
}

/// Judges a packet that carries ICMP by the first rule that holds. `live` says whether an era is
/// live for the TCP connection that it quotes. Rules 26 to 29.
#[inline(never)]
pub fn judge_icmp(settings: &Settings, packet: &IpPacket<'_>, live: bool) -> DgramJudged
    requires prefixes { All (λ prefix. prefix.len ≤ 32) settings.now.prefixes.items }
    ensures { (header : List ℕ) → result ≡ spec.icmp_judged (plain_settings settings.now) live (datagram_with header packet.now) }
{
    let head = match icmp_codec::parse(packet.payload) {
        Ok(head) => head,
        Err(IcmpFault::Short) => return DgramJudged::Drop(Rule::MShort),
        Err(IcmpFault::Sum) => return DgramJudged::Drop(Rule::MSum),
    };
    match head.kind {
        0 | 8 | 13 | 14 => DgramJudged::Pass,
        3 | 11 | 12 if packet.side == Side::Inward && is_stray(settings, packet.payload, live) => {
            DgramJudged::Drop(Rule::MQuote)
        }
        3 | 11 | 12 => DgramJudged::Pass,
        _ => DgramJudged::Drop(Rule::MType),
    }
}

// Returns whether an error does not quote a packet that went outwards.
fn is_stray(settings: &Settings, message: &[u8], live: bool) -> bool
    requires { All (λ prefix. prefix.len ≤ 32) settings.now.prefixes.items }
    ensures { result ≡ table.is_stray (plain_settings settings.now) live (quoted_in message.now) }
{
    let Some(quote) = quoted(message) else {
        return true;
    };
    let outward = side_of(settings, quote.src, quote.dst) == Some(Side::Outward);
    !outward || quote.protocol == protocol::TCP && !live
}
