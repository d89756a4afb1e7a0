//! What an Ethernet frame has after a tag, a PPPoE header or labels.

use crate::line::{number_at, octet_at};

/// The EtherTypes of IPv4 and IPv6.
const IPV4: u16 = 0x0800;

const IPV6: u16 = 0x86dd;

/// What is between the Ethernet header and a packet.
#[derive(Clone, Copy, Debug, PartialEq, Eq)]
pub(crate) enum Wrapping {
    Nothing,
    /// One VLAN tag or two (IEEE 802.1Q).
    Vlan,
    /// A PPPoE session (RFC 2516).
    Pppoe,
    /// MPLS labels (RFC 3032).
    Mpls,
}

/// A packet in an Ethernet frame.
#[derive(Clone, Copy, Debug, PartialEq, Eq)]
pub(crate) struct Wrapped {
    pub(crate) wrapping: Wrapping,
    /// Its EtherType; 0 if it is neither IPv4 nor IPv6 after a PPPoE header or labels.
    kind: u16,
    /// Its offset in the frame.
    at: usize,
}

impl Wrapped {
    /// Returns what an Ethernet frame carries. Octets past its end read as 0.
    pub(crate) fn of_frame(frame: &[u8]) -> Wrapped {
        match number_at(frame, 12) {
            0x8100 | 0x88a8 => after_tags(frame),
            0x8864 => after_pppoe(frame),
            0x8847 => after_labels(frame),
            kind => packet_at(Wrapping::Nothing, kind, 14),
        }
    }

    /// Returns whether it is an IPv4 packet.
    pub(crate) fn is_ipv4(self) -> bool {
        self.kind == IPV4
    }

    /// Returns whether it is a segment or a UDP datagram in IPv6, to one host (RFC 8200).
    pub(crate) fn is_ipv6_to_host(self, frame: &[u8]) -> bool {
        let next = octet_at(frame, self.at.saturating_add(6));
        let destination = self.at.saturating_add(24);
        self.kind == IPV6
            && (next == 6 || next == 17)
            && frame.len() > destination
            && octet_at(frame, destination) != 255
    }
}

fn packet_at(wrapping: Wrapping, kind: u16, at: usize) -> Wrapped {
    Wrapped { wrapping, kind, at }
}

// Returns what follows one tag or two.
fn after_tags(frame: &[u8]) -> Wrapped {
    match number_at(frame, 16) {
        0x8100 | 0x88a8 => packet_at(Wrapping::Vlan, number_at(frame, 20), 22),
        kind => packet_at(Wrapping::Vlan, kind, 18),
    }
}

// Returns what follows a PPPoE header, by the number of its protocol.
fn after_pppoe(frame: &[u8]) -> Wrapped {
    let kind = match number_at(frame, 20) {
        0x0021 => IPV4,
        0x0057 => IPV6,
        _ => 0,
    };
    packet_at(Wrapping::Pppoe, kind, 22)
}

// Returns what follows at most four labels, by its version; the last label has its lowest bit set.
fn after_labels(frame: &[u8]) -> Wrapped {
    for label in 1..5usize {
        let at = 14 + 4 * label;
        if octet_at(frame, at - 2) % 2 == 1 {
            let kind = match octet_at(frame, at) / 16 {
                4 => IPV4,
                6 => IPV6,
                _ => 0,
            };
            return packet_at(Wrapping::Mpls, kind, at);
        }
    }
    packet_at(Wrapping::Mpls, 0, 14)
}
