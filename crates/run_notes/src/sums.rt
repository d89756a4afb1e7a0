//! Checksums that a stack leaves to the network card, and others that are wrong.
ghost use Rattle.frame_view.specs.FrameParts.{IsReadable};

use crate::BySide;
use crate::line::{is_fragment, names, number_at};
use frame_view::{Flow, message_in};
use rule_book::{Entry, Rule};
use wire_base::{Addr, protocol, pseudo_sum, u16_at, u32_at};

/// Packets, and those whose checksums are not right, by side.
#[derive(Clone, Copy, Debug, Default, PartialEq, Eq)]
pub(crate) struct Sums {
    /// IPv4 packets whose header can be read.
    pub(crate) packets: u64,
    /// Those that carry a segment or a UDP datagram and are no fragments.
    pub(crate) carried: BySide,
    /// Those whose checksum or total length is left to the network card.
    pub(crate) to_card: BySide,
    /// Those with a checksum that is wrong for another reason.
    pub(crate) wrong: BySide,
}

impl Sums {
    /// Returns that nothing is counted.
    pub(crate) fn new() -> Sums {
        Sums::default()
    }

    /// Counts the packet of a record.
    pub(crate) fn count(&mut self, entry: &Entry, flow: Flow, packet: &[u8])
        requires { IsReadable packet.now }
    {
        self.packets = self.packets.saturating_add(1);
        if is_fragment(flow) {
            return;
        }
        self.carried.add_if(is_carried(flow), entry.side);
        let rules = entry.rules.as_slice();
        if rules.is_empty() {
            return;
        }
        let left = is_left(rules, flow, packet);
        self.to_card.add_if(left, entry.side);
        self.wrong.add_if(is_wrong(rules, left), entry.side);
    }
}

// Returns whether the packet carries a segment or a UDP datagram.
fn is_carried(flow: Flow) -> bool {
    flow.protocol == protocol::TCP || flow.protocol == protocol::UDP
}

// Returns whether a checksum or the total length is left to the card.
fn is_left(rules: &[Rule], flow: Flow, packet: &[u8]) -> bool
    requires { IsReadable packet.now }
{
    let message = names_sum(rules) && flow.ports.is_some() && is_pseudo(packet);
    let header = names(rules, Rule::ISum) && u16_at(packet, 10) == 0;
    let total = names(rules, Rule::ILen) && u16_at(packet, 2) == 0;
    message || header || total
}

// Returns whether a checksum is wrong for another reason.
fn is_wrong(rules: &[Rule], left: bool) -> bool {
    let named = names_sum(rules) || names(rules, Rule::ISum);
    named && !left
}

// Returns whether the line says that the checksum of a message is wrong.
fn names_sum(rules: &[Rule]) -> bool {
    let segment = names(rules, Rule::TSum);
    let datagram = names(rules, Rule::USum);
    segment || datagram
}

// Returns whether the checksum field of a message has the folded sum of the pseudo header.
fn is_pseudo(packet: &[u8]) -> bool
    requires { IsReadable packet.now }
{
    let message = message_in(packet);
    let place = if packet[9] == protocol::TCP { 16 } else { 6 };
    let field = u64::from(number_at(message, place));
    let src = Addr(u32_at(packet, 12));
    let dst = Addr(u32_at(packet, 16));
    let sum = u64::from(pseudo_sum(src, dst, packet[9], 0)) + message.len() as u64;
    field > 0 && field % 65_535 == sum % 65_535
}
