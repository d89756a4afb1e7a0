//! Counts of lines by what they say of a capture as a whole.

use crate::layers::{Wrapped, Wrapping};
use crate::line::{is_multicast, marks_of, names, plus_if};
use crate::{BySide, NotedLine};
use frame_view::{Flow, TcpMarks};
use rule_book::{Entry, Rule};
use wire_base::Link;

/// Records that a larger table would have judged differently, by the option that sets its size.
#[derive(Clone, Copy, Debug, Default, PartialEq, Eq)]
pub struct Full {
    pub flows: u64,
    pub cells: u64,
    pub quota: u64,
    pub frags: u64,
    pub frag_cells: u64,
}

/// IPv4 packets that are dropped for what is between them and the Ethernet header.
#[derive(Clone, Copy, Debug, Default, PartialEq, Eq)]
pub struct Tagged {
    /// After VLAN tags.
    pub vlan: u64,
    /// In PPPoE.
    pub pppoe: u64,
    /// After MPLS labels.
    pub mpls: u64,
}

/// How many lines are of each kind.
#[derive(Clone, Copy, Debug, Default, PartialEq, Eq)]
pub(crate) struct KindCounts {
    /// Segments with ACK and neither SYN nor RST.
    pub(crate) answering: BySide,
    /// Packets to one host that belong to no side.
    pub(crate) foreign: u64,
    pub(crate) tagged: Tagged,
    /// Segments and UDP datagrams in IPv6.
    pub(crate) ipv6: u64,
    pub(crate) tunnels: u64,
    /// Lines by the option whose table was full.
    pub(crate) full: Full,
    /// Records that the capture has in part.
    pub(crate) cut: u64,
}

impl KindCounts {
    /// Returns that nothing is counted.
    pub(crate) fn new() -> KindCounts {
        KindCounts::default()
    }

    /// Counts a line, of which the headers of its packet say this.
    pub(crate) fn count(&mut self, line: NotedLine<'_>, flow: Option<Flow>) {
        let answering = is_answering(line.entry, flow);
        self.answering.add_if(answering, line.entry.side);
        if !line.entry.rules.is_empty() {
            self.count_rules(line, flow);
        }
    }

    // Counts the kinds that rules name.
    fn count_rules(&mut self, line: NotedLine<'_>, flow: Option<Flow>) {
        let rules = line.entry.rules.as_slice();
        let sideless = names(rules, Rule::ISide);
        let to_host = is_foreign(flow);
        self.foreign = plus_if(sideless && to_host, self.foreign);
        if is_of_type(line) {
            self.count_frame(line.octets);
        }
        let other = names(rules, Rule::PProto);
        let tunnelled = is_tunnelled(flow);
        self.tunnels = plus_if(other && tunnelled, self.tunnels);
        self.full.count(rules);
        self.cut = plus_if(names(rules, Rule::LSnap), self.cut);
    }

    // Counts an Ethernet frame whose type is not judged.
    fn count_frame(&mut self, frame: &[u8]) {
        let wrapped = Wrapped::of_frame(frame);
        if wrapped.is_ipv4() {
            self.tagged.count(wrapped.wrapping);
        }
        self.ipv6 = plus_if(wrapped.is_ipv6_to_host(frame), self.ipv6);
    }
}

impl Tagged {
    // Counts a packet after this.
    fn count(&mut self, wrapping: Wrapping) {
        match wrapping {
            Wrapping::Nothing => {}
            Wrapping::Vlan => self.vlan = self.vlan.saturating_add(1),
            Wrapping::Pppoe => self.pppoe = self.pppoe.saturating_add(1),
            Wrapping::Mpls => self.mpls = self.mpls.saturating_add(1),
        }
    }

    /// Returns the number of packets.
    pub(crate) fn all(self) -> u64 {
        self.vlan
            .saturating_add(self.pppoe)
            .saturating_add(self.mpls)
    }
}

impl Full {
    // Counts a line with these rules.
    fn count(&mut self, rules: &[Rule]) {
        self.flows = plus_if(names(rules, Rule::TFull), self.flows);
        self.cells = plus_if(names(rules, Rule::TRoom), self.cells);
        self.quota = plus_if(names(rules, Rule::TQuota), self.quota);
        self.frags = plus_if(names(rules, Rule::FMany), self.frags);
        self.frag_cells = plus_if(names(rules, Rule::FRoom), self.frag_cells);
    }

    /// Returns whether something is counted.
    pub(crate) fn is_any(self) -> bool {
        self.flows > 0 || self.cells > 0 || self.quota > 0 || self.frags > 0 || self.frag_cells > 0
    }
}

// Returns whether the packet goes neither to a group nor to an address that ends in 255.
fn is_foreign(flow: Option<Flow>) -> bool {
    flow.is_some_and(|flow| !is_multicast(flow) && flow.dst.0 % 256 != 255)
}

// Returns whether the packet is a tunnel to one host.
fn is_tunnelled(flow: Option<Flow>) -> bool {
    flow.is_some_and(|flow| is_tunnel(flow.protocol) && !is_multicast(flow))
}

fn is_tunnel(protocol: u8) -> bool {
    matches!(protocol, 4 | 41 | 47 | 50 | 51 | 132)
}

// Returns whether the line is of a segment with ACK and neither SYN nor RST, and has a side, or was
// dropped before its addresses were judged.
fn is_answering(entry: &Entry, flow: Option<Flow>) -> bool {
    flow.is_some_and(|flow| answers(marks_of(flow)) && has_side_or_fault(entry))
}

fn answers(tcp: Option<TcpMarks>) -> bool {
    tcp.is_some_and(|marks| marks.flags.ack() && !marks.flags.syn() && !marks.flags.rst())
}

fn has_side_or_fault(entry: &Entry) -> bool {
    match entry.side {
        Some(_) => true,
        None => !names(entry.rules.as_slice(), Rule::ISide),
    }
}

// Returns whether the type of an Ethernet frame is not judged.
fn is_of_type(line: NotedLine<'_>) -> bool {
    names(line.entry.rules.as_slice(), Rule::LType) && line.link == Link::Ethernet
}
