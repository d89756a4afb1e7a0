//! All that is counted for the notes of a run.
ghost use Rattle.frame_view.specs.FrameParts.{IsReadable};

use crate::NotedLine;
use crate::early::EarlyDrops;
use crate::fragments::{Fragments, NumberCount, Numbered, count_number, listed};
use crate::hosts::{AddressCounts, Hosts};
use crate::kinds::KindCounts;
use crate::line::{is_drop, marks_of, names, plus_if};
use crate::streams::{SegmentSeen, StreamTable};
use crate::sums::Sums;
use crate::tuples::Tuples;
use crate::twins::Twins;
use edge_io::NoMemory;
use frame_view::{Flow, TcpMarks, ethertype_of, flow_of_packet, packet_of};
use indexmap::IndexMap;
use rule_book::{Entry, Rule};
use std::alloc::Global;

/// All that is counted for the notes of a run so far.
#[derive(Drop)]
pub struct Notes {
    /// The number of lines, each of a record.
    pub(crate) records: u64,
    pub(crate) sums: Sums,
    pub(crate) kinds: KindCounts,
    pub(crate) early: EarlyDrops,
    pub(crate) twins: Twins,
    pub(crate) streams: StreamTable,
    pub(crate) tuples: Tuples,
    fragments: Fragments,
    addresses: AddressCounts,
    /// EtherTypes that are not judged.
    types: Numbered,
    /// Protocols that are not judged.
    protocols: Numbered,
}

impl Notes {
    /// Returns that nothing is counted.
    pub fn new(alloc: Global) -> Notes {
        Notes {
            records: 0,
            sums: Sums::new(),
            kinds: KindCounts::new(),
            early: EarlyDrops::new(),
            twins: Twins::new(alloc),
            streams: StreamTable::new(alloc),
            tuples: Tuples::new(alloc),
            fragments: Fragments::new(alloc),
            addresses: AddressCounts::new(alloc),
            types: IndexMap::new(alloc),
            protocols: IndexMap::new(alloc),
        }
    }

    /// Counts one more line of the first engine. Fails only if memory cannot be allocated; what is
    /// counted then is out of date.
    pub fn take(&mut self, line: NotedLine<'_>) -> Result<(), NoMemory> {
        let packet = packet_of(line.link, line.octets);
        let flow = match packet {
            Some(packet) => Some(flow_of_packet(packet)),
            None => None,
        };
        self.take_entry(line, flow)?;
        match (flow, packet) {
            (Some(flow), Some(packet)) => self.take_packet(line.entry, flow, packet),
            _ => {
                self.twins.pass();
                Ok(())
            }
        }
    }

    /// Returns the number of fragments whose datagram was never complete.
    pub fn unfinished(&self) -> u64 {
        self.fragments.all
    }

    /// Returns the addresses of each side that most records have.
    pub fn hosts(&self, alloc: Global) -> Result<Hosts, NoMemory> {
        self.addresses.most(alloc)
    }

    /// Returns the EtherTypes that are not judged, in the order of first naming.
    pub fn types(&self, alloc: Global) -> Result<Vec<NumberCount>, NoMemory> {
        listed(alloc, &self.types)
    }

    /// Returns the protocols that are not judged, in the order of first naming.
    pub fn protocols(&self, alloc: Global) -> Result<Vec<NumberCount>, NoMemory> {
        listed(alloc, &self.protocols)
    }

    // Counts what a line says without its packet, of which the headers say this.
    fn take_entry(&mut self, line: NotedLine<'_>, flow: Option<Flow>) -> Result<(), NoMemory> {
        let entry = line.entry;
        self.records = self.records.saturating_add(1);
        self.kinds.count(line, flow);
        self.early.count(entry);
        self.tuples.begun = plus_if(entry.begun.is_some(), self.tuples.begun);
        self.streams.end_all(entry.ended.as_slice())?;
        if entry.rules.is_empty() {
            return Ok(());
        }
        count_number(&mut self.types, type_of(line))?;
        count_number(
            &mut self.protocols,
            protocol_of(entry.rules.as_slice(), flow),
        )
    }

    // Counts the packet of a line.
    fn take_packet(&mut self, entry: &Entry, flow: Flow, packet: &[u8]) -> Result<(), NoMemory>
        requires { IsReadable packet.now }
    {
        self.sums.count(entry, flow, packet);
        self.twins.take(flow, packet)?;
        self.addresses.take(entry.side, flow.src, flow.dst)?;
        if let Some(marks) = marks_of(flow) {
            self.tuples.take(entry, flow, marks, &self.streams)?;
            self.take_segment(entry, flow, marks, packet)?;
        }
        self.fragments.take(entry.rules.as_slice(), flow)
    }

    // Takes a segment to the streams of its era, or, if its line has none, to those of the last era
    // of its four-tuple.
    fn take_segment(
        &mut self,
        entry: &Entry,
        flow: Flow,
        marks: TcpMarks,
        packet: &[u8],
    ) -> Result<(), NoMemory>
        requires { IsReadable packet.now }
    {
        if marks.flags.rst() {
            return Ok(());
        }
        let found = match (entry.era, entry.side) {
            (Some(era), Some(side)) => Some((era, side)),
            (Some(_), None) => None,
            (None, side) => self.tuples.last_era(side, flow),
        };
        let Some((era, side)) = found else {
            return Ok(());
        };
        let covers_only = is_drop(entry.verdict) || entry.era.is_none();
        let rules = entry.rules.as_slice();
        let segment = SegmentSeen::of(rules, flow, marks, packet, covers_only);
        self.streams.take(era, side, segment)
    }
}

// Returns the EtherType of a record that is dropped for it.
fn type_of(line: NotedLine<'_>) -> Option<u32> {
    if !names(line.entry.rules.as_slice(), Rule::LType) {
        return None;
    }
    ethertype_of(line.link, line.octets).map(u32::from)
}

// Returns the protocol of a packet that is dropped for it.
fn protocol_of(rules: &[Rule], flow: Option<Flow>) -> Option<u32> {
    match flow {
        Some(flow) if names(rules, Rule::PProto) => Some(u32::from(flow.protocol)),
        _ => None,
    }
}
