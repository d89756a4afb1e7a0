//! Connections that a capture does not begin.

use crate::line::{names, plus_if};
use crate::streams::StreamTable;
use edge_io::NoMemory;
use frame_view::{Flow, Ports, TcpMarks};
use indexmap::IndexMap;
use rule_book::{Entry, Rule};
use std::alloc::Global;
use wire_base::{FlowKey, Side};

/// The four-tuples of eras, and segments of connections without a beginning.
#[derive(Drop)]
pub(crate) struct Tuples {
    /// The last era of each four-tuple.
    eras: IndexMap<FlowKey, u32>,
    /// How many eras have begun.
    pub(crate) begun: u64,
    /// How many of them without SYN, of a new four-tuple.
    pub(crate) middle: u64,
    /// How many inbound segments have payload.
    pub(crate) inbound: u64,
    /// How many of them were replaced by a probe, of a new four-tuple.
    pub(crate) probed: u64,
    /// How many segments continue a connection whose last era was evicted.
    pub(crate) resumed: u64,
}

impl Tuples {
    /// Returns that nothing is known.
    pub(crate) fn new(alloc: Global) -> Tuples {
        Tuples {
            eras: IndexMap::new(alloc),
            begun: 0,
            middle: 0,
            inbound: 0,
            probed: 0,
            resumed: 0,
        }
    }

    /// Takes a segment with these marks.
    pub(crate) fn take(
        &mut self,
        entry: &Entry,
        flow: Flow,
        marks: TcpMarks,
        streams: &StreamTable,
    ) -> Result<(), NoMemory> {
        let (Some(side), Some(ports)) = (entry.side, flow.ports) else {
            return Ok(());
        };
        let key = key_of(side, flow, ports);
        let sends = side == Side::Inward && flow.length > 0;
        self.inbound = plus_if(sends, self.inbound);
        self.go_on(key, entry, marks, sends, streams);
        self.begin(key, entry.begun)
    }

    /// Returns the last era of a segment's four-tuple, and the side of the segment there. One
    /// without a side is tried as an inbound one first.
    pub(crate) fn last_era(&self, side: Option<Side>, flow: Flow) -> Option<(u32, Side)> {
        match side {
            Some(side) => self.era_at(side, flow),
            None => match self.era_at(Side::Inward, flow) {
                Some(found) => Some(found),
                None => self.era_at(Side::Outward, flow),
            },
        }
    }

    // Returns the last era of the four-tuple of a segment of this side, and the side.
    fn era_at(&self, side: Side, flow: Flow) -> Option<(u32, Side)> {
        let ports = flow.ports?;
        let era = self.last(key_of(side, flow, ports))?;
        Some((era, side))
    }

    // Takes a segment of this four-tuple, where it continues a connection. `sends` says whether it
    // is inbound and has payload.
    fn go_on(
        &mut self,
        key: FlowKey,
        entry: &Entry,
        marks: TcpMarks,
        sends: bool,
        streams: &StreamTable,
    ) {
        let middle = is_middle(entry, marks);
        let probed = is_probed(entry, marks);
        if !middle && !probed {
            return;
        }
        match self.last(key) {
            Some(era) => self.resumed = plus_if(streams.is_evicted(era), self.resumed),
            None => {
                self.middle = plus_if(middle, self.middle);
                self.probed = plus_if(probed && sends, self.probed);
            }
        }
    }

    // Makes this era, where one begins, the last one of a four-tuple.
    fn begin(&mut self, key: FlowKey, begun: Option<u32>) -> Result<(), NoMemory> {
        if let Some(era) = begun {
            self.eras.insert(key, era)?;
        }
        Ok(())
    }

    // Returns the last era of a four-tuple.
    fn last(&self, key: FlowKey) -> Option<u32> {
        self.eras.get(&key).copied()
    }
}

// Returns whether a segment begins an era without SYN.
fn is_middle(entry: &Entry, marks: TcpMarks) -> bool {
    entry.begun.is_some() && !marks.flags.syn()
}

// Returns whether a segment is replaced by a probe, is of no era and no RST.
fn is_probed(entry: &Entry, marks: TcpMarks) -> bool {
    let named = names(entry.rules.as_slice(), Rule::CProbe);
    named && entry.begun.is_none() && entry.era.is_none() && !marks.flags.rst()
}

// Returns the four-tuple of a segment of this side.
fn key_of(side: Side, flow: Flow, ports: Ports) -> FlowKey {
    match side {
        Side::Inward => FlowKey {
            outside: flow.src,
            outside_port: ports.src,
            inside: flow.dst,
            inside_port: ports.dst,
        },
        Side::Outward => FlowKey {
            outside: flow.dst,
            outside_port: ports.dst,
            inside: flow.src,
            inside_port: ports.src,
        },
    }
}
