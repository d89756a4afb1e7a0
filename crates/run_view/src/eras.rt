//! The table of the eras that a run names.

use crate::chosen::is_among;
use edge_io::NoMemory;
use frame_view::{Flow, Ports};
use indexmap::IndexMap;
use rule_book::{Ended, Rule};
use std::alloc::Global;
use view_text::Opened;
use wire_base::Side;

/// What is known of an era.
#[derive(Drop)]
pub(crate) struct EraRow {
    /// The packet that began it, turned so that its source is the outside host.
    pub(crate) flow: Option<Flow>,
    /// How that packet opened it.
    pub(crate) opened: Option<Opened>,
    /// The times of its first and its last record, in nanoseconds since 1970.
    pub(crate) first: u64,
    pub(crate) last: u64,
    /// How many records belong to it.
    pub(crate) records: u64,
    /// How many octets were sent inwards in it, each copy counted.
    pub(crate) sent: u64,
    /// How it ended, with the report's number of octets.
    pub(crate) ended: Option<Ended>,
    /// The rules that its entries name, in the order in which they are named first.
    pub(crate) rules: Vec<Rule>,
}

/// By the number of an era, what is known of it, in the order in which they are named first.
pub(crate) type Eras = IndexMap<u32, EraRow>;

/// A record of an era.
#[derive(Clone, Copy)]
pub(crate) struct Told<'a> {
    /// Nanoseconds since 1970.
    pub(crate) time: u64,
    /// How many octets went inwards with it.
    pub(crate) octets: u64,
    pub(crate) rules: &'a [Rule],
}

impl EraRow {
    // Returns the row of an era of which nothing is known.
    fn new(alloc: Global) -> EraRow {
        EraRow {
            flow: None,
            opened: None,
            first: 0,
            last: 0,
            records: 0,
            sent: 0,
            ended: None,
            rules: Vec::new(alloc),
        }
    }

    // Adds a record.
    fn add(&mut self, told: Told<'_>) -> Result<(), NoMemory> {
        add_rules(&mut self.rules, told.rules)?;
        if self.records == 0 {
            self.first = told.time;
        }
        self.last = told.time;
        self.records = self.records.saturating_add(1);
        self.sent = self.sent.saturating_add(told.octets);
        Ok(())
    }
}

// Adds each rule that is not among them.
fn add_rules(rules: &mut Vec<Rule>, more: &[Rule]) -> Result<(), NoMemory> {
    for rule in more {
        if !is_among(rules.as_slice(), rule.number()) {
            rules.push(*rule)?;
        }
    }
    Ok(())
}

/// Adds a record to an era.
pub(crate) fn add_record(
    alloc: Global,
    eras: &mut Eras,
    era: Option<u32>,
    told: Told<'_>,
) -> Result<(), NoMemory> {
    let Some(era) = era else {
        return Ok(());
    };
    let row = eras.entry(era)?.or_insert_with(|| EraRow::new(alloc));
    row.add(told)
}

/// Notes the packet that began an era, which came from outside or not.
pub(crate) fn begin(
    alloc: Global,
    eras: &mut Eras,
    era: Option<u32>,
    outside: bool,
    flow: Option<Flow>,
) -> Result<(), NoMemory> {
    let Some(era) = era else {
        return Ok(());
    };
    let row = eras.entry(era)?.or_insert_with(|| EraRow::new(alloc));
    row.flow = outside_first(outside, flow);
    row.opened = Some(opened_by(outside, flow));
    Ok(())
}

/// Returns whether a packet went from the outside of the network to its inside, by the side that an
/// engine says.
pub(crate) fn from_outside(second: bool, side: Option<Side>) -> bool {
    match side {
        Some(Side::Inward) => !second,
        Some(Side::Outward) => second,
        None => false,
    }
}

// Returns a packet with the outside host as its source.
fn outside_first(outside: bool, flow: Option<Flow>) -> Option<Flow> {
    if outside { flow } else { flow.map(turned) }
}

// Returns a packet with source and destination exchanged.
fn turned(flow: Flow) -> Flow {
    Flow {
        src: flow.dst,
        dst: flow.src,
        ports: flow.ports.map(turned_ports),
        ..flow
    }
}

fn turned_ports(ports: Ports) -> Ports {
    Ports {
        src: ports.dst,
        dst: ports.src,
    }
}

// Returns how a packet opens an era.
fn opened_by(outside: bool, flow: Option<Flow>) -> Opened {
    if !is_opening(flow) {
        Opened::Mid
    } else if outside {
        Opened::In
    } else {
        Opened::Out
    }
}

// Returns whether a packet is a segment with SYN and without ACK.
fn is_opening(flow: Option<Flow>) -> bool {
    flow.and_then(|flow| flow.tcp)
        .is_some_and(|marks| marks.flags.syn() && !marks.flags.ack())
}

/// Adds octets that were sent inwards in an era.
pub(crate) fn bring(
    alloc: Global,
    eras: &mut Eras,
    era: Option<u32>,
    octets: u64,
) -> Result<(), NoMemory> {
    let Some(era) = era else {
        return Ok(());
    };
    let row = eras.entry(era)?.or_insert_with(|| EraRow::new(alloc));
    row.sent = row.sent.saturating_add(octets);
    Ok(())
}

/// Notes the eras that ended.
pub(crate) fn end_all(alloc: Global, eras: &mut Eras, ended: &[Ended]) -> Result<(), NoMemory> {
    for one in ended {
        let row = eras.entry(one.era)?.or_insert_with(|| EraRow::new(alloc));
        row.ended = Some(*one);
    }
    Ok(())
}
