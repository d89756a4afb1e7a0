//! Which record first sent an octet: of the stream of an era, and of a datagram in fragments.
ghost use Rattle.frame_view.specs.FrameParts.{IsReadable};

use crate::NotedLine;
use crate::fragments::{datagram_of, is_completing};
use crate::held::{Clash, Held};
use crate::line::{is_drop, is_fragment, marks_of, names};
use edge_io::NoMemory;
use frame_view::{
    Change, Flow, Made, PayloadChange, TcpMarks, flow_of_packet, message_in, packet_of,
};
use indexmap::IndexMap;
use rule_book::{Ended, Entry, Rule};
use std::alloc::Global;
use wire_base::{Side, sequence_distance, sequence_plus};

// 2^31: a sequence number that is fewer octets ahead of another is after it.
const HALF_TURN: u64 = 1 << 31;

/// Octets of a stream that a record sent.
#[derive(Clone, Copy, Debug)]
struct Span {
    /// The sequence number of the first of them.
    start: u32,
    length: u64,
    record: u32,
}

/// The octets that were sent inwards in the eras of one engine. They are forgotten once they are
/// acknowledged, since none is replaced then, and when the era ends.
#[derive(Drop)]
struct Sent {
    eras: IndexMap<u32, Vec<Span>>,
}

/// The newest record.
#[derive(Clone, Copy, Debug)]
struct Newest {
    number: u32,
    /// The marks of its segment, and the number of octets of its payload.
    marks: Option<TcpMarks>,
    length: u64,
    /// Its era of the first engine, if it is inbound.
    era: Option<u32>,
}

/// The records that first sent the octets of each era and of each datagram so far.
#[derive(Drop)]
pub struct Firsts {
    first: Sent,
    second: Sent,
    held: Held,
    newest: Option<Newest>,
}

impl Sent {
    // Forgets the eras that ended.
    fn end_all(&mut self, ended: &[Ended]) {
        for one in ended {
            let _spans = self.eras.swap_remove(&one.era);
        }
    }

    // Forgets what an outbound segment acknowledges.
    fn acknowledge(&mut self, entry: &Entry, marks: Option<TcpMarks>) {
        let (Some(era), Some(Side::Outward), Some(marks)) = (entry.era, entry.side, marks) else {
            return;
        };
        if is_drop(entry.verdict) || !marks.flags.ack() {
            return;
        }
        if let Some(spans) = self.eras.get_mut(&era) {
            spans.retain(|span| !ends_by(*span, marks.ack));
        }
    }

    // Returns the first record but the newest that sent the octet with this sequence number.
    fn first_of(&self, era: u32, number: u32, newest: u32) -> Option<u32> {
        let spans = self.eras.get(&era)?;
        for span in spans {
            if span.record != newest && sequence_distance(span.start, number) < span.length {
                return Some(span.record);
            }
        }
        None
    }

    // Adds octets to those of an era, if there are an era and some octets.
    fn add(&mut self, alloc: Global, era: Option<u32>, span: Span) -> Result<(), NoMemory> {
        let (Some(era), true) = (era, span.length > 0) else {
            return Ok(());
        };
        self.eras
            .entry(era)?
            .or_insert_with(|| Vec::new(alloc))
            .push(span)?;
        Ok(())
    }
}

impl Firsts {
    /// Returns that nothing was sent.
    pub fn new(alloc: Global) -> Firsts {
        Firsts {
            first: Sent {
                eras: IndexMap::new(alloc),
            },
            second: Sent {
                eras: IndexMap::new(alloc),
            },
            held: Held::new(alloc),
            newest: None,
        }
    }

    /// Takes the next line of the first engine. Returns the first octets of a fragment that differ
    /// from those held, where the line names F_CLASH and they are known.
    pub fn take(&mut self, alloc: Global, line: NotedLine<'_>) -> Result<Option<Clash>, NoMemory> {
        self.newest = None;
        self.first.end_all(line.entry.ended.as_slice());
        let Some(packet) = packet_of(line.link, line.octets) else {
            return Ok(None);
        };
        let flow = flow_of_packet(packet);
        let marks = marks_of(flow);
        self.first.acknowledge(line.entry, marks);
        self.newest = Some(Newest {
            number: line.entry.number,
            marks,
            length: flow.length,
            era: inbound_era(line.entry),
        });
        self.take_fragment(alloc, line.entry, flow, packet)
    }

    /// Takes the frames in OUT of a line of the newest record, by the first engine alone or by the
    /// second of two, with what differs in them. Returns for each run of replaced octets the record
    /// that first sent the first of them, where it is known.
    pub fn wrote(
        &mut self,
        alloc: Global,
        second: bool,
        entry: &Entry,
        changes: &[Change],
    ) -> Result<Vec<Option<u32>>, NoMemory> {
        let mut firsts = Vec::new(alloc);
        let Some(newest) = self.newest else {
            return Ok(firsts);
        };
        if second {
            self.second.end_all(entry.ended.as_slice());
            self.second.acknowledge(entry, newest.marks);
        }
        let own = if second { inbound_era(entry) } else { None };
        for change in changes {
            if let Change::InPayload { payload, .. } = change {
                self.add_firsts(newest, own, payload, &mut firsts)?;
            }
        }
        self.add_written(alloc, newest, own, entry.packets, changes)?;
        Ok(firsts)
    }

    // Adds for each run of replaced octets the record that first sent the first of them, in an era
    // of the second engine or in that of the first.
    fn add_firsts(
        &self,
        newest: Newest,
        own: Option<u32>,
        payload: &PayloadChange,
        firsts: &mut Vec<Option<u32>>,
    ) -> Result<(), NoMemory> {
        for run in payload.replaced.as_slice() {
            firsts.push(self.first_of(newest, own, run.at as u64))?;
        }
        Ok(())
    }

    // Returns the record that first sent the octet at an offset of the newest record's payload.
    fn first_of(&self, newest: Newest, own: Option<u32>, at: u64) -> Option<u32> {
        let number = sequence_plus(start_of(newest.marks?), at);
        match own {
            Some(era) => self.second.first_of(era, number, newest.number),
            None => self.first.first_of(newest.era?, number, newest.number),
        }
    }

    // Adds the octets of the frames of a line.
    fn add_written(
        &mut self,
        alloc: Global,
        newest: Newest,
        own: Option<u32>,
        frames: u8,
        changes: &[Change],
    ) -> Result<(), NoMemory> {
        if let Some(span) = written_span(newest, frames, changes) {
            self.first.add(alloc, newest.era, span)?;
            self.second.add(alloc, own, span)?;
        }
        for change in changes {
            if let Some(span) = datagram_span(newest.number, change) {
                self.first.add(alloc, newest.era, span)?;
                self.second.add(alloc, own, span)?;
            }
        }
        Ok(())
    }

    // Takes the packet of a line, where it is a fragment.
    fn take_fragment(
        &mut self,
        alloc: Global,
        entry: &Entry,
        flow: Flow,
        packet: &[u8],
    ) -> Result<Option<Clash>, NoMemory>
        requires { IsReadable packet.now }
    {
        let rules = entry.rules.as_slice();
        if !is_fragment(flow) {
            return Ok(None);
        }
        let (key, at) = (datagram_of(flow), usize::from(flow.offset));
        let octets = message_in(packet);
        if names(rules, Rule::FHeld) {
            self.held.hold(alloc, key, entry.number, at, octets)?;
            return Ok(None);
        }
        if names(rules, Rule::FClash) {
            let clash = self.held.clash(alloc, key, at, octets)?;
            self.held.forget(key);
            return Ok(clash);
        }
        if names(rules, Rule::FEnd) || is_completing(rules) {
            self.held.forget(key);
        }
        Ok(None)
    }
}

// Returns the era of an inbound line.
fn inbound_era(entry: &Entry) -> Option<u32> {
    match entry.side {
        Some(Side::Inward) => entry.era,
        _ => None,
    }
}

// Returns the sequence number of the first octet of a segment's payload.
fn start_of(marks: TcpMarks) -> u32 {
    sequence_plus(marks.seq, if marks.flags.syn() { 1 } else { 0 })
}

// Returns whether octets end at or before a sequence number.
fn ends_by(span: Span, number: u32) -> bool {
    sequence_distance(sequence_plus(span.start, span.length), number) < HALF_TURN
}

// Returns the octets of the newest record up to the last one that one of `frames` frames has, which
// differ from the record by these changes.
fn written_span(newest: Newest, frames: u8, changes: &[Change]) -> Option<Span> {
    let mut length = 0;
    let mut changed = 0u64;
    for change in changes {
        match change {
            Change::InPayload { payload, .. } => {
                let end = payload.end.len() as u64;
                length = newest.length.saturating_sub(end).max(length);
                changed = changed.saturating_add(1);
            }
            Change::Made { .. } => changed = changed.saturating_add(1),
            Change::InField { .. } => {}
        }
    }
    if changed < u64::from(frames) {
        length = newest.length;
    }
    Some(Span {
        start: start_of(newest.marks?),
        length,
        record: newest.number,
    })
}

// Returns the octets of a segment that fragments were reassembled into.
fn datagram_span(record: u32, change: &Change) -> Option<Span> {
    match change {
        Change::Made {
            kind: Made::Datagram,
            flow: Some(flow),
            length,
            ..
        } => Some(Span {
            start: start_of(flow.tcp?),
            length: *length,
            record,
        }),
        _ => None,
    }
}
