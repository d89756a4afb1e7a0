//! What is known of the streams of each era.
ghost use Rattle.std.specs.Prelude.{◌<◌, ◌^◌};
ghost use Rattle.frame_view.specs.FrameParts.{IsReadable};

use crate::BySide;
use crate::coverage::{Coverage, Run};
use crate::line::names;
use edge_io::NoMemory;
use frame_view::{Flow, TcpMarks, message_end};
use indexmap::IndexMap;
use rule_book::{Ended, Reason, Rule};
use std::alloc::Global;
use wire_base::{Side, sequence_distance, sequence_plus, u16_at};

// 2^32, and the greatest distance of a segment from the greatest end that is followed, 2^30.
const TURN: u64 = 1 << 32;

const FAR: u64 = 1 << 30;

/// What is known of the stream of one side. Offsets count octets from `base`.
#[derive(Drop)]
struct SideStream {
    /// The sequence number of the first octet.
    base: Option<u32>,
    /// The greatest end of the side's segments that are not dropped.
    top: u64,
    /// The greatest offset that the other side acknowledged.
    acked: u64,
    covered: Coverage,
    /// The newest gap that an acknowledgment left; empty if there is none.
    gap: Run,
    /// How many gaps were filled after their acknowledgment.
    filled: u64,
}

/// What is known of an era.
#[derive(Drop)]
struct EraStreams {
    inward: SideStream,
    outward: SideStream,
    /// The era was evicted.
    evicted: bool,
}

/// A segment without RST.
#[derive(Clone, Copy, Debug, PartialEq, Eq)]
pub(crate) struct SegmentSeen {
    /// How many octets it has of its stream, with the FIN.
    pub(crate) size: u64,
    /// The sequence number of the first of them.
    pub(crate) start: u32,
    pub(crate) syn: bool,
    /// What it acknowledges.
    pub(crate) ack: Option<u32>,
    /// It covers octets and says nothing else of its stream: its line is a drop, or has no era.
    pub(crate) covers_only: bool,
}

/// The streams of all eras.
#[derive(Drop)]
pub(crate) struct StreamTable {
    alloc: Global,
    eras: IndexMap<u32, EraStreams>,
}

/// What the streams of all eras lack, and what followed its acknowledgment, by side.
#[derive(Clone, Copy, Debug, Default, PartialEq, Eq)]
pub(crate) struct StreamFaults {
    /// Octets that were passed over and acknowledged, and that no segment has.
    pub(crate) missing: BySide,
    /// Gaps that were filled after their acknowledgment.
    pub(crate) filled: BySide,
}

impl SideStream {
    // Returns that nothing is known.
    fn new(alloc: Global) -> SideStream {
        SideStream {
            base: None,
            top: 0,
            acked: 0,
            covered: Coverage::new(alloc),
            gap: Run::default(),
            filled: 0,
        }
    }

    // Takes a segment of this side.
    fn take_own(&mut self, segment: SegmentSeen) -> Result<(), NoMemory> {
        let Some(base) = self.base_with(segment) else {
            return Ok(());
        };
        let Some(run) = run_of(base, self.top, segment.start, segment.size) else {
            return Ok(());
        };
        self.covered.cover(run)?;
        if !segment.covers_only {
            self.fill(run);
            self.top = self.top.max(run.stop);
        }
        Ok(())
    }

    // Returns the number of the first octet, which a first segment sets.
    fn base_with(&mut self, segment: SegmentSeen) -> Option<u32> {
        if self.base.is_none() && !segment.covers_only {
            // A segment without octets may be a keep-alive, from one before the next number.
            let skipped = if !segment.syn && segment.size == 0 {
                1
            } else {
                0
            };
            self.base = Some(sequence_plus(segment.start, skipped));
        }
        self.base
    }

    // Fills the newest gap from its front.
    fn fill(&mut self, run: Run) {
        if self.gap.start >= self.gap.stop
            || run.start > self.gap.start
            || run.stop <= self.gap.start
        {
            return;
        }
        self.gap.start = run.stop.min(self.gap.stop);
        if self.gap.start == self.gap.stop {
            self.filled = self.filled.saturating_add(1);
        }
    }

    // Takes a segment of the other side.
    fn take_other(&mut self, segment: SegmentSeen) {
        let (Some(ack), Some(base), false) = (segment.ack, self.base, segment.covers_only) else {
            return;
        };
        if let Some(run) = run_of(base, self.top, ack, 0) {
            self.acknowledge(run.stop);
        }
    }

    // Takes an acknowledgment up to an offset.
    fn acknowledge(&mut self, offset: u64) {
        let known = self.top.max(self.acked);
        if known < offset {
            self.gap = Run {
                start: known,
                stop: offset,
            };
        }
        self.acked = self.acked.max(offset);
    }

    // Returns how many octets were passed over and acknowledged, and are in no segment.
    fn missing(&self) -> u64 {
        self.covered.missing_below(self.top.min(self.acked))
    }
}

impl EraStreams {
    // Returns that nothing is known.
    fn new(alloc: Global) -> EraStreams {
        EraStreams {
            inward: SideStream::new(alloc),
            outward: SideStream::new(alloc),
            evicted: false,
        }
    }

    // Takes a segment of this side.
    fn take(&mut self, side: Side, segment: SegmentSeen) -> Result<(), NoMemory> {
        match side {
            Side::Inward => {
                self.outward.take_other(segment);
                self.inward.take_own(segment)
            }
            Side::Outward => {
                self.inward.take_other(segment);
                self.outward.take_own(segment)
            }
        }
    }
}

impl StreamTable {
    /// Returns that nothing is known.
    pub(crate) fn new(alloc: Global) -> StreamTable {
        StreamTable {
            alloc,
            eras: IndexMap::new(alloc),
        }
    }

    /// Returns whether an era was evicted.
    pub(crate) fn is_evicted(&self, era: u32) -> bool {
        self.eras.get(&era).is_some_and(|streams| streams.evicted)
    }

    /// Notes which of these eras were evicted.
    pub(crate) fn end_all(&mut self, ended: &[Ended]) -> Result<(), NoMemory> {
        let alloc = self.alloc;
        for one in ended {
            let entry = self.eras.entry(one.era)?;
            let streams = entry.or_insert_with(|| EraStreams::new(alloc));
            streams.evicted = matches!(one.reason, Reason::Evicted);
        }
        Ok(())
    }

    /// Takes a segment of an era.
    pub(crate) fn take(
        &mut self,
        era: u32,
        side: Side,
        segment: SegmentSeen,
    ) -> Result<(), NoMemory> {
        let alloc = self.alloc;
        let entry = self.eras.entry(era)?;
        entry
            .or_insert_with(|| EraStreams::new(alloc))
            .take(side, segment)
    }

    /// Returns what the streams of all eras lack, and what followed its acknowledgment.
    pub(crate) fn faults(&self) -> StreamFaults {
        let mut faults = StreamFaults::default();
        for (_, streams) in &self.eras {
            faults.add(Side::Inward, &streams.inward);
            faults.add(Side::Outward, &streams.outward);
        }
        faults
    }
}

impl StreamFaults {
    // Adds those of the stream of this side.
    fn add(&mut self, side: Side, stream: &SideStream) {
        self.missing.add(Some(side), stream.missing());
        self.filled.add(Some(side), stream.filled);
    }
}

impl SegmentSeen {
    /// Returns what a segment says, whose line names these rules.
    pub(crate) fn of(
        rules: &[Rule],
        flow: Flow,
        marks: TcpMarks,
        packet: &[u8],
        covers_only: bool,
    ) -> SegmentSeen
        requires { IsReadable packet.now }
    {
        let flags = marks.flags;
        let length = sent_length(rules, flow, packet);
        SegmentSeen {
            size: if flags.fin() {
                length.saturating_add(1)
            } else {
                length
            },
            start: if flags.syn() {
                sequence_plus(marks.seq, 1)
            } else {
                marks.seq
            },
            syn: flags.syn(),
            ack: if flags.ack() { Some(marks.ack) } else { None },
            covers_only,
        }
    }
}

// Returns the length of a segment's payload in octets; that of its total length where the capture
// has only a part of it.
fn sent_length(rules: &[Rule], flow: Flow, packet: &[u8]) -> u64
    requires { IsReadable packet.now }
{
    if !names(rules, Rule::LSnap) {
        return flow.length;
    }
    let headers = (message_end(packet) as u64).saturating_sub(flow.length);
    u64::from(u16_at(packet, 2)).saturating_sub(headers)
}

// Returns the offsets of `size` octets from a sequence number on, which is read nearest to `top`;
// None if it is more than 2^30 octets away.
fn run_of(base: u32, top: u64, number: u32, size: u64) -> Option<Run> {
    let far = sequence_distance(sequence_plus(base, top), number);
    run_at(top, far, size)
}

fn run_at(top: u64, far: u64, size: u64) -> Option<Run>
    requires { far < 2 ^ 32 }
{
    if far <= FAR {
        let start = top.saturating_add(far);
        return Some(Run {
            start,
            stop: start.saturating_add(size),
        });
    }
    if far < TURN - FAR {
        return None;
    }
    let back = TURN - far;
    Some(Run {
        start: top.saturating_sub(back),
        stop: top.saturating_add(size).saturating_sub(back),
    })
}
