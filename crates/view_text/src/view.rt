//! What is shown of a record, of an era and of a whole run.

use frame_view::{Change, Flow};
use rule_book::{Entry, Reason, Rule};
use run_notes::{Clash, HostCount, NumberCount};

/// The formats in which lines are printed.
#[derive(Clone, Copy, Debug, PartialEq, Eq)]
pub enum Format {
    Text,
    /// An object per line (RFC 8259).
    Json,
    /// A row per line, with tabs between the cells.
    Table,
}

/// A line of the report, with its record and what norm changed.
#[derive(Debug, Drop)]
pub struct ShownLine {
    /// The number of the record, from 1.
    pub number: u64,
    /// The line is one of the second engine.
    pub second: bool,
    /// The number of the line in the report. Used only on a line of the second engine: on a line of
    /// the first it is the record's number.
    pub own: u32,
    /// In nanoseconds since the beginning of 1970.
    pub time: u64,
    /// None where no IPv4 header can be read.
    pub flow: Option<Flow>,
    /// The EtherType of a frame of which no IPv4 header can be read, where the link has one.
    pub ethertype: Option<u16>,
    /// The number of octets of the payload.
    pub length: u64,
    /// Side, verdict, number of frames, rules, and the eras that it belongs to, began and ended.
    pub entry: Entry,
    /// The line is one of the first engine of two: its frames went to the second.
    pub given: bool,
    /// The number of frames in OUT before those of this line. Not used where `given`.
    pub before: u64,
    /// What differs between the record and its frames, frame by frame.
    pub changes: Vec<Change>,
    /// For each run of replaced octets among `changes`, the record that first sent the first of
    /// them, where it is known; empty where that is not asked for.
    pub firsts: Vec<Option<u32>>,
    /// Octets of a fragment that differ from those held, where that is asked for and known.
    pub clash: Option<Clash>,
}

/// What began an era, as the network's outside and inside see it.
#[derive(Clone, Copy, Debug, PartialEq, Eq)]
pub enum Opened {
    /// A SYN without ACK of the outside host.
    In,
    /// A SYN without ACK of the inside host.
    Out,
    /// Something else.
    Mid,
}

/// An era.
#[derive(Clone, Copy, Debug)]
pub struct EraView<'a> {
    pub era: u32,
    /// It is an era of the second engine.
    pub second: bool,
    /// The packet that began it, turned so that its source is the outside host.
    pub flow: Option<Flow>,
    /// None if the report never begins it.
    pub opened: Option<Opened>,
    /// The time of its first record, in nanoseconds since the beginning of 1970, if it has one.
    pub first: u64,
    /// The time of its last record, in the same unit.
    pub last: u64,
    /// The number of records that belong to it.
    pub records: u64,
    /// The number of TCP payload octets that were written inwards for its records, each copy
    /// counted.
    pub sent: u64,
    /// The number of offsets at which an octet went inwards, as the report has it. None while the
    /// era is live, and in a report of version 1.
    pub octets: Option<u64>,
    /// Why it ended; None while it is live.
    pub end: Option<Reason>,
    /// The rules that its entries name, each once.
    pub rules: &'a [Rule],
}

/// How many lines have each verdict.
#[derive(Clone, Copy, Debug, Default, PartialEq, Eq)]
pub struct VerdictCounts {
    pub pass: u64,
    pub fix: u64,
    pub hold: u64,
    pub drop: u64,
}

/// How many lines have each verdict, by side.
#[derive(Clone, Copy, Debug, Default, PartialEq, Eq)]
pub struct Sides {
    pub inward: VerdictCounts,
    pub outward: VerdictCounts,
    pub neither: VerdictCounts,
}

/// How many lines name a rule, by the side that the line says.
#[derive(Clone, Copy, Debug, PartialEq, Eq)]
pub struct RuleCount {
    pub rule: Rule,
    pub inward: u64,
    pub outward: u64,
    pub neither: u64,
}

/// How many eras there are, how many ended for each reason, and what began them.
#[derive(Clone, Copy, Debug, Default, PartialEq, Eq)]
pub struct EraCounts {
    pub all: u64,
    pub live: u64,
    pub reset: u64,
    pub evicted: u64,
    pub idle: u64,
    pub reopened: u64,
    pub opened_in: u64,
    pub opened_out: u64,
    pub opened_mid: u64,
}

/// How many of the chosen records are of each class of evidence.
#[derive(Clone, Copy, Debug, Default, PartialEq, Eq)]
pub struct EvidenceCounts {
    /// Octets that differ from those first sent.
    pub contradictions: u64,
    /// All others: some hosts may read these otherwise.
    pub differs: u64,
    /// Segments without payload that are dropped under T_COLD or T_FLAGS.
    pub noise: u64,
}

/// A whole run.
#[derive(Clone, Copy, Debug)]
pub struct Summary<'a> {
    pub records: u64,
    pub first: Sides,
    /// The lines of the second engine, where there is one.
    pub second: Option<Sides>,
    /// The number of frames that were written.
    pub frames: u64,
    /// The number of fragments whose datagram was never complete.
    pub unfinished: u64,
    /// EtherTypes that are not judged, in the order of first naming.
    pub types: &'a [NumberCount],
    /// Protocols that are not judged, in the same order.
    pub protocols: &'a [NumberCount],
    /// The rules that are named, in the order of first naming.
    pub rules: &'a [RuleCount],
    pub eras: EraCounts,
    /// The addresses outside with the most records, most first.
    pub outside_hosts: &'a [HostCount],
    /// The same of the addresses inside.
    pub inside_hosts: &'a [HostCount],
}
