//! A record of the input with the frames of the output that were written for it.
ghost use Rattle.std.specs.Prelude.{◌≡◌, ◌+◌, ◌<◌, ◌^◌, ◌++◌, ◌∷◌, [], ℕ, List, length, true, IfErr, OnOk, if◌then◌else◌};
ghost use Rattle.std.specs.declared.option.Option.{Option};
ghost use Rattle.pcap_file.specs.RecordReading.{shown as packet_of};
ghost use Rattle.pcap_file.specs.Records.{Packet};
ghost use Rattle.pcap_file.specs.declared.head.Head.{Head};
ghost use Rattle.rule_book.specs.Entries.{plain};
ghost use Rattle.run_view.specs.Items as spec;
ghost use Rattle.run_view.specs.working.LinePositions.{waits};
ghost use Rattle.edge_io.specs.working.FaultCounts.{RisesOnlyAtErr};
ghost use Rattle.run_view.specs.working.ReaderPositions.{OutputAt};
ghost use Rattle.run_view.specs.working.RecordReading.{FrameAdded, FrameStop, FramesRead, FramesStop, Holds, IsGathered, MayRead, RecordRead, RecordStop, plain_original};

use crate::Stop;
use crate::compare::{Original, add_changes_at, flow_at};
use crate::judged::{Judged, judged_by};
use crate::sources::next_frame;
use capture_input::Input;
use edge_io::{NoMemory, Source};
use frame_view::{Change, Flow};
use pcap_file::{Head, Reader, Record};
use rule_book::Entry;
use std::alloc::Global;
use wire_base::{Link, MAX_CAPTURED};

/// The room for the octets of a record, the most that a capture may have.
pub(crate) const ROOM: usize = MAX_CAPTURED as usize;

/// The frames of the output.
#[derive(Drop)]
pub(crate) struct Frames {
    pub(crate) reader: Reader,
    /// The octets of one frame.
    pub(crate) buffer: Box<[u8; ROOM]>,
    /// How many frames were read.
    pub(crate) count: u64,
}

/// The newest record, kept for the lines of the second engine; out of date if none is to come.
#[derive(Drop)]
pub(crate) struct Held {
    pub(crate) octets: Vec<u8>,
    pub(crate) seconds: u32,
    pub(crate) fraction: u32,
    /// What the first engine said of it.
    pub(crate) judged: Judged,
}

/// The records of the input and the frames of the output.
#[derive(Drop)]
pub(crate) struct Files {
    /// The head of the input.
    pub(crate) head: Head,
    pub(crate) input: Input,
    /// The octets of one record, as they are read.
    pub(crate) buffer: Box<[u8; ROOM]>,
    /// How many records were read.
    pub(crate) count: u64,
    pub(crate) frames: Frames,
}

/// What is needed of the packets of a line.
#[derive(Clone, Copy)]
pub(crate) struct Wants {
    /// The first packet: the line begins an era.
    pub(crate) flow: bool,
    /// The count of octets: the line is of an era.
    pub(crate) octets: bool,
}

/// What is known of the frames of a line.
#[derive(Drop)]
pub(crate) struct Gathered {
    /// What differs between the record and its frames.
    pub(crate) changes: Vec<Change>,
    /// There is one frame, and it has the octets and the time of the record.
    pub(crate) unchanged: bool,
    /// What of the next two is right.
    pub(crate) wants: Wants,
    /// The packet of the first frame, or of the record if there is no frame.
    pub(crate) flow: Option<Flow>,
    /// How many octets the frames have after TCP headers.
    pub(crate) octets: u64,
}

/// Keeps a record and what the first engine said of it, if lines of the second are to come for it.
pub(crate) fn hold(
    owed: u8,
    entry: &Entry,
    original: Original<'_>,
    held: &mut Held,
) -> Result<(), NoMemory>
    ensures { OnOk result (waits owed ≡ true → Holds original.entry.octets.now original.entry.seconds original.entry.fraction (plain entry.now) held.new) }
{
    if owed == 0 {
        return Ok(());
    }
    held.octets.clear();
    held.octets.extend_from_slice(original.octets)?;
    held.seconds = original.seconds;
    held.fraction = original.fraction;
    held.judged = judged_by(entry);
    Ok(())
}

/// Returns a time in nanoseconds since 1970.
pub(crate) fn time_of(head: Head, seconds: u32, fraction: u32) -> u64
    ensures { result ≡ spec.nanoseconds head seconds fraction }
{
    let unit = if head.nano { 1 } else { 1_000 };
    u64::from(seconds) * 1_000_000_000 + u64::from(fraction) * unit
}

/// Returns what is gathered before the first frame.
pub(crate) fn nothing(alloc: Global, original: Original<'_>, wants: Wants) -> Gathered
    ensures { IsGathered (plain_original original.entry) [] result }
{
    Gathered {
        changes: Vec::new(alloc),
        unchanged: false,
        wants,
        flow: wanted_flow(wants.flow, original),
        octets: 0,
    }
}

/// Reads the next `packets` frames, those of one record, into `gathered`. Fails if the record was
/// passed and its one frame is not a copy of it.
pub(crate) fn gather<O: Source>(
    alloc: Global,
    original: Original<'_>,
    packets: u8,
    gathered: &mut Gathered,
    frames: &mut Frames,
    output: &mut O,
) -> Result<(), Stop>
    requires ready { MayRead frames.old }
    requires few { frames.old.count < 2 ^ 63 }
    requires fresh { IsGathered (plain_original original) [] gathered.old }
    ensures read { OnOk result ((all : Option (List ℕ)) (head : Head) (older : List Packet) →
        OutputAt frames.old.reader head all (O.left output.old) older →
        RecordRead frames.new all (O.left output.new) head older (plain_original original.entry) packets gathered.new) }
    ensures ready { OnOk result (MayRead frames.new) }
    ensures count { OnOk result (frames.new.count ≡ frames.old.count + packets) }
    ensures stops { IfErr result (λ stop. (all : Option (List ℕ)) (head : Head) (older : List Packet) →
        OutputAt frames.old.reader head all (O.left output.old) older →
        RecordStop all head older (plain_original original.entry) packets (O.fault_count output.old) (O.fault_count output.new) stop) }
    ensures faults { RisesOnlyAtErr (O.fault_count output.old) (O.fault_count output.new) result }
{
    gather_all(alloc, original, packets, gathered, frames, output)?;
    if original.passed & !gathered.unchanged {
        return Err(Stop::Record(u64::from(original.number)));
    }
    Ok(())
}

// Reads the next `packets` frames into `gathered`.
fn gather_all<O: Source>(
    alloc: Global,
    original: Original<'_>,
    packets: u8,
    gathered: &mut Gathered,
    frames: &mut Frames,
    output: &mut O,
) -> Result<(), Stop>
    requires ready { MayRead frames.old }
    requires few { frames.old.count < 2 ^ 63 }
    requires fresh { IsGathered (plain_original original) [] gathered.old }
    ensures read { OnOk result ((all : Option (List ℕ)) (head : Head) (older : List Packet) →
        OutputAt frames.old.reader head all (O.left output.old) older →
        FramesRead frames.new all (O.left output.new) head older (plain_original original.entry) packets gathered.new) }
    ensures ready { OnOk result (MayRead frames.new) }
    ensures count { OnOk result (frames.new.count ≡ frames.old.count + packets) }
    ensures stops { IfErr result (λ stop. (all : Option (List ℕ)) (head : Head) (older : List Packet) →
        OutputAt frames.old.reader head all (O.left output.old) older →
        FramesStop all head older packets (O.fault_count output.old) (O.fault_count output.new) stop) }
    ensures faults { RisesOnlyAtErr (O.fault_count output.old) (O.fault_count output.new) result }
{
    for number in 0..packets {
        add_frame(alloc, original, number, gathered, frames, output)?;
    }
    Ok(())
}

// Returns what the headers of a record say, if that is needed.
fn wanted_flow(wanted: bool, original: Original<'_>) -> Option<Flow> {
    if wanted {
        flow_at(original.link, original.octets)
    } else {
        None
    }
}

// Reads the next frame of a record, after this number of others.
fn add_frame<O: Source>(
    alloc: Global,
    original: Original<'_>,
    number: u8,
    gathered: &mut Gathered,
    frames: &mut Frames,
    output: &mut O,
) -> Result<(), Stop>
    requires ready { MayRead frames.old }
    requires few { frames.old.count + 1 < 2 ^ 64 }
    ensures added { OnOk result ((all : Option (List ℕ)) (head : Head) (own older : List Packet) → length own ≡ number →
        OutputAt frames.old.reader head all (O.left output.old) (own ++ older) →
        IsGathered (plain_original original.entry) own gathered.old →
        FrameAdded frames.new all (O.left output.new) head own older (plain_original original.entry) gathered.new) }
    ensures ready { OnOk result (MayRead frames.new) }
    ensures count { OnOk result (frames.new.count ≡ frames.old.count + 1) }
    ensures stops { IfErr result (λ stop. (all : Option (List ℕ)) (head : Head) (behind : List Packet) →
        OutputAt frames.old.reader head all (O.left output.old) behind →
        FrameStop all head behind (O.fault_count output.old) (O.fault_count output.new) stop) }
    ensures faults { RisesOnlyAtErr (O.fault_count output.old) (O.fault_count output.new) result }
{
    let Some(frame) = next_frame(&mut frames.reader, output, &mut frames.buffer[..])? else {
        return Err(Stop::Frame(frames.count + 1));
    };
    note_frame(alloc, original, number, frame, gathered)?;
    frames.count += 1;
    Ok(())
}

// Notes the next frame of a record, after this number of others.
fn note_frame(
    alloc: Global,
    original: Original<'_>,
    number: u8,
    frame: Record<'_>,
    gathered: &mut Gathered,
) -> Result<(), NoMemory>
    ensures { OnOk result ((own : List Packet) → length own ≡ number → IsGathered (plain_original original.entry) own gathered.old →
        IsGathered (plain_original original.entry) (packet_of frame.entry ∷ own) gathered.new) }
{
    let octets = frame.bytes;
    let same = original.octets == octets;
    let timed = original.seconds == frame.seconds && original.fraction == frame.fraction;
    let first = number == 0;
    gathered.unchanged = first && same && timed;
    let place = u32::from(number) + 1;
    let changes = &mut gathered.changes;
    add_changes_at(alloc, original, octets, place, same, changes)?;
    note_flow(original.link, number, octets, gathered);
    Ok(())
}

// Notes the packet and the octets of the next frame of a record, if they are needed.
fn note_flow(link: Link, number: u8, frame: &[u8], gathered: &mut Gathered)
    ensures changes { gathered.new.changes ≡ gathered.old.changes }
    ensures unchanged { gathered.new.unchanged ≡ gathered.old.unchanged }
{
    let wants = gathered.wants;
    if !wants.flow && !wants.octets {
        return;
    }
    let flow = flow_at(link, frame);
    if wants.flow {
        gathered.flow = first_flow(number, flow, gathered.flow);
    }
    gathered.octets = gathered.octets.saturating_add(tcp_octets(flow));
}

// Returns what the headers of the first frame say: this one's if it has the number 0.
fn first_flow(number: u8, flow: Option<Flow>, before: Option<Flow>) -> Option<Flow> {
    if number == 0 { flow } else { before }
}

// Returns how many octets a packet has after its TCP header.
fn tcp_octets(flow: Option<Flow>) -> u64 {
    match flow {
        Some(flow) if flow.tcp.is_some() => flow.length,
        _ => 0,
    }
}
