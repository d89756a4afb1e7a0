//! Why a run stops before it has finished, and the line that reports it.
ghost use Rattle.std.specs.Prelude.{◌≡◌, ◌≤◌, ◌<◌, codes};
ghost use Rattle.edge_io.specs.FaultCounts.{Rose};
ghost use Rattle.rule_book.specs.Text.{last_text};
ghost use Rattle.norm_settings.specs.RefusalNumbers.{number_of};
ghost use Rattle.rule_book.specs.declared.last.StopKind.TheVariants as kinds;
ghost use Rattle.bridge_run.specs.Outputs as outputs;
ghost use Rattle.bridge_run.specs.StopReasons as spec;
ghost use Rattle.bridge_run.specs.working.FaultStops as working;

use both_sides::RelayFault;
use capture_input::InputFault;
use edge_io::Sink;
use norm_settings::WordFault;
use rule_book::{Last, StopKind, last_line};

/// Reason why a run stops before it has finished.
#[derive(Clone, Copy, Debug, PartialEq, Eq)]
pub enum Stop {
    /// For this reason, at the head, record or block whose first octet has this offset.
    At { kind: StopKind, offset: u64 },
    /// The report failed, so that it has no further line.
    Report,
}

impl Stop {
    /// Returns the status of the run.
    pub fn status(self) -> u8
        ensures { result ≡ spec.status_of self }
    {
        match self {
            Stop::At { kind, .. } => kind_status(kind),
            Stop::Report => 7,
        }
    }
}

// Returns the status of a stop that the report contains.
fn kind_status(kind: StopKind) -> u8
    ensures { result ≡ spec.kind_status kind }
{
    match kind {
        StopKind::Magic | StopKind::Version | StopKind::Link => 3,
        StopKind::Block | StopKind::Long | StopKind::Many => 3,
        StopKind::Cut => 4,
        StopKind::ReadFault => 5,
        StopKind::Capture => 6,
        StopKind::Memory => 8,
    }
}

/// Returns the stop at the head, record or block with this fault, which begins at this offset.
pub fn stop_at_fault(fault: InputFault, offset: u64) -> Stop
    ensures { result ≡ working.stop_at_fault fault offset }
{
    let kind = match fault {
        InputFault::Cut => StopKind::Cut,
        InputFault::Magic => StopKind::Magic,
        InputFault::Version => StopKind::Version,
        InputFault::Link => StopKind::Link,
        InputFault::Block => StopKind::Block,
        InputFault::Long => StopKind::Long,
        InputFault::Many => StopKind::Many,
        InputFault::ReadFault => StopKind::ReadFault,
    };
    Stop::At { kind, offset }
}

/// Returns the stop at a fault of the capture, at the record or block with this offset.
pub fn stop_at_capture(offset: u64) -> Stop
    ensures { result ≡ Stop.At kinds.Capture offset }
{
    Stop::At {
        kind: StopKind::Capture,
        offset,
    }
}

/// Returns the stop at the record or block with this offset, which is one too many.
pub fn stop_at_too_many(offset: u64) -> Stop
    ensures { result ≡ Stop.At kinds.Many offset }
{
    Stop::At {
        kind: StopKind::Many,
        offset,
    }
}

/// Returns the stop at a fault of this sink, during the output for the record or block with this
/// offset.
pub fn stop_at_sink(fault: RelayFault, offset: u64) -> Stop
    ensures { result ≡ outputs.stop_by fault offset }
{
    match fault {
        RelayFault::Capture => stop_at_capture(offset),
        RelayFault::Report => Stop::Report,
    }
}

/// Flushes the sinks, and reports why the run stops. A fault here changes no status.
pub fn tell_stop<K: Sink, R: Sink>(stop: Stop, capture: &mut K, report: &mut R)
    ensures told { spec.Told (R.held report.old) (R.held report.new)
        (R.fault_count report.old) (R.fault_count report.new) (spec.stop_line stop) }
    ensures kept { spec.Kept (record { octets = K.held capture.old; faults = K.fault_count capture.old })
        (record { octets = K.held capture.new; faults = K.fault_count capture.new }) }
    ensures capture_later { K.fault_count capture.old ≤ K.fault_count capture.new }
    ensures report_later { R.fault_count report.old ≤ R.fault_count report.new }
{
    let _ = capture.flush();
    let _ = report.flush();
    match stop {
        Stop::At { kind, offset } => tell_kind(kind, offset, report),
        Stop::Report => {}
    }
}

/// Reports that the memory of a run could not be allocated.
pub fn tell_memory<R: Sink>(report: &mut R)
    ensures told { spec.Told (R.held report.old) (R.held report.new)
        (R.fault_count report.old) (R.fault_count report.new) spec.memory_line }
    ensures later { R.fault_count report.old ≤ R.fault_count report.new }
{
    tell_kind(StopKind::Memory, 0, report);
}

/// Reports invalid arguments, by the number of their fault.
pub fn tell_words<R: Sink>(fault: &WordFault, report: &mut R)
    ensures told { spec.Told (R.held report.old) (R.held report.new)
        (R.fault_count report.old) (R.fault_count report.new) (spec.words_line (number_of fault.now)) }
    ensures later { R.fault_count report.old ≤ R.fault_count report.new }
{
    tell(words_line(fault), report);
}

fn words_line(fault: &WordFault) -> &'static [u8]
    ensures { result.now ≡ spec.words_line (number_of fault.now) }
{
    match fault {
        WordFault::Refused => b"stop words 1\n",
        WordFault::Prefix(_) => b"stop words 2\n",
        WordFault::TooMany => b"stop words 3\n",
        WordFault::NoMemory => b"stop words 4\n",
        WordFault::Same => b"stop words 5\n",
    }
}

// Writes the `stop` line of this kind and offset.
fn tell_kind<R: Sink>(kind: StopKind, offset: u64, report: &mut R)
    ensures told { spec.Told (R.held report.old) (R.held report.new)
        (R.fault_count report.old) (R.fault_count report.new) (last_text (Last.Stop kind offset)) }
    ensures later { R.fault_count report.old ≤ R.fault_count report.new }
{
    let mut line = [0u8; 64];
    let size = last_line(&Last::Stop { kind, offset }, &mut line);
    tell(&line[..size], report);
}

// Writes a line and flushes it, as far as the report accepts it.
fn tell<R: Sink>(line: &[u8], report: &mut R)
    ensures told { spec.Told (R.held report.old) (R.held report.new)
        (R.fault_count report.old) (R.fault_count report.new) line.now }
    ensures later { R.fault_count report.old ≤ R.fault_count report.new }
{
    if report.put(line).is_err() {
        return;
    }
    let _ = report.flush();
}
