//! One record by two engines in sequence.
ghost use Rattle.std.specs.Prelude.{◌≡◌, ◌≤◌, ◌<◌, ◌-◌, ◌^◌, List, ◌++◌, length, option_map, IfSome, OnErr};
ghost use Rattle.edge_io.specs.FaultCounts.{HasCause};
ghost use Rattle.edge_io.specs.KnownOctets.{Puts};
ghost use Rattle.pcap_file.specs.RecordReading.{shown};
ghost use Rattle.rule_book.specs.Entries.{plain, IsOfVersion};
ghost use Rattle.rule_book.specs.Text.{entry_text};
ghost use Rattle.norm_engine.specs.Items.{Item};
ghost use Rattle.both_sides.specs.TwoEngines.{StandsFor};
ghost use Rattle.both_sides.specs.Frames.{frame_octets};
ghost use Rattle.both_sides.specs.working.FrameAnswers.{Answers, IsJudged, line_for};
ghost use Rattle.both_sides.specs.Sinks.{sinks_of};
ghost use Rattle.both_sides.specs.working.RecordEffects.{HaveRead};

use crate::cut::write_frames;
use crate::relay::{LINE, write_answer, write_line};
use crate::room::Room;
use crate::{Both, RelayFault};
use edge_io::{Failed, Outbox, Sink};
use norm_engine::laws::items_are_counted;
use norm_engine::written::have_octets;
use pcap_file::{Head, Record, WriteFault};
use rule_book::Entry;

/// Entries of two engines for a record: that of the first for the record itself, and those of the
/// second for each frame that the first writes for it.
#[derive(Drop)]
struct Told {
    own: Entry,
    first: Option<Entry>,
    second: Option<Entry>,
}

/// Judges one record by both engines, writes the frames of the second for it and then its lines,
/// and returns the number of frames written.
pub fn relay_two<K: Sink, R: Sink>(
    both: &mut Both,
    room: &mut Room,
    head: &Head,
    input: &Record<'_>,
    capture: &mut K,
    report: &mut R,
) -> Result<u64, RelayFault>
    requires few { both.old.first.records < 2 ^ 31 - 1 }
    requires empty { length both.old.pending ≡ 0 }
    requires stood { (trace : List Item) × (mirror : List Item) × StandsFor both.old trace mirror }
    ensures read { (trace mirror : List Item) → StandsFor both.old trace mirror →
        let before = sinks_of (K.held capture.old) (K.fault_count capture.old) (R.held report.old) (R.fault_count report.old) in
        let now = sinks_of (K.held capture.new) (K.fault_count capture.new) (R.held report.new) (R.fault_count report.new) in
        HaveRead head.now.order both.old both.new trace mirror (shown input.now) result before now }
    ensures empty { length both.new.pending ≡ 0 }
    ensures settings { both.new.first.settings ≡ both.old.first.settings }
    ensures link { both.new.first.link ≡ both.old.first.link }
    ensures capture_later { K.fault_count capture.old ≤ K.fault_count capture.new }
    ensures report_later { R.fault_count report.old ≤ R.fault_count report.new }
{
    have_octets(input.bytes);
    let told = judge_both(both, &mut room.out, &mut room.behind, input);
    if write_both(&room.out, &room.behind, head, input, capture).is_err() {
        return Err(RelayFault::Capture);
    }
    if write_told(&told, &mut room.line, report).is_err() {
        return Err(RelayFault::Report);
    }
    Ok((room.out.frames() + room.behind.frames()) as u64)
}

// Gives the record to the first engine, and each frame that it writes to the second.
fn judge_both(both: &mut Both, out: &mut Outbox, behind: &mut Outbox, input: &Record<'_>) -> Told
    requires few { both.old.first.records < 2 ^ 31 - 1 }
    requires empty { length both.old.pending ≡ 0 }
    ensures judged { (trace mirror : List Item) → StandsFor both.old trace mirror →
        IsJudged both.old both.new trace mirror (shown input.now) (plain result.own) (option_map plain result.first) (option_map plain result.second) (out.new ++ behind.new) }
    ensures empty { length both.new.pending ≡ 0 }
    ensures settings { both.new.first.settings ≡ both.old.first.settings }
    ensures link { both.new.first.link ≡ both.old.first.link }
{
    items_are_counted();
    // `front` takes the address of a copy of its record, so that the loop over records does not
    // store its record if there is one engine.
    let record = *input;
    let own = both.front(&record);
    let first = answer_next(both, out);
    let second = answer_next(both, behind);
    Told { own, first, second }
}

// Gives the next pending frame to the second engine, if there is one, and returns its entry.
// Replaces the frames in the outbox by those written for it.
fn answer_next(both: &mut Both, out: &mut Outbox) -> Option<Entry>
    ensures answered { (trace mirror : List Item) → StandsFor both.old trace mirror →
        Answers both.old both.new trace mirror both.old.pending (option_map plain result) out.new }
    ensures few { length both.old.pending ≤ 2 }
    ensures left { length both.new.pending ≡ length both.old.pending - 1 }
    ensures settings { both.new.first.settings ≡ both.old.first.settings }
    ensures link { both.new.first.link ≡ both.old.first.link }
{
    if both.pending() == 0 {
        out.clear();
        return None;
    }
    Some(both.back(out))
}

// Writes the frames of both outboxes.
fn write_both<K: Sink>(
    out: &Outbox,
    behind: &Outbox,
    head: &Head,
    input: &Record<'_>,
    capture: &mut K,
) -> Result<(), WriteFault>
    ensures octets { Puts (K.held capture.old) (K.held capture.new) result (frame_octets head.now.order (shown input.now) (out.now ++ behind.now)) }
    ensures cause { HasCause (K.fault_count capture.old) (K.fault_count capture.new) result }
    ensures some { OnErr result (0 < length (out.now ++ behind.now)) }
{
    write_frames(out, head, input, capture)?;
    write_frames(behind, head, input, capture)
}

// Writes the line of the record, and then those of the second engine.
fn write_told<R: Sink>(told: &Told, line: &mut [u8; LINE], report: &mut R) -> Result<(), Failed>
    requires own { IsOfVersion 2 (plain told.now.own) }
    requires first { IfSome (option_map plain told.now.first) (IsOfVersion 2) }
    requires second { IfSome (option_map plain told.now.second) (IsOfVersion 2) }
    ensures octets { Puts (R.held report.old) (R.held report.new) result
        (entry_text (plain told.now.own) ++ (line_for (option_map plain told.now.first) ++ line_for (option_map plain told.now.second))) }
    ensures cause { HasCause (R.fault_count report.old) (R.fault_count report.new) result }
{
    write_line(&told.own, line, report)?;
    write_answer(&told.first, report)?;
    write_answer(&told.second, report)
}
