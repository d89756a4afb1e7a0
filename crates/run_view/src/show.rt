//! The lines of a record, which are shown together once the last of them was read.
ghost use Rattle.std.specs.Prelude.{◌≡◌, [], ◌∷◌, ◌++◌, None, true, false, map, IfErr, OnOk};
ghost use Rattle.edge_io.specs.working.FaultCounts.{RisesOnlyAtErr};
ghost use Rattle.rule_book.specs.Entries.{plain};
ghost use Rattle.view_text.specs.PlainLines.{plain_line};
ghost use Rattle.run_view.specs.ChosenRecords as spec;
ghost use Rattle.run_view.specs.ShownEvents.{Shows, plain_event};
ghost use Rattle.run_view.specs.working.ShownLines.{NotesLine, due_event, line_of_shown, lines_with, may_be_chosen, met_shown, plain_shown};
ghost use Rattle.run_view.specs.working.StopCauses.{OutStop};

use crate::Stop;
use crate::chosen::{Meets, chooses_records, either, meets_all, meets_record, met_by, nothing_met};
use crate::compare::{flow_at, length_at, type_without};
use crate::events::{Event, Events, Unshown};
use crate::evidence::Evidence;
use crate::item::Gathered;
use crate::words::Asked;
use arrayvec::ArrayVec;
use edge_io::NoMemory;
use rule_book::Entry;
use std::alloc::Global;
use std::mem;
use view_text::{Format, ShownLine};
use wire_base::Link;

/// What is shown of a line.
#[derive(Clone, Copy)]
pub(crate) struct Shown<'a> {
    /// It is one of the second engine.
    pub(crate) second: bool,
    /// Its frames went to the second engine.
    pub(crate) given: bool,
    /// The number of its record.
    pub(crate) number: u32,
    /// The time of its record, in nanoseconds since 1970.
    pub(crate) time: u64,
    pub(crate) link: Link,
    /// The octets of its record.
    pub(crate) octets: &'a [u8],
    pub(crate) entry: &'a Entry,
    /// How many frames precede its own.
    pub(crate) before: u64,
}

/// What is shown of the newest record.
#[derive(Drop)]
pub(crate) struct Printing {
    /// Which conditions its lines meet.
    pub(crate) met: Meets,
    /// Its lines, if it meets the conditions on the record and others are to come.
    pub(crate) lines: Vec<ShownLine>,
    /// All its lines, if the newest is the last of them and the record is chosen.
    pub(crate) due: Option<Vec<ShownLine>>,
    /// How many records were chosen.
    pub(crate) records: u64,
    /// What they show, if evidence is asked for.
    pub(crate) evidence: Evidence,
}

impl Printing {
    /// Returns that nothing was shown.
    pub(crate) fn new(alloc: Global) -> Printing
        ensures { result.records ≡ 0 }
    {
        Printing {
            met: nothing_met(),
            lines: Vec::new(alloc),
            due: None,
            records: 0,
            evidence: Evidence::new(alloc),
        }
    }
}

/// Notes a line of a record; the record is due if this is the last of its lines and it is chosen.
/// `owed` other lines are to come.
#[inline(always)]
pub(crate) fn note_line(
    alloc: Global,
    asked: &Asked,
    shown: Shown<'_>,
    owed: u8,
    gathered: Gathered,
    printing: &mut Printing,
) -> Result<(), NoMemory>
    ensures { OnOk result (NotesLine printing.old printing.new asked.now owed
        (met_shown asked.now (plain_shown shown.entry) printing.old.met)
        (lines_with shown.entry.second (map plain_line printing.old.lines.items) (line_of_shown (plain_shown shown.entry) gathered))) }
{
    printing.due = None;
    if chooses_records(asked) {
        note_shown(alloc, asked, shown, owed, gathered, printing)
    } else {
        Ok(())
    }
}

// Does the same if records are chosen.
#[inline(never)]
fn note_shown(
    alloc: Global,
    asked: &Asked,
    shown: Shown<'_>,
    owed: u8,
    gathered: Gathered,
    printing: &mut Printing,
) -> Result<(), NoMemory>
    requires wanted { spec.chooses_records asked.now ≡ true }
    requires none_due { printing.old.due ≡ None }
    ensures { OnOk result (NotesLine printing.old printing.new asked.now owed
        (met_shown asked.now (plain_shown shown.entry) printing.old.met)
        (lines_with shown.entry.second (map plain_line printing.old.lines.items) (line_of_shown (plain_shown shown.entry) gathered))) }
{
    let met = met_before(asked, shown, printing.met);
    printing.met = met;
    if asked.evidence {
        let changes = gathered.changes.as_slice();
        printing.evidence.take(alloc, shown, changes)?;
    }
    if !may_be_chosen(met, owed) {
        return Ok(());
    }
    if owed == 0 {
        printing.records = printing.records.saturating_add(1);
        if asked.evidence {
            let length = length_at(shown.link, shown.octets);
            printing.evidence.count(length);
        }
    }
    if asked.summary {
        return Ok(());
    }
    let line = line_shown(alloc, shown, gathered, &mut printing.evidence);
    add_line(shown.second, line, &mut printing.lines)?;
    if owed == 0 {
        printing.due = Some(mem::replace(&mut printing.lines, Vec::new(alloc)));
    }
    Ok(())
}

/// Shows the record that is due.
#[inline(always)]
pub(crate) fn show_due<E: Events>(
    format: Format,
    printing: &mut Printing,
    out: &mut E,
) -> Result<(), Stop>
    ensures shows { OnOk result (Shows (E.shown out.old) (E.shown out.new) (due_event printing.old)) }
    ensures rest { OnOk result (printing.new ≡ record printing.old { due = None }) }
    ensures stops { IfErr result (OutStop (E.fault_count out.old) (E.fault_count out.new)) }
    ensures faults { RisesOnlyAtErr (E.fault_count out.old) (E.fault_count out.new) result }
{
    match printing.due.take() {
        Some(lines) => show(format, Event::Record(lines), out),
        None => Ok(()),
    }
}

/// Shows an event.
pub(crate) fn show<E: Events>(format: Format, event: Event, out: &mut E) -> Result<(), Stop>
    ensures shows { OnOk result (Shows (E.shown out.old) (E.shown out.new) (plain_event event ∷ [])) }
    ensures stops { IfErr result (OutStop (E.fault_count out.old) (E.fault_count out.new)) }
    ensures faults { RisesOnlyAtErr (E.fault_count out.old) (E.fault_count out.new) result }
{
    match out.show(format, event) {
        Ok(()) => Ok(()),
        Err(Unshown::Failed) => Err(Stop::Unwritten),
        Err(Unshown::NoMemory) => Err(Stop::Memory),
    }
}

// Returns which conditions the lines of a record meet, this one and those before.
fn met_before(asked: &Asked, shown: Shown<'_>, before: Meets) -> Meets
    ensures { result ≡ met_shown asked.now (plain_shown shown.entry) before }
{
    let met = met_by(asked, shown.second, shown.entry, shown.link, shown.octets);
    if shown.second {
        either(before, met)
    } else {
        met
    }
}

// Returns whether a record may be chosen whose lines meet this, where this number of others is to
// come.
fn may_be_chosen(met: Meets, owed: u8) -> bool
    ensures { result ≡ may_be_chosen owed met }
{
    if owed == 0 {
        meets_all(met)
    } else {
        meets_record(met)
    }
}

// Adds a line of a record to those before; one of the first engine begins a record.
fn add_line(second: bool, line: ShownLine, lines: &mut Vec<ShownLine>) -> Result<(), NoMemory>
    ensures { OnOk result (map plain_line lines.new.items ≡ lines_with second (map plain_line lines.old.items) (plain_line line)) }
{
    if !second {
        lines.clear();
    }
    // A line is large, and most records have one.
    lines.reserve_exact(1)?;
    lines.push(line)?;
    Ok(())
}

// Returns what is shown of a line.
fn line_shown(
    alloc: Global,
    shown: Shown<'_>,
    gathered: Gathered,
    evidence: &mut Evidence,
) -> ShownLine
    ensures { plain_line result ≡ line_of_shown (plain_shown shown.entry) gathered }
{
    let flow = flow_at(shown.link, shown.octets);
    let entry = copied(shown.entry);
    let Gathered {
        changes,
        unchanged: _,
        wants: _,
        flow: _,
        octets: _,
    } = gathered;
    ShownLine {
        number: u64::from(shown.number),
        second: shown.second,
        own: shown.entry.number,
        time: shown.time,
        flow,
        ethertype: type_without(flow, shown.link, shown.octets),
        length: length_at(shown.link, shown.octets),
        entry,
        given: shown.given,
        before: shown.before,
        changes,
        firsts: evidence.replaced(alloc),
        clash: evidence.clash(),
    }
}

// Returns a copy of an entry.
fn copied(entry: &Entry) -> Entry
    ensures { plain result ≡ plain entry.now }
{
    let mut rules = ArrayVec::new();
    let Ok(()) = rules.try_extend_from_slice(entry.rules.as_slice()) else {
        unreachable!();
    };
    let mut ended = ArrayVec::new();
    let Ok(()) = ended.try_extend_from_slice(entry.ended.as_slice()) else {
        unreachable!();
    };
    Entry {
        number: entry.number,
        side: entry.side,
        verdict: entry.verdict,
        packets: entry.packets,
        rules,
        era: entry.era,
        begun: entry.begun,
        ended,
    }
}
