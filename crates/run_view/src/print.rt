//! What is printed of a run besides its events: headings, a summary, eras, notes and stops.
ghost use Rattle.std.specs.Prelude.{◌≡◌, ◌≤◌, false, IfErr, IfOk};
ghost use Rattle.edge_io.specs.working.FaultCounts.{RisesOnlyAtErr};
ghost use Rattle.edge_io.specs.FaultCounts.{Rose};
ghost use Rattle.run_view.specs.working.StopCauses.{OutStop};
ghost use Rattle.run_view.specs.StatusMeanings as viewed;
ghost use Rattle.run_view.specs.working.StopLines as viewed_working;

use crate::Stop;
use crate::eras::{EraRow, Eras};
use crate::events::Events;
use crate::tally::{Tally, era_counts};
use crate::words::{Asked, Print};
use edge_io::NoMemory;
use run_notes::has_warning;
use std::alloc::Global;
use view_text::{EraView, Format, Summary, era_line, notes_text, record_heading, summary_line};

/// Returns the format in which records and eras are printed.
pub(crate) fn format_of(print: Print) -> Format {
    match print {
        Print::Text | Print::Notes => Format::Text,
        Print::Json | Print::JsonNotes => Format::Json,
        Print::Records | Print::Eras => Format::Table,
    }
}

/// Writes a text, unless memory for it could not be allocated.
pub(crate) fn write<E: Events>(text: Result<String, NoMemory>, out: &mut E) -> Result<(), Stop>
    ensures same { E.shown out.new ≡ E.shown out.old }
    ensures stops { IfErr result (OutStop (E.fault_count out.old) (E.fault_count out.new)) }
    ensures faults { RisesOnlyAtErr (E.fault_count out.old) (E.fault_count out.new) result }
{
    match text {
        Ok(text) => match out.write(text.as_bytes()) {
            Ok(()) => Ok(()),
            Err(_) => Err(Stop::Unwritten),
        },
        Err(_) => Err(Stop::Memory),
    }
}

/// Flushes the output.
pub(crate) fn flush<E: Events>(out: &mut E) -> Result<(), Stop>
    ensures same { E.shown out.new ≡ E.shown out.old }
    ensures stops { IfErr result (OutStop (E.fault_count out.old) (E.fault_count out.new)) }
    ensures faults { RisesOnlyAtErr (E.fault_count out.old) (E.fault_count out.new) result }
{
    match out.flush() {
        Ok(()) => Ok(()),
        Err(_) => Err(Stop::Unwritten),
    }
}

/// Prints what precedes the first record: the heading of a table of records.
pub(crate) fn print_opening<E: Events>(alloc: Global, print: Print, out: &mut E) -> Result<(), Stop>
    ensures same { E.shown out.new ≡ E.shown out.old }
    ensures stops { IfErr result (OutStop (E.fault_count out.old) (E.fault_count out.new)) }
    ensures faults { RisesOnlyAtErr (E.fault_count out.old) (E.fault_count out.new) result }
{
    match print {
        Print::Text | Print::Json | Print::Eras | Print::Notes | Print::JsonNotes => Ok(()),
        Print::Records => write(record_heading(alloc), out),
    }
}

/// How much a whole run has.
#[derive(Clone, Copy)]
pub(crate) struct Size {
    /// It has lines of a second engine.
    pub(crate) both: bool,
    pub(crate) records: u64,
    pub(crate) frames: u64,
}

/// Returns the summary of a run.
pub(crate) fn summary_text(
    alloc: Global,
    format: Format,
    size: Size,
    tally: &Tally,
) -> Result<String, NoMemory> {
    let types = tally.notes.types(alloc)?;
    let protocols = tally.notes.protocols(alloc)?;
    let hosts = tally.notes.hosts(alloc)?;
    let summary = Summary {
        records: size.records,
        first: tally.sides,
        second: size.both.then_some(tally.second_sides),
        frames: size.frames,
        unfinished: tally.notes.unfinished(),
        types: types.as_slice(),
        protocols: protocols.as_slice(),
        rules: tally.rules.as_slice(),
        eras: era_counts(tally),
        outside_hosts: hosts.outside.as_slice(),
        inside_hosts: hosts.inside.as_slice(),
    };
    summary_line(alloc, format, &summary)
}

/// Returns the lines of the notes.
pub(crate) fn text_of_notes(
    alloc: Global,
    format: Format,
    tally: &Tally,
) -> Result<String, NoMemory> {
    let list = tally.notes.list(alloc)?;
    notes_text(alloc, format, list.as_slice())
}

/// Returns the status of a view to its end, in which this number of records was chosen. It is 11 if
/// evidence is asked for and there is one, 10 if notes are asked for and one of them is a warning.
pub(crate) fn answer(
    alloc: Global,
    asked: &Asked,
    chosen: u64,
    tally: &Tally,
) -> Result<u8, NoMemory>
    ensures { IfOk result (viewed.IsStatusOf asked.now.evidence chosen) }
{
    if asked.evidence {
        return Ok(status_of_evidence(chosen));
    }
    match asked.print {
        Print::Text | Print::Json | Print::Records | Print::Eras => Ok(0),
        Print::Notes | Print::JsonNotes => {
            let list = tally.notes.list(alloc)?;
            Ok(status_of(has_warning(list.as_slice())))
        }
    }
}

fn status_of_evidence(chosen: u64) -> u8
    ensures { result ≡ viewed.status_of_evidence chosen }
{
    if chosen == 0 { 0 } else { 11 }
}

fn status_of(warning: bool) -> u8
    ensures { viewed.IsStatusOf false 0 result }
{
    if warning { 10 } else { 0 }
}

/// Prints the lines of the eras of an engine.
pub(crate) fn print_table<E: Events>(
    alloc: Global,
    format: Format,
    second: bool,
    eras: &Eras,
    out: &mut E,
) -> Result<(), Stop>
    ensures same { E.shown out.new ≡ E.shown out.old }
    ensures stops { IfErr result (OutStop (E.fault_count out.old) (E.fault_count out.new)) }
    ensures faults { RisesOnlyAtErr (E.fault_count out.old) (E.fault_count out.new) result }
{
    for place in 0..eras.len() {
        let Some((era, row)) = eras.get_index(place) else {
            unreachable!();
        };
        write(line_of_era(alloc, format, second, *era, row), out)?;
    }
    Ok(())
}

// Returns the line of an era.
fn line_of_era(
    alloc: Global,
    format: Format,
    second: bool,
    era: u32,
    row: &EraRow,
) -> Result<String, NoMemory> {
    let view = EraView {
        era,
        second,
        flow: row.flow,
        opened: row.opened,
        first: row.first,
        last: row.last,
        records: row.records,
        sent: row.sent,
        octets: row.ended.and_then(|ended| ended.octets),
        end: row.ended.map(|ended| ended.reason),
        rules: row.rules.as_slice(),
    };
    era_line(alloc, format, &view)
}

/// Prints the line of a stop, as JSON if that is asked for, and returns its status: 7 if the output
/// failed. If memory for the line cannot be allocated, prints `stop memory` and returns 8.
pub(crate) fn tell<E: Events>(alloc: Global, json: bool, stop: Stop, out: &mut E) -> u8
    ensures told { viewed_working.Tells stop (E.fault_count out.old) (E.fault_count out.new) result }
    ensures later { E.fault_count out.old ≤ E.fault_count out.new }
{
    match stop.line(alloc, stop_format(json)) {
        Ok(line) => {
            if is_told(line.as_bytes(), out) {
                stop.status()
            } else {
                7
            }
        }
        Err(_) => {
            if is_told(memory_line(json), out) {
                8
            } else {
                7
            }
        }
    }
}

// Returns the format of the line of a stop.
fn stop_format(json: bool) -> Format {
    if json { Format::Json } else { Format::Text }
}

// Returns the line that says that memory could not be allocated.
fn memory_line(json: bool) -> &'static [u8] {
    if json {
        b"{\"event\":\"stop\",\"status\":8,\"reason\":\"stop memory\"}\n"
    } else {
        b"stop memory\n"
    }
}

// Prints a line and flushes the output; returns false if the output failed.
fn is_told<E: Events>(line: &[u8], out: &mut E) -> bool
    ensures failed { result ≡ false → Rose (E.fault_count out.old) (E.fault_count out.new) }
    ensures later { E.fault_count out.old ≤ E.fault_count out.new }
{
    if out.write(line).is_err() {
        return false;
    }
    out.flush().is_ok()
}
