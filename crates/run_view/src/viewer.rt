//! The view of a finished run.
ghost use Rattle.std.specs.Prelude.{◌≡◌, ◌⊎◌, ◌<◌, ◌≤◌, [], map, string_bytes, true, false, IfErr, IfOk, None, OnOk};
ghost use Rattle.edge_io.specs.working.FaultCounts.{RisesOnlyAtErr};
ghost use Rattle.capture_input.specs.ReaderState.{is_open_in};
ghost use Rattle.pcap_file.specs.declared.head.Head.{Head};
ghost use Rattle.run_view.specs.working.LinesAhead.{left_in};
ghost use Rattle.run_view.specs.ShownEvents.{Shows, count_shown, is_summed};
ghost use Rattle.run_view.specs.working.LineProgress.{Whole};
ghost use Rattle.run_view.specs.RunFiles.{counts_of, sources_of};
ghost use Rattle.run_view.specs.working.ViewerProgress.{Ends, IsFresh, MayTake, ViewerAt, ends_of};
ghost use Rattle.run_view.specs.working.ReaderPositions.{IsBehind};
ghost use Rattle.run_view.specs.working.StopCauses.{FilesStop, OutStop, RestStop};
ghost use Rattle.run_view.specs.StatusMeanings as viewed;
ghost use Rattle.run_view.specs.ViewWords.{asked_in as words_ask};

use crate::Stop;
use crate::chosen::has_choice;
use crate::ends::check_ends;
use crate::events::{Event, Events};
use crate::form::{Form, is_both, read_form};
use crate::item::{Files, Frames, Held, ROOM};
use crate::judged::Judged;
use crate::line::Lines;
use crate::print::{
    Size, answer, flush, format_of, print_opening, print_table, summary_text, tell, text_of_notes,
    write,
};
use crate::show::{Printing, show};
use crate::sources::{open_input, open_output};
use crate::take::step;
use crate::tally::Tally;
use crate::words::{Asked, Print, asked_in, asks_json};
use capture_input::Input;
use edge_io::{NoMemory, Source};
use pcap_file::Reader;
use std::alloc::Global;
use view_text::{era_heading, evidence_lines};

/// The progress of a view.
#[derive(Drop)]
pub(crate) struct Viewer {
    pub(crate) asked: Asked,
    /// The form of the report.
    pub(crate) form: Form,
    pub(crate) lines: Lines,
    pub(crate) files: Files,
    pub(crate) held: Held,
    /// How many lines of the second engine are still to come for the newest record.
    pub(crate) owed: u8,
    /// How many lines of the second engine were read.
    pub(crate) second_count: u64,
    pub(crate) tally: Tally,
    pub(crate) printing: Printing,
}

/// Views a finished run: reads the capture that was its input, the capture that it wrote and its
/// report in step, prints what the words ask for, and returns the status:
///
/// - 0 if all three were read to their end and no count of faults rose; 10 in its place if notes
///   are asked for and one of them is a warning, and 11 if evidence is asked for and a record is
///   chosen. Then `out` was shown exactly the events of the files;
/// - 1, `no record N` or `no frame N`, if the files do not belong to each other;
/// - 2, `stop words`, for invalid arguments;
/// - 3 and 4, `stop in cut O` and the like, if the input or the output is no capture, 4 where it
///   ends inside its head, a record or a block; 3, `stop out link 0`, too, if the link of the
///   output differs from the input's;
/// - 5, `stop read`, if a source failed;
/// - 7 if `out` failed;
/// - 8, `stop memory`, if memory could not be allocated;
/// - 9, `stop report N`, if the report is that of no finished run, by its line N.
///
/// The line of a status other than 0, 7, 10 and 11 is the last one that is printed, as JSON if a
/// word is `--json`, even for invalid arguments.
pub fn view<I: Source, O: Source, R: Source, E: Events>(
    alloc: Global,
    words: &[String],
    input: &mut I,
    output: &mut O,
    report: &mut R,
    out: &mut E,
) -> u8
    ensures viewed { viewed.IsToItsEnd result → viewed.Viewed (map string_bytes words.now) (I.left input.old) (O.left output.old) (R.left report.old)
        (E.shown out.old) (E.shown out.new) result }
    ensures stopped { viewed.IsToItsEnd result ⊎ viewed.Stopped (map string_bytes words.now)
        (viewed.moment_of (I.left input.old) (I.fault_count input.old) (O.left output.old) (O.fault_count output.old)
        (R.left report.old) (R.fault_count report.old) (E.fault_count out.old))
        (counts_of (I.fault_count input.new) (O.fault_count output.new) (R.fault_count report.new) (E.fault_count out.new)) result }
    ensures no_fault { viewed.IsToItsEnd result → counts_of (I.fault_count input.new) (O.fault_count output.new) (R.fault_count report.new)
        (E.fault_count out.new)
        ≡ counts_of (I.fault_count input.old) (O.fault_count output.old) (R.fault_count report.old) (E.fault_count out.old) }
    ensures refused { words_ask (map string_bytes words.now) ≡ None → (result ≡ 2) ⊎ (result ≡ 7) ⊎ (result ≡ 8) }
    ensures unread { words_ask (map string_bytes words.now) ≡ None → (input.new ≡ input.old) × (output.new ≡ output.old) × (report.new ≡ report.old) }
    ensures known { (result ≤ 5) ⊎ ((7 ≤ result) × (result ≤ 11)) }
    ensures input_later { I.fault_count input.old ≤ I.fault_count input.new }
    ensures output_later { O.fault_count output.old ≤ O.fault_count output.new }
    ensures report_later { R.fault_count report.old ≤ R.fault_count report.new }
    ensures out_later { E.fault_count out.old ≤ E.fault_count out.new }
{
    let json = asks_json(words);
    let Some(asked) = asked_in(words) else {
        return tell(alloc, json, Stop::Words, out);
    };
    match view_asked(alloc, asked, input, output, report, out) {
        Ok(answered) => answered,
        Err(stop) => tell(alloc, json, stop, out),
    }
}

// Views a run as it is asked.
fn view_asked<I: Source, O: Source, R: Source, E: Events>(
    alloc: Global,
    asked: Asked,
    input: &mut I,
    output: &mut O,
    report: &mut R,
    out: &mut E,
) -> Result<u8, Stop>
    ensures viewed { IfOk result (λ answered. viewed.ViewedAs asked (I.left input.old) (O.left output.old) (R.left report.old) (E.shown out.old)
        (E.shown out.new) answered) }
    ensures answers { IfOk result (λ answered. viewed.IsToItsEnd answered) }
    ensures stops { IfErr result (FilesStop (sources_of (I.left input.old) (O.left output.old) (R.left report.old))
        (counts_of (I.fault_count input.old) (O.fault_count output.old) (R.fault_count report.old) (E.fault_count out.old))
        (counts_of (I.fault_count input.new) (O.fault_count output.new) (R.fault_count report.new) (E.fault_count out.new))) }
    ensures input_faults { RisesOnlyAtErr (I.fault_count input.old) (I.fault_count input.new) result }
    ensures output_faults { RisesOnlyAtErr (O.fault_count output.old) (O.fault_count output.new) result }
    ensures report_faults { RisesOnlyAtErr (R.fault_count report.old) (R.fault_count report.new) result }
    ensures out_faults { RisesOnlyAtErr (E.fault_count out.old) (E.fault_count out.new) result }
{
    let reader = open_input(input)?;
    let frames = open_output(reader.head().link, output)?;
    let mut lines = Lines::new(alloc)?;
    let form = read_form(&mut lines, report)?;
    let mut viewer = new_viewer(alloc, asked, form, lines, reader, frames)?;
    print_opening(alloc, asked.print, out)?;
    view_entries(alloc, &mut viewer, input, output, report, out)
}

// Returns a view before the first record.
fn new_viewer(
    alloc: Global,
    asked: Asked,
    form: Form,
    lines: Lines,
    input: Input,
    reader: Reader,
) -> Result<Viewer, NoMemory>
    requires input { is_open_in input ≡ true }
    requires behind { IsBehind input }
    requires output { reader.is_open ≡ true }
    ensures { IfOk result (λ viewer. IsFresh viewer asked form lines input reader) }
{
    let buffer = Box::new(alloc, [0u8; ROOM])?;
    let frame = Box::new(alloc, [0u8; ROOM])?;
    let frames = Frames {
        reader,
        buffer: frame,
        count: 0,
    };
    let files = Files {
        head: input.head(),
        input,
        buffer,
        count: 0,
        frames,
    };
    Ok(Viewer {
        asked,
        form,
        lines,
        files,
        held: Held {
            octets: Vec::new(alloc),
            seconds: 0,
            fraction: 0,
            judged: Judged {
                number: 0,
                side: None,
                era: None,
                passed: false,
                dropped: false,
                probe: false,
                datagram: false,
            },
        },
        owed: 0,
        second_count: 0,
        tally: Tally::new(alloc),
        printing: Printing::new(alloc),
    })
}

// Views the records after the first line of the report, to the end of the three files.
fn view_entries<I: Source, O: Source, R: Source, E: Events>(
    alloc: Global,
    viewer: &mut Viewer,
    input: &mut I,
    output: &mut O,
    report: &mut R,
    out: &mut E,
) -> Result<u8, Stop>
    requires may { MayTake viewer.old }
    ensures viewed { IfOk result (λ answered. (head : Head) (before : Ends) →
        ViewerAt viewer.old head before (ends_of (I.left input.old) (O.left output.old) (E.shown out.old)) [] →
        Whole viewer.old.asked viewer.old.form viewer.old.files.head head before (E.shown out.new) (left_in viewer.old.lines (R.left report.old))
        answered) }
    ensures answers { IfOk result (λ answered. viewed.IsToItsEnd answered) }
    ensures stops { IfErr result (λ stop. (head : Head) (before : Ends) →
        ViewerAt viewer.old head before (ends_of (I.left input.old) (O.left output.old) (E.shown out.old)) [] →
        RestStop viewer.old.form (sources_of before.read before.written (left_in viewer.old.lines (R.left report.old)))
        (counts_of (I.fault_count input.old) (O.fault_count output.old) (R.fault_count report.old) (E.fault_count out.old))
        (counts_of (I.fault_count input.new) (O.fault_count output.new) (R.fault_count report.new) (E.fault_count out.new)) stop) }
    ensures input_faults { RisesOnlyAtErr (I.fault_count input.old) (I.fault_count input.new) result }
    ensures output_faults { RisesOnlyAtErr (O.fault_count output.old) (O.fault_count output.new) result }
    ensures report_faults { RisesOnlyAtErr (R.fault_count report.old) (R.fault_count report.new) result }
    ensures out_faults { RisesOnlyAtErr (E.fault_count out.old) (E.fault_count out.new) result }
{
    'entries: while step(alloc, viewer, input, output, report, out)? {}
    check_ends(viewer, input, output, report)?;
    close(alloc, viewer, out)
}

// Shows and prints what belongs to the end, flushes the output, and returns the status.
fn close<E: Events>(alloc: Global, viewer: &Viewer, out: &mut E) -> Result<u8, Stop>
    ensures shows { OnOk result (Shows (E.shown out.old) (E.shown out.new) (count_shown viewer.now.asked viewer.now.printing.records)) }
    ensures answers { IfOk result (viewed.IsStatusOf viewer.now.asked.evidence viewer.now.printing.records) }
    ensures stops { IfErr result (OutStop (E.fault_count out.old) (E.fault_count out.new)) }
    ensures faults { RisesOnlyAtErr (E.fault_count out.old) (E.fault_count out.new) result }
{
    let chosen = viewer.printing.records;
    let Ok(answered) = answer(alloc, &viewer.asked, chosen, &viewer.tally) else {
        return Err(Stop::Memory);
    };
    match print_end(alloc, viewer, out) {
        Ok(()) => match flush(out) {
            Ok(()) => Ok(answered),
            Err(stop) => Err(stop),
        },
        Err(stop) => Err(stop),
    }
}

// Shows and prints what belongs to the end.
fn print_end<E: Events>(alloc: Global, viewer: &Viewer, out: &mut E) -> Result<(), Stop>
    ensures shows { OnOk result (Shows (E.shown out.old) (E.shown out.new) (count_shown viewer.now.asked viewer.now.printing.records)) }
    ensures stops { IfErr result (OutStop (E.fault_count out.old) (E.fault_count out.new)) }
    ensures faults { RisesOnlyAtErr (E.fault_count out.old) (E.fault_count out.new) result }
{
    match viewer.asked.print {
        Print::Text | Print::Json => sum_up(alloc, viewer, out),
        Print::Records => Ok(()),
        Print::Eras => print_eras(alloc, viewer, out),
        Print::Notes | Print::JsonNotes => print_notes(alloc, viewer, out),
    }
}

// Shows how many records were chosen, if a condition is given, and prints what they show, if
// evidence is asked for; else prints the summary, the eras and the notes.
fn sum_up<E: Events>(alloc: Global, viewer: &Viewer, out: &mut E) -> Result<(), Stop>
    requires summed { is_summed viewer.now.asked ≡ true }
    ensures shows { OnOk result (Shows (E.shown out.old) (E.shown out.new) (count_shown viewer.now.asked viewer.now.printing.records)) }
    ensures stops { IfErr result (OutStop (E.fault_count out.old) (E.fault_count out.new)) }
    ensures faults { RisesOnlyAtErr (E.fault_count out.old) (E.fault_count out.new) result }
{
    if !has_choice(&viewer.asked) {
        return print_whole(alloc, viewer, out);
    }
    let chosen = Event::Chosen(viewer.printing.records);
    match show(format_of(viewer.asked.print), chosen, out) {
        Ok(()) => print_evidence(alloc, viewer, out),
        Err(stop) => Err(stop),
    }
}

// Prints what the records show that were chosen, if evidence is asked for.
fn print_evidence<E: Events>(alloc: Global, viewer: &Viewer, out: &mut E) -> Result<(), Stop>
    ensures same { OnOk result (E.shown out.new ≡ E.shown out.old) }
    ensures stops { IfErr result (OutStop (E.fault_count out.old) (E.fault_count out.new)) }
    ensures faults { RisesOnlyAtErr (E.fault_count out.old) (E.fault_count out.new) result }
{
    if !viewer.asked.evidence {
        return Ok(());
    }
    let format = format_of(viewer.asked.print);
    let counts = &viewer.printing.evidence.counts;
    write(evidence_lines(alloc, format, counts), out)
}

// Prints the summary, the eras, unless only a summary is asked for, and the notes.
fn print_whole<E: Events>(alloc: Global, viewer: &Viewer, out: &mut E) -> Result<(), Stop>
    ensures same { OnOk result (E.shown out.new ≡ E.shown out.old) }
    ensures stops { IfErr result (OutStop (E.fault_count out.old) (E.fault_count out.new)) }
    ensures faults { RisesOnlyAtErr (E.fault_count out.old) (E.fault_count out.new) result }
{
    let size = Size {
        both: is_both(viewer.form),
        records: viewer.files.count,
        frames: viewer.files.frames.count,
    };
    let format = format_of(viewer.asked.print);
    match write(summary_text(alloc, format, size, &viewer.tally), out) {
        Ok(()) => match print_tables(alloc, viewer, out) {
            Ok(()) => print_notes(alloc, viewer, out),
            Err(stop) => Err(stop),
        },
        Err(stop) => Err(stop),
    }
}

// Prints a table of all eras.
fn print_eras<E: Events>(alloc: Global, viewer: &Viewer, out: &mut E) -> Result<(), Stop>
    ensures same { OnOk result (E.shown out.new ≡ E.shown out.old) }
    ensures stops { IfErr result (OutStop (E.fault_count out.old) (E.fault_count out.new)) }
    ensures faults { RisesOnlyAtErr (E.fault_count out.old) (E.fault_count out.new) result }
{
    match write(era_heading(alloc), out) {
        Ok(()) => print_tables(alloc, viewer, out),
        Err(stop) => Err(stop),
    }
}

// Prints the lines of all eras, those of the first engine before those of the second; none if only
// a summary is asked for.
fn print_tables<E: Events>(alloc: Global, viewer: &Viewer, out: &mut E) -> Result<(), Stop>
    ensures same { OnOk result (E.shown out.new ≡ E.shown out.old) }
    ensures stops { IfErr result (OutStop (E.fault_count out.old) (E.fault_count out.new)) }
    ensures faults { RisesOnlyAtErr (E.fault_count out.old) (E.fault_count out.new) result }
{
    if viewer.asked.summary {
        return Ok(());
    }
    let format = format_of(viewer.asked.print);
    match print_table(alloc, format, false, &viewer.tally.eras, out) {
        Ok(()) => print_table(alloc, format, true, &viewer.tally.second_eras, out),
        Err(stop) => Err(stop),
    }
}

// Prints the notes.
fn print_notes<E: Events>(alloc: Global, viewer: &Viewer, out: &mut E) -> Result<(), Stop>
    ensures same { OnOk result (E.shown out.new ≡ E.shown out.old) }
    ensures stops { IfErr result (OutStop (E.fault_count out.old) (E.fault_count out.new)) }
    ensures faults { RisesOnlyAtErr (E.fault_count out.old) (E.fault_count out.new) result }
{
    let format = format_of(viewer.asked.print);
    write(text_of_notes(alloc, format, &viewer.tally), out)
}
