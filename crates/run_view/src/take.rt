//! Takes the lines of the report, each with its record and its frames.
ghost use Rattle.std.specs.Prelude.{◌≡◌, ◌⊎◌, ◌+◌, ◌<◌, ℕ, List, true, false, IfErr, IfOk, OnOk};
ghost use Rattle.std.specs.declared.option.Option.{Option};
ghost use Rattle.pcap_file.specs.declared.head.Head.{Head};
ghost use Rattle.rule_book.specs.Entries.{plain};
ghost use Rattle.rule_book.specs.ReportReading.{IsEntryOf};
ghost use Rattle.run_view.specs.working.LinesAhead.{left_in};
ghost use Rattle.run_view.specs.ShownEvents.{Event};
ghost use Rattle.run_view.specs.Forms.{version_of as version_of_form};
ghost use Rattle.run_view.specs.Items.{Item, line_by};
ghost use Rattle.run_view.specs.RunFiles.{counts_of, sources_of};
ghost use Rattle.run_view.specs.working.ViewerProgress.{Ends, MayTake, ViewerAt, Taken, WentOn, WentOnBy, ends_of, lines_in, turn_in};
ghost use Rattle.run_view.specs.working.LineProgress.{Going, IsSameRun, LineStop, StepsTo};
ghost use Rattle.run_view.specs.working.StopCauses.{RestStop};
ghost use Rattle.edge_io.specs.working.FaultCounts.{RisesOnlyAtErr};
ghost use Rattle.edge_io.specs.FaultCounts.{Rose};

use crate::Stop;
use crate::compare::Original;
use crate::events::Events;
use crate::form::{answers, is_both, own_frames, version_of};
use crate::item::{gather, hold, nothing, time_of};
use crate::judged::{is_passed_first, is_passed_second, kinds_by, second_kinds};
use crate::print::format_of;
use crate::show::{Shown, note_line, show_due};
use crate::sources::next_record;
use crate::tally::wants_of;
use crate::turn::{Turn, entry_part, is_last};
use crate::viewer::Viewer;
use edge_io::Source;
use rule_book::{Entry, read_entry};
use std::alloc::Global;

/// Takes the next line of the report: that of an entry, and returns true, or the last one of a run
/// with as many records and frames as were read, and returns false.
pub(crate) fn step<I: Source, O: Source, R: Source, E: Events>(
    alloc: Global,
    viewer: &mut Viewer,
    input: &mut I,
    output: &mut O,
    report: &mut R,
    out: &mut E,
) -> Result<bool, Stop>
    requires may { MayTake viewer.old }
    ensures going { IfOk result (λ more. (head : Head) (before : Ends) (told : Option (List ℕ)) →
        Going viewer.old head before (ends_of (I.left input.old) (O.left output.old) (E.shown out.old)) told
        (left_in viewer.old.lines (R.left report.old)) →
        StepsTo more viewer.new head before (ends_of (I.left input.new) (O.left output.new) (E.shown out.new)) told
        (left_in viewer.old.lines (R.left report.old)) (left_in viewer.new.lines (R.left report.new))) }
    ensures may { OnOk result (MayTake viewer.new) }
    ensures fewer { IfOk result (λ more. more ≡ true → lines_in viewer.new ≡ lines_in viewer.old + 1) }
    ensures same { OnOk result (IsSameRun viewer.old viewer.new) }
    ensures stops { IfErr result (λ stop. (head : Head) (before : Ends) (told : Option (List ℕ)) →
        Going viewer.old head before (ends_of (I.left input.old) (O.left output.old) (E.shown out.old)) told
        (left_in viewer.old.lines (R.left report.old)) →
        RestStop viewer.old.form (sources_of before.read before.written told)
        (counts_of (I.fault_count input.old) (O.fault_count output.old) (R.fault_count report.old) (E.fault_count out.old))
        (counts_of (I.fault_count input.new) (O.fault_count output.new) (R.fault_count report.new) (E.fault_count out.new)) stop) }
    ensures input_faults { RisesOnlyAtErr (I.fault_count input.old) (I.fault_count input.new) result }
    ensures output_faults { RisesOnlyAtErr (O.fault_count output.old) (O.fault_count output.new) result }
    ensures report_faults { RisesOnlyAtErr (R.fault_count report.old) (R.fault_count report.new) result }
    ensures out_faults { RisesOnlyAtErr (E.fault_count out.old) (E.fault_count out.new) result }
{
    let number = viewer.files.count + viewer.second_count + 2;
    let Ok(()) = viewer.lines.next(report) else {
        return Err(Stop::Unread);
    };
    let turn = turn(viewer);
    let text = viewer.lines.line();
    // An entry is large: it is borrowed here and not moved.
    let told = read_entry(entry_part(text, turn.second), version_of(viewer.form));
    match &told {
        Some(entry) => {
            if u64::from(entry.number) != turn.done + 1 {
                return Err(Stop::Report(number));
            }
            take(alloc, viewer, entry, input, output)?;
            let format = format_of(viewer.asked.print);
            show_due(format, &mut viewer.printing, out)?;
            Ok(true)
        }
        None if is_last(text, turn) => Ok(false),
        None => Err(Stop::Report(number)),
    }
}

// Returns the position of the next line of the report.
fn turn(viewer: &Viewer) -> Turn
    ensures { result ≡ turn_in viewer.now }
{
    let frames = viewer.files.frames.count;
    if viewer.owed == 0 {
        Turn {
            second: false,
            done: viewer.files.count,
            frames,
        }
    } else {
        Turn {
            second: true,
            done: viewer.second_count,
            frames,
        }
    }
}

// Reads the record and the frames of a line, counts them, and notes what is printed of them.
fn take<I: Source, O: Source>(
    alloc: Global,
    viewer: &mut Viewer,
    entry: &Entry,
    input: &mut I,
    output: &mut O,
) -> Result<(), Stop>
    requires may { MayTake viewer.old }
    ensures taken { OnOk result ((head : Head) (before : Ends) (shown : Option (List Event)) (items : List Item) →
        ViewerAt viewer.old head before (ends_of (I.left input.old) (O.left output.old) shown) items →
        IsEntryOf (version_of_form viewer.old.form) (plain entry.now) → entry.now.number ≡ (turn_in viewer.old).done + 1 →
        Taken viewer.new head before (ends_of (I.left input.new) (O.left output.new) shown) items
        (line_by (turn_in viewer.old).second (plain entry.now))) }
    ensures went { OnOk result (WentOn viewer.old viewer.new) }
    ensures stops { IfErr result (LineStop viewer.old (plain entry.now) (I.left input.old) (O.left output.old)
        (Rose (I.fault_count input.old) (I.fault_count input.new) ⊎ Rose (O.fault_count output.old) (O.fault_count output.new))) }
    ensures input_faults { RisesOnlyAtErr (I.fault_count input.old) (I.fault_count input.new) result }
    ensures output_faults { RisesOnlyAtErr (O.fault_count output.old) (O.fault_count output.new) result }
{
    if viewer.owed == 0 {
        take_first(alloc, viewer, entry, input, output)
    } else {
        take_second(alloc, viewer, entry, output)
    }
}

// Takes a line of the first engine.
fn take_first<I: Source, O: Source>(
    alloc: Global,
    viewer: &mut Viewer,
    entry: &Entry,
    input: &mut I,
    output: &mut O,
) -> Result<(), Stop>
    requires may { MayTake viewer.old }
    requires none_owed { viewer.old.owed ≡ 0 }
    ensures taken { OnOk result ((head : Head) (before : Ends) (shown : Option (List Event)) (items : List Item) →
        ViewerAt viewer.old head before (ends_of (I.left input.old) (O.left output.old) shown) items →
        IsEntryOf (version_of_form viewer.old.form) (plain entry.now) → entry.now.number ≡ viewer.old.files.count + 1 →
        Taken viewer.new head before (ends_of (I.left input.new) (O.left output.new) shown) items (line_by false (plain entry.now))) }
    ensures went { OnOk result (WentOnBy false viewer.old viewer.new) }
    ensures stops { IfErr result (LineStop viewer.old (plain entry.now) (I.left input.old) (O.left output.old)
        (Rose (I.fault_count input.old) (I.fault_count input.new) ⊎ Rose (O.fault_count output.old) (O.fault_count output.new))) }
    ensures input_faults { RisesOnlyAtErr (I.fault_count input.old) (I.fault_count input.new) result }
    ensures output_faults { RisesOnlyAtErr (O.fault_count output.old) (O.fault_count output.new) result }
{
    let files = &mut viewer.files;
    let Some(record) = next_record(&mut files.input, input, &mut files.buffer[..])? else {
        return Err(Stop::Record(files.count + 1));
    };
    files.count += 1;
    let (link, before, octets) = (files.head.link, files.frames.count, record.bytes);
    let time = time_of(files.head, record.seconds, record.fraction);
    let both = is_both(viewer.form);
    let original = Original {
        link,
        kinds: kinds_by(entry, false, false),
        passed: is_passed_first(both, entry),
        number: entry.number,
        seconds: record.seconds,
        fraction: record.fraction,
        octets,
    };
    let mut gathered = nothing(alloc, original, wants_of(None, entry));
    let packets = own_frames(viewer.form, entry.packets);
    let frames = &mut files.frames;
    gather(alloc, original, packets, &mut gathered, frames, output)?;
    let tally = &mut viewer.tally;
    tally.note(alloc, original, entry, time, &gathered)?;
    let owed = answers(viewer.form, entry.packets);
    viewer.owed = owed;
    hold(owed, entry, original, &mut viewer.held)?;
    let shown = Shown {
        second: false,
        given: both,
        number: entry.number,
        time,
        link,
        octets,
        entry,
        before,
    };
    let printing = &mut viewer.printing;
    note_line(alloc, &viewer.asked, shown, owed, gathered, printing)?;
    Ok(())
}

// Takes a line of the second engine.
fn take_second<O: Source>(
    alloc: Global,
    viewer: &mut Viewer,
    entry: &Entry,
    output: &mut O,
) -> Result<(), Stop>
    requires may { MayTake viewer.old }
    requires owed { 0 < viewer.old.owed }
    ensures taken { OnOk result ((read : Option (List ℕ)) (head : Head) (before : Ends) (shown : Option (List Event)) (items : List Item) →
        ViewerAt viewer.old head before (ends_of read (O.left output.old) shown) items →
        IsEntryOf (version_of_form viewer.old.form) (plain entry.now) → entry.now.number ≡ viewer.old.second_count + 1 →
        Taken viewer.new head before (ends_of read (O.left output.new) shown) items (line_by true (plain entry.now))) }
    ensures went { OnOk result (WentOnBy true viewer.old viewer.new) }
    ensures stops { IfErr result (λ stop. (read : Option (List ℕ)) → LineStop viewer.old (plain entry.now) read (O.left output.old)
        (Rose (O.fault_count output.old) (O.fault_count output.new)) stop) }
    ensures output_faults { RisesOnlyAtErr (O.fault_count output.old) (O.fault_count output.new) result }
{
    viewer.owed -= 1;
    let (link, before) = (viewer.files.head.link, viewer.files.frames.count);
    let held = &viewer.held;
    let octets = held.octets.as_slice();
    let original = Original {
        link,
        kinds: second_kinds(entry, held.judged, viewer.owed),
        passed: is_passed_second(held.judged, entry),
        number: held.judged.number,
        seconds: held.seconds,
        fraction: held.fraction,
        octets,
    };
    let time = time_of(viewer.files.head, held.seconds, held.fraction);
    let mut gathered = nothing(alloc, original, wants_of(held.judged.era, entry));
    let (packets, frames) = (entry.packets, &mut viewer.files.frames);
    gather(alloc, original, packets, &mut gathered, frames, output)?;
    let tally = &mut viewer.tally;
    tally.note_second(alloc, held.judged, entry, time, &gathered)?;
    viewer.second_count += 1;
    let shown = Shown {
        second: true,
        given: false,
        number: held.judged.number,
        time,
        link,
        octets,
        entry,
        before,
    };
    let (owed, printing) = (viewer.owed, &mut viewer.printing);
    note_line(alloc, &viewer.asked, shown, owed, gathered, printing)?;
    Ok(())
}
