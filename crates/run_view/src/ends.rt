//! The ends of the three files and of the output.
ghost use Rattle.std.specs.Prelude.{◌≡◌, List, ℕ, IfErr, OnOk};
ghost use Rattle.std.specs.declared.option.Option.{Option};
ghost use Rattle.edge_io.specs.working.FaultCounts.{RisesOnlyAtErr};
ghost use Rattle.pcap_file.specs.declared.head.Head.{Head};
ghost use Rattle.run_view.specs.working.LinesAhead.{left_in};
ghost use Rattle.run_view.specs.ShownEvents.{Event};
ghost use Rattle.run_view.specs.working.SourceContents.{AreOver};
ghost use Rattle.run_view.specs.working.LineProgress.{EndStop, HasEnded};
ghost use Rattle.run_view.specs.RunFiles.{counts_of, sources_of};
ghost use Rattle.run_view.specs.working.ViewerProgress.{Closes, Ends, MayTake, ends_of};

use crate::Stop;
use crate::sources::{next_frame, next_record};
use crate::viewer::Viewer;
use edge_io::Source;

/// Checks that nothing is left of the three files.
pub(crate) fn check_ends<I: Source, O: Source, R: Source>(
    viewer: &mut Viewer,
    input: &mut I,
    output: &mut O,
    report: &mut R,
) -> Result<(), Stop>
    requires may { MayTake viewer.old }
    ensures over { OnOk result ((head : Head) (before : Ends) (shown : Option (List Event)) (told left : Option (List ℕ)) →
        (ended : HasEnded viewer.old head before (ends_of (I.left input.old) (O.left output.old) shown) told left
        (left_in viewer.old.lines (R.left report.old))) →
        AreOver (sources_of before.read before.written told) viewer.old.files.head head ended.going.items left) }
    ensures stops { IfErr result (λ stop. (out : ℕ) →
        EndStop viewer.old (I.left input.old) (O.left output.old) (left_in viewer.old.lines (R.left report.old))
        (counts_of (I.fault_count input.old) (O.fault_count output.old) (R.fault_count report.old) out)
        (counts_of (I.fault_count input.new) (O.fault_count output.new) (R.fault_count report.new) out) stop) }
    ensures same { OnOk result (Closes viewer.old viewer.new) }
    ensures input_faults { RisesOnlyAtErr (I.fault_count input.old) (I.fault_count input.new) result }
    ensures output_faults { RisesOnlyAtErr (O.fault_count output.old) (O.fault_count output.new) result }
    ensures report_faults { RisesOnlyAtErr (R.fault_count report.old) (R.fault_count report.new) result }
{
    let Ok(more) = viewer.lines.goes_on(report) else {
        return Err(Stop::Unread);
    };
    if more {
        return Err(Stop::Report(viewer.files.count + viewer.second_count + 3));
    }
    let buffer = &mut viewer.files.buffer[..];
    if let Some(_) = next_record(&mut viewer.files.input, input, buffer)? {
        return Err(Stop::Record(viewer.files.count + 1));
    }
    let frames = &mut viewer.files.frames;
    if let Some(_) = next_frame(&mut frames.reader, output, &mut frames.buffer[..])? {
        return Err(Stop::Frame(frames.count + 1));
    }
    Ok(())
}
