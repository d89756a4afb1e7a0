//! The form of a report.
ghost use Rattle.std.specs.Prelude.{◌≡◌, IfErr, IfOk, IfSome};
ghost use Rattle.std.specs.Io.KnownBytes.{Consumes};
ghost use Rattle.edge_io.specs.working.FaultCounts.{RisesOnlyAtErr};
ghost use Rattle.edge_io.specs.FaultCounts.{Rose};
ghost use Rattle.run_view.specs.working.LinesAhead.{left_in};
ghost use Rattle.run_view.specs.Forms as spec;
ghost use Rattle.run_view.specs.working.StopCauses.{IsNoFirst};
ghost use Rattle.run_view.specs.StopMeanings.{Says};

use crate::Stop;
use crate::line::Lines;
use edge_io::Source;

/// The form of a report, which its first line names.
#[derive(Clone, Copy, Debug, PartialEq, Eq)]
pub enum Form {
    /// Of one engine, in version 1.
    Version1,
    /// Of one engine, in version 2.
    Version2,
    /// Of two engines, in version 2.
    Both,
}

/// Reads the first line of the report, and returns its form.
pub(crate) fn read_form<R: Source>(lines: &mut Lines, report: &mut R) -> Result<Form, Stop>
    ensures stops { IfErr result (Says ⊥ (IfSome (left_in lines.old (R.left report.old)) IsNoFirst) ⊥ ⊥
        (Rose (R.fault_count report.old) (R.fault_count report.new)) ⊥) }
    ensures first { IfOk result (λ form. Consumes (left_in lines.old (R.left report.old)) (left_in lines.new (R.left report.new))
        (spec.heading form)) }
    ensures faults { RisesOnlyAtErr (R.fault_count report.old) (R.fault_count report.new) result }
{
    let Ok(()) = lines.next(report) else {
        return Err(Stop::Unread);
    };
    let text = lines.line();
    if text == b"norm 1\n".as_slice() {
        Ok(Form::Version1)
    } else if text == b"norm 2\n".as_slice() {
        Ok(Form::Version2)
    } else if text == b"norm 2 both\n".as_slice() {
        Ok(Form::Both)
    } else {
        Err(Stop::Report(1))
    }
}

/// Returns the version of the lines of entries.
pub(crate) fn version_of(form: Form) -> u8
    ensures { result ≡ spec.version_of form }
{
    match form {
        Form::Version1 => 1,
        Form::Version2 | Form::Both => 2,
    }
}

/// Returns whether it has lines of a second engine.
pub(crate) fn is_both(form: Form) -> bool
    ensures { result ≡ spec.is_both form }
{
    match form {
        Form::Version1 | Form::Version2 => false,
        Form::Both => true,
    }
}

/// Returns how many of the frames that a line of the first engine names are in the output.
pub(crate) fn own_frames(form: Form, packets: u8) -> u8
    ensures { result ≡ spec.own_frames form packets }
{
    match form {
        Form::Version1 | Form::Version2 => packets,
        Form::Both => 0,
    }
}

/// Returns how many lines of a second engine follow a line of the first that names this number of
/// frames.
pub(crate) fn answers(form: Form, packets: u8) -> u8
    ensures { result ≡ spec.answers form packets }
{
    match form {
        Form::Version1 | Form::Version2 => 0,
        Form::Both => packets,
    }
}
