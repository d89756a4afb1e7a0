//! Reads the report of a run to its end.
ghost use Rattle.std.specs.Prelude.{◌≡◌, ◌≤◌, length, map, IfErr, IfOk, IfSome};
ghost use Rattle.edge_io.specs.FaultCounts.{Rose};
ghost use Rattle.rule_book.specs.Entries.{plain};
ghost use Rattle.rule_book.specs.ReportReading.{HasFault, lines};
ghost use Rattle.rule_book.specs.declared.fault.LineFault.{LineFault};
ghost use Rattle.run_audit.specs.ReportFindings.{IsFinished, line_of_fault};
ghost use Rattle.run_audit.specs.working.ReportCauses.{WereLeft, WhyUnread};
ghost use Rattle.run_audit.specs.working.ReportCauses as spec;

use crate::Answer;
use edge_io::Source;
use rule_book::{Entry, Last, LineFault, read_report};
use std::alloc::Global;

/// The maximum length of a report, in octets.
const MAX_REPORT: usize = 67_108_864;

/// Reads the report of a finished run. Returns its entries.
pub(crate) fn entries_of<R: Source>(alloc: Global, source: &mut R) -> Result<Vec<Entry>, Answer>
    ensures finished { IfOk result (λ entries. IfSome (R.left source.old) (λ octets. IsFinished octets (map plain entries.items))) }
    ensures why { IfErr result (λ answer. WhyUnread (R.left source.old) (R.fault_count source.old) (R.fault_count source.new) answer) }
    ensures later { R.fault_count source.old ≤ R.fault_count source.new }
{
    let octets = read_whole(alloc, source)?;
    entries_in(alloc, octets.as_slice())
}

// Parses the report of a finished run. Returns its entries.
fn entries_in(alloc: Global, octets: &[u8]) -> Result<Vec<Entry>, Answer>
    requires { length octets.now ≤ 67108864 }
    ensures finished { IfOk result (λ entries. IsFinished octets.now (map plain entries.items)) }
    ensures why { IfErr result (λ answer. spec.WhyNone octets.now answer) }
{
    match read_report(alloc, octets) {
        Ok(report) => match report.last {
            Last::End { .. } => Ok(report.entries),
            Last::Stop { .. } => Err(Answer::Report {
                line: report.entries.len() as u64 + 2,
            }),
        },
        Err(fault) => Err(at_line(fault)),
    }
}

// Returns the answer to a fault of the report.
fn at_line(fault: LineFault) -> Answer
    ensures { result ≡ spec.fault_answer fault }
{
    match fault {
        LineFault::First => Answer::Report { line: 1 },
        LineFault::Shape(line) | LineFault::Number(line) => Answer::Report { line },
        LineFault::NoMemory => Answer::Memory,
    }
}

// Reads all octets that the source has left.
fn read_whole<R: Source>(alloc: Global, source: &mut R) -> Result<Vec<u8>, Answer>
    ensures whole { IfOk result (λ octets. WereLeft (R.left source.old) octets.items) }
    ensures small { IfOk result (λ octets. length octets.items ≤ 67108864) }
    ensures why { IfErr result (λ answer. WhyUnread (R.left source.old) (R.fault_count source.old) (R.fault_count source.new) answer) }
    ensures later { R.fault_count source.old ≤ R.fault_count source.new }
{
    let mut octets = Vec::new(alloc);
    let mut piece = [0u8; 4096];
    'pieces: loop {
        let Ok(count) = source.fetch(&mut piece) else {
            return Err(Answer::Unread);
        };
        if count == 0 {
            return Ok(octets);
        }
        if octets.len() + count > MAX_REPORT {
            return Err(Answer::Report { line: 0 });
        }
        octets.extend_from_slice(&piece[..count])?;
    }
}
