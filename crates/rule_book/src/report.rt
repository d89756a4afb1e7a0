//! A report, parsed from its text.
ghost use Rattle.std.specs.Prelude.{◌≡◌, ◌≢◌, ◌⊎◌, ◌↔◌, ◌<◌, [], ◌∷◌, length, IfErr, IfOk, List, ℕ, MatchOption, MatchResult};
ghost use Rattle.rule_book.specs.ReportReading.{PlainReport, HasFault, IsReport, IsVersion, lines, plain_report, text_of};
ghost use Rattle.rule_book.specs.working.ReportLines.{lines_of};
ghost use Rattle.rule_book.specs.Text.{first_line};
ghost use Rattle.rule_book.specs.declared.fault.LineFault.{LineFault};

use crate::found::{read_entry, read_last};
use crate::words::place_of;
use crate::{Entry, Last, LineFault};
use std::alloc::Global;

/// A report: an entry for each record, and the last line.
#[derive(Debug, Drop)]
pub struct Report {
    pub entries: Vec<Entry>,
    pub last: Last,
    /// 1 or 2. In version 2 each ended era has its octets, in version 1 none has.
    pub version: u8,
}

/// Parses a report of version 1 or 2. Does not compare the numbers in the last line with the
/// entries.
pub fn read_report(alloc: Global, bytes: &[u8]) -> Result<Report, LineFault>
    ensures ok { IfOk result (λ report. IsReport (plain_report report) × (bytes.now ≡ text_of (plain_report report))) }
    ensures read { (report : PlainReport) → IsReport report → bytes.now ≡ text_of report → MatchResult result (λ found. plain_report found ≡ report) (λ fault. fault ≡ LineFault.NoMemory) }

    // The first fault is returned, or that memory could not be allocated; the latter only if the
    // first line is right.
    ensures first { (result ≡ Err LineFault.First) ↔ HasFault (lines bytes.now) LineFault.First }
    ensures err { IfErr result (λ fault. (fault ≡ LineFault.NoMemory) ⊎ HasFault (lines bytes.now) fault) }
    ensures fault { (fault : LineFault) → HasFault (lines bytes.now) fault → MatchResult result (λ _. ⊥) (λ found. (found ≡ LineFault.NoMemory) ⊎ (found ≡ fault)) }
{
    let (version, rest) = behind_first(bytes).ok_or(LineFault::First)?;
    read_lines(alloc, version, rest)
}

/// Parses the first line. Returns its version and the octets after it, or None if it is malformed.
fn behind_first(bytes: &[u8]) -> Option<(u8, &[u8])>
    ensures { MatchOption result (HasFault (lines bytes.now) LineFault.First) (λ found. IsVersion found.0 × (lines bytes.now ≡ first_line found.0 ∷ lines found.1.now)) }
{
    let (first, rest) = next_line(bytes)?;
    if first == b"norm 1\n".as_slice() {
        Some((1, rest))
    } else if first == b"norm 2\n".as_slice() {
        Some((2, rest))
    } else {
        None
    }
}

/// Parses the lines after the first one, of a report of this version.
fn read_lines(alloc: Global, version: u8, text: &[u8]) -> Result<Report, LineFault>
    requires { IsVersion version }
    ensures ok { IfOk result (λ report. IsReport (plain_report report) × (first_line version ∷ lines text.now ≡ lines_of (plain_report report))) }
    ensures err { IfErr result (λ fault. (fault ≡ LineFault.NoMemory) ⊎ HasFault (first_line version ∷ lines text.now) fault) }
{
    let mut entries = Vec::new(alloc);
    let mut rest = text;
    let mut line = 2;
    loop {
        let (text, behind) = next_line(rest).ok_or(LineFault::Shape(line))?;
        if let Some(last) = read_last(text) {
            return if behind.is_empty() {
                Ok(Report {
                    version,
                    entries,
                    last,
                })
            } else {
                Err(LineFault::Shape(line + 1))
            };
        }
        let entry = read_entry(text, version).ok_or(LineFault::Shape(line))?;
        if u64::from(entry.number) + 1 != line {
            return Err(LineFault::Number(line));
        }
        entries.push(entry)?;
        rest = behind;
        line += 1;
    }
}

/// Splits off the next line with its line feed; without a line feed the line is all of the text.
/// Returns the line and the octets after it, or None if the text is empty.
fn next_line(text: &[u8]) -> Option<(&[u8], &[u8])>
    ensures { MatchOption result (text.now ≡ []) (λ parts. (lines text.now ≡ parts.0.now ∷ lines parts.1.now) × (length parts.1.now < length text.now)) }
{
    if text.is_empty() {
        return None;
    }
    let end = (place_of(text, b'\n') + 1).min(text.len());
    Some(text.split_at(end))
}
