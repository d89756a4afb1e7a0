//! What a line says of the record and of its frames.
ghost use Rattle.std.specs.Prelude.{◌≡◌, ◌==◌, ◌&&◌, ◌||◌, None};
ghost use Rattle.rule_book.specs.Entries.{plain};
ghost use Rattle.run_view.specs.Items.{is_passed};
ghost use Rattle.run_view.specs.LineJudgments as spec;
ghost use Rattle.run_view.specs.working.FirstJudgment as working;

use crate::chosen::is_among;
use frame_view::Made;
use rule_book::{Entry, Rule, Verdict};
use wire_base::Side;

/// What the first engine said of a record, as far as lines of the second need it.
#[derive(Clone, Copy)]
pub(crate) struct Judged {
    pub(crate) number: u32,
    pub(crate) side: Option<Side>,
    pub(crate) era: Option<u32>,
    pub(crate) passed: bool,
    /// It was dropped: what was written for it is a probe.
    pub(crate) dropped: bool,
    /// A probe is the last of what was written for it.
    pub(crate) probe: bool,
    /// It completed a datagram, which was written in its place.
    pub(crate) datagram: bool,
}

/// Which frames of a line norm made itself.
#[derive(Clone, Copy)]
pub(crate) struct Kinds {
    /// How many frames the line names.
    pub(crate) packets: u8,
    /// The last of them is a probe.
    pub(crate) probe_last: bool,
    /// Each of them is a probe.
    pub(crate) probe: bool,
    /// Each of them is a datagram, or a part of one, where it is no probe.
    pub(crate) datagram: bool,
}

/// Returns what the first engine said of a record.
pub(crate) fn judged_by(entry: &Entry) -> Judged
    ensures { result ≡ working.judged_by (plain entry.now) }
{
    let passed = is_pass(entry.verdict);
    let dropped = is_drop(entry.verdict);
    let probe = names(entry, Rule::CProbe);
    let datagram = names(entry, Rule::FDone);
    Judged {
        number: entry.number,
        side: entry.side,
        era: entry.era,
        passed,
        dropped,
        probe,
        datagram,
    }
}

/// Returns which frames of a line norm made itself. Each is also a probe if `probe` is set, and a
/// datagram if `datagram` is.
pub(crate) fn kinds_by(entry: &Entry, probe: bool, datagram: bool) -> Kinds
    ensures { result ≡ spec.kinds_by (plain entry.now) probe datagram }
{
    let probe_last = names(entry, Rule::CProbe);
    let dropped = is_drop(entry.verdict);
    let done = names(entry, Rule::FDone);
    Kinds {
        packets: entry.packets,
        probe_last,
        probe: probe || dropped,
        datagram: datagram || done,
    }
}

/// Returns the same of a line of the second engine, before this number of others for the same
/// record.
pub(crate) fn second_kinds(entry: &Entry, judged: Judged, owed: u8) -> Kinds
    ensures { result ≡ spec.kinds_by (plain entry.now) (judged.dropped || (judged.probe && (owed == 0))) judged.datagram }
{
    let last = owed == 0;
    let probe = judged.dropped || (judged.probe && last);
    kinds_by(entry, probe, judged.datagram)
}

fn is_drop(verdict: Verdict) -> bool
    ensures { result ≡ spec.is_drop verdict }
{
    matches!(verdict, Verdict::Drop)
}

/// Returns whether the verdict is pass.
pub(crate) fn is_pass(verdict: Verdict) -> bool
    ensures { result ≡ spec.is_pass verdict }
{
    matches!(verdict, Verdict::Pass)
}

/// Returns whether a line of the first engine says that its frames are copies of the record: not
/// where they went to a second one.
pub(crate) fn is_passed_first(both: bool, entry: &Entry) -> bool
    ensures { result ≡ is_passed both (plain entry.now) None }
{
    let passed = is_pass(entry.verdict);
    !both && passed
}

/// Returns whether both engines report that the record passed.
pub(crate) fn is_passed_second(judged: Judged, entry: &Entry) -> bool
    ensures { result ≡ (judged.passed && spec.is_pass (plain entry.now).verdict) }
{
    let passed = is_pass(entry.verdict);
    judged.passed && passed
}

// Returns whether an entry names the rule.
fn names(entry: &Entry, rule: Rule) -> bool
    ensures { result ≡ spec.names rule (plain entry.now) }
{
    is_among(entry.rules.as_slice(), rule.number())
}

/// Returns what the frame of this number is, counted from 1, if norm made it itself.
pub(crate) fn made_at(kinds: Kinds, number: u32) -> Option<Made>
    ensures { result ≡ spec.made_at kinds number }
{
    let last = number == u32::from(kinds.packets);
    if kinds.probe || (kinds.probe_last && last) {
        Some(Made::Probe)
    } else if kinds.datagram {
        Some(Made::Datagram)
    } else {
        None
    }
}
