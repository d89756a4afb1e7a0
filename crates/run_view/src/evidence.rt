//! What the records show that are chosen as evidence.

use crate::chosen::{is_among, is_evidence, is_outward};
use crate::show::Shown;
use edge_io::NoMemory;
use frame_view::Change;
use rule_book::{Entry, Rule, Verdict};
use run_notes::{Clash, Firsts, NotedLine};
use std::alloc::Global;
use std::mem;
use view_text::EvidenceCounts;

/// How many of the records that were chosen are of each class, the class of the newest, and which
/// records first sent the octets that differ in it.
#[derive(Drop)]
pub(crate) struct Evidence {
    pub(crate) counts: EvidenceCounts,
    /// A line of the newest record that is not outbound names T_CLASH or F_CLASH.
    clashes: bool,
    /// All lines of the newest record that are evidence drop a segment under T_COLD or T_FLAGS.
    is_stray: bool,
    firsts: Firsts,
    /// The record that first sent each run of octets that the frames of the newest line replace.
    replaced: Vec<Option<u32>>,
    /// The octets in which the newest line's fragment differs from those held.
    clash: Option<Clash>,
}

impl Evidence {
    /// Returns that no record was chosen.
    pub(crate) fn new(alloc: Global) -> Evidence {
        Evidence {
            counts: EvidenceCounts::default(),
            clashes: false,
            is_stray: true,
            firsts: Firsts::new(alloc),
            replaced: Vec::new(alloc),
            clash: None,
        }
    }

    /// Takes a line of the newest record with what differs in its frames; a line of the first
    /// engine begins a record.
    pub(crate) fn take(
        &mut self,
        alloc: Global,
        shown: Shown<'_>,
        changes: &[Change],
    ) -> Result<(), NoMemory> {
        let entry = shown.entry;
        self.class_line(shown.second, entry);
        self.clash = None;
        if !shown.second {
            let line = NotedLine {
                link: shown.link,
                octets: shown.octets,
                entry,
            };
            self.clash = self.firsts.take(alloc, line)?;
        }
        if !shown.given {
            self.replaced = self.firsts.wrote(alloc, shown.second, entry, changes)?;
        }
        Ok(())
    }

    // Takes what a line says of the class of its record.
    fn class_line(&mut self, second: bool, entry: &Entry) {
        if !second {
            self.clashes = false;
            self.is_stray = true;
        }
        if !is_outward(entry.side) && names_clash(entry) {
            self.clashes = true;
        }
        if is_evidence(entry) && !drops_stray(entry) {
            self.is_stray = false;
        }
    }

    /// Counts the newest record, which is chosen and has this number of octets of payload.
    pub(crate) fn count(&mut self, length: u64) {
        let counts = &mut self.counts;
        if self.clashes {
            counts.contradictions = counts.contradictions.saturating_add(1);
        } else if self.is_stray && length == 0 {
            counts.noise = counts.noise.saturating_add(1);
        } else {
            counts.differs = counts.differs.saturating_add(1);
        }
    }

    /// Returns the records that first sent what the newest line replaces, and gives them away.
    pub(crate) fn replaced(&mut self, alloc: Global) -> Vec<Option<u32>> {
        mem::replace(&mut self.replaced, Vec::new(alloc))
    }

    /// Returns in what the newest line's fragment differs from those held, and gives it away.
    pub(crate) fn clash(&mut self) -> Option<Clash> {
        self.clash.take()
    }
}

// Returns whether a line names T_CLASH or F_CLASH.
fn names_clash(entry: &Entry) -> bool {
    let rules = entry.rules.as_slice();
    is_among(rules, Rule::TClash.number()) || is_among(rules, Rule::FClash.number())
}

// Returns whether a line drops a segment by T_COLD or T_FLAGS.
fn drops_stray(entry: &Entry) -> bool {
    let rules = entry.rules.as_slice();
    let stray = is_among(rules, Rule::TCold.number()) || is_among(rules, Rule::TFlags.number());
    matches!(entry.verdict, Verdict::Drop) && stray
}
