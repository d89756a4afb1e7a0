//! What is counted over a run.

use crate::compare::Original;
use crate::eras::{Eras, Told, add_record, begin, bring, end_all, from_outside};
use crate::item::{Gathered, Wants};
use crate::judged::Judged;
use edge_io::NoMemory;
use indexmap::IndexMap;
use rule_book::{Ended, Entry, Reason, Rule, Verdict};
use run_notes::{NotedLine, Notes};
use std::alloc::Global;
use view_text::{EraCounts, Opened, RuleCount, Sides};
use wire_base::Side;

/// What is known of a run so far.
#[derive(Drop)]
pub(crate) struct Tally {
    /// How many entries of the first engine have each verdict, by side.
    pub(crate) sides: Sides,
    /// The same of the second engine.
    pub(crate) second_sides: Sides,
    /// How many entries name each rule, by side, in the order in which they are named first.
    pub(crate) rules: Vec<RuleCount>,
    /// The eras of the first engine.
    pub(crate) eras: Eras,
    /// The eras of the second engine.
    pub(crate) second_eras: Eras,
    /// What is counted for the notes.
    pub(crate) notes: Notes,
}

impl Tally {
    /// Returns that nothing is known.
    pub(crate) fn new(alloc: Global) -> Tally {
        Tally {
            sides: Sides::default(),
            second_sides: Sides::default(),
            rules: Vec::new(alloc),
            eras: IndexMap::new(alloc),
            second_eras: IndexMap::new(alloc),
            notes: Notes::new(alloc),
        }
    }

    /// Counts a line of the first engine, by the time of its record, in nanoseconds since 1970, and
    /// what was gathered of its frames.
    pub(crate) fn note(
        &mut self,
        alloc: Global,
        original: Original<'_>,
        entry: &Entry,
        time: u64,
        gathered: &Gathered,
    ) -> Result<(), NoMemory> {
        self.notes.take(NotedLine {
            link: original.link,
            octets: original.octets,
            entry,
        })?;
        add_to_side(&mut self.sides, entry.side, entry.verdict);
        count_rules(&mut self.rules, entry.side, entry.rules.as_slice())?;
        note_eras(alloc, &mut self.eras, false, entry, time, gathered)
    }

    /// Counts a line of the second engine, for a record of which the first said this.
    pub(crate) fn note_second(
        &mut self,
        alloc: Global,
        judged: Judged,
        entry: &Entry,
        time: u64,
        gathered: &Gathered,
    ) -> Result<(), NoMemory> {
        add_to_side(&mut self.second_sides, entry.side, entry.verdict);
        count_rules(&mut self.rules, entry.side, entry.rules.as_slice())?;
        let octets = if_inward(judged.side, gathered.octets);
        bring(alloc, &mut self.eras, judged.era, octets)?;
        note_eras(alloc, &mut self.second_eras, true, entry, time, gathered)
    }
}

/// Returns what is needed of a line, whose record belongs to this era of the first engine.
pub(crate) fn wants_of(first: Option<u32>, entry: &Entry) -> Wants {
    let of_era = first.is_some() || entry.era.is_some() || entry.begun.is_some();
    Wants {
        flow: entry.begun.is_some(),
        octets: of_era,
    }
}

// Returns a count of what goes inwards.
fn if_inward(side: Option<Side>, count: u64) -> u64 {
    match side {
        Some(Side::Inward) => count,
        Some(Side::Outward) | None => 0,
    }
}

// Notes what an entry by an engine says of eras.
#[inline(always)]
fn note_eras(
    alloc: Global,
    eras: &mut Eras,
    second: bool,
    entry: &Entry,
    time: u64,
    gathered: &Gathered,
) -> Result<(), NoMemory> {
    if entry.era.is_none() && entry.begun.is_none() && entry.ended.is_empty() {
        return Ok(());
    }
    let told = Told {
        time,
        octets: if_inward(entry.side, gathered.octets),
        rules: entry.rules.as_slice(),
    };
    add_record(alloc, eras, entry.era, told)?;
    let outside = from_outside(second, entry.side);
    begin(alloc, eras, entry.begun, outside, gathered.flow)?;
    end_all(alloc, eras, entry.ended.as_slice())
}

// Adds one to a count.
fn add_one(count: &mut u64) {
    *count = count.saturating_add(1);
}

// Adds one with this verdict on this side.
#[inline(always)]
fn add_to_side(sides: &mut Sides, side: Option<Side>, verdict: Verdict) {
    let counts = match side {
        Some(Side::Inward) => &mut sides.inward,
        Some(Side::Outward) => &mut sides.outward,
        None => &mut sides.neither,
    };
    add_one(match verdict {
        Verdict::Pass => &mut counts.pass,
        Verdict::Fix => &mut counts.fix,
        Verdict::Hold => &mut counts.hold,
        Verdict::Drop => &mut counts.drop,
    });
}

// Counts a line of this side that names these rules.
fn count_rules(
    counts: &mut Vec<RuleCount>,
    side: Option<Side>,
    rules: &[Rule],
) -> Result<(), NoMemory> {
    for rule in rules {
        count_rule(counts, side, *rule)?;
    }
    Ok(())
}

// Counts a line of this side that names this rule.
fn count_rule(counts: &mut Vec<RuleCount>, side: Option<Side>, rule: Rule) -> Result<(), NoMemory> {
    for count in counts.iter_mut() {
        if count.rule == rule {
            add_line(count, side);
            return Ok(());
        }
    }
    let mut count = RuleCount {
        rule,
        inward: 0,
        outward: 0,
        neither: 0,
    };
    add_line(&mut count, side);
    counts.push(count)?;
    Ok(())
}

// Adds a line of this side to a count.
fn add_line(count: &mut RuleCount, side: Option<Side>) {
    match side {
        Some(Side::Inward) => add_one(&mut count.inward),
        Some(Side::Outward) => add_one(&mut count.outward),
        None => add_one(&mut count.neither),
    }
}

/// Counts the eras of both engines by how they were opened and ended.
pub(crate) fn era_counts(tally: &Tally) -> EraCounts {
    let mut counts = EraCounts::default();
    add_eras(&mut counts, &tally.eras);
    add_eras(&mut counts, &tally.second_eras);
    counts
}

// Counts the eras of a table.
fn add_eras(counts: &mut EraCounts, eras: &Eras) {
    for (_, row) in eras {
        add_one(&mut counts.all);
        add_end(counts, row.ended);
        if let Some(opened) = row.opened {
            add_opened(counts, opened);
        }
    }
}

fn add_end(counts: &mut EraCounts, ended: Option<Ended>) {
    add_one(match ended {
        None => &mut counts.live,
        Some(ended) => match ended.reason {
            Reason::Reset => &mut counts.reset,
            Reason::Evicted => &mut counts.evicted,
            Reason::Idle => &mut counts.idle,
            Reason::Reopened => &mut counts.reopened,
        },
    });
}

fn add_opened(counts: &mut EraCounts, opened: Opened) {
    add_one(match opened {
        Opened::In => &mut counts.opened_in,
        Opened::Out => &mut counts.opened_out,
        Opened::Mid => &mut counts.opened_mid,
    });
}
