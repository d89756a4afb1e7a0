//! What becomes of a segment, and what it does to the eras.
ghost use Rattle.std.specs.Prelude.{◌≤◌, length, ◌≡◌, IfSome, None, Some, false};
ghost use Rattle.rule_book.specs.declared.entry.Reason.TheVariants as reasons;

use era_state::{Interval, Probe};
use ip_rules::Fixes;
use linked_table::Slot;
use rule_book::{Ended, Reason, Rule};

/// A segment that this rule drops, with the number of its live era and the probe that is sent
/// instead.
#[derive(Clone, Copy)]
pub(crate) struct Refusal {
    pub(crate) rule: Rule,
    pub(crate) era: Option<u32>,
    pub(crate) probe: Option<Probe>,
}

/// A segment that passes: what it does to the eras, the rules that rewrite it, and the probe that
/// is sent after it. If it is rewritten, also its sequence number, whether its FIN stays and the
/// number of its octets, which are at the front of the scratch.
#[derive(Drop)]
pub(crate) struct Passage {
    pub(crate) step: Step,
    pub(crate) rows: Fixes,
    pub(crate) seq: u32,
    pub(crate) fin: bool,
    pub(crate) size: usize,
    pub(crate) probe: Option<Probe>,
    ghost few: { length rows.items ≤ 9 },
}

/// A segment that belongs to no era, of which only a probe to its host is sent, and the rules that
/// hold.
#[derive(Drop)]
pub(crate) struct Question {
    pub(crate) rows: Fixes,
    pub(crate) probe: Probe,
    ghost few: { length rows.items ≤ 9 },
}

/// What becomes of a segment: the value of a decision, which is reported and sent where it is made
/// (`carry_out`). One that is dropped with no probe, or passes as it was read, needs none.
#[derive(Drop)]
pub(crate) enum Ruling {
    Drop(Refusal),
    Pass(Passage),
    Ask(Question),
}

/// The octets of an interval that an era takes of a segment of the stream. They are the segment's
/// own if it is sent as it was read, and otherwise as many at the front of the scratch. If `whole`,
/// the store has an octet at each of their offsets.
#[derive(Clone, Copy)]
pub(crate) struct Taking<'a> {
    pub(crate) kept: Interval,
    pub(crate) own: &'a [u8],
    pub(crate) as_read: bool,
    pub(crate) whole: bool,
}

/// The era that the datagram belongs to, the one that it began, the one that ended with it, and
/// whether T_FULL holds.
#[derive(Clone, Copy)]
pub struct Step {
    pub era: Option<u32>,
    pub begun: Option<u32>,
    pub ended: Option<Ended>,
    pub full: bool,
}

/// Where an era can begin: in a free slot, or in the slot of the era that ends for it.
#[derive(Clone, Copy)]
pub(crate) enum Room {
    Free,
    Spare(Slot),
}

/// The number of an era that begins, and the one that ended to make room for it, if one did.
#[derive(Clone, Copy)]
pub struct Place {
    pub begun: u32,
    pub evicted: Option<Ended>,
}

impl Step {
    ghost use Rattle.tcp_norm.specs.working.EraSteps.{began};

    // Returns the step of a segment that begins an era.
    pub(crate) fn begun(place: Place) -> Step
        ensures { result ≡ began place }
    {
        Step {
            era: Some(place.begun),
            begun: Some(place.begun),
            ended: place.evicted,
            full: false,
        }
    }

    // Returns the step of a segment that continues this era.
    pub(crate) fn within(number: u32) -> Step
        ensures { result ≡ record { era = Some number; begun = None; ended = None; full = false } }
    {
        Step {
            era: Some(number),
            begun: None,
            ended: None,
            full: false,
        }
    }

    // Returns the step of a segment that belongs to no era.
    pub(crate) fn outside(full: bool) -> Step
        ensures { result ≡ record { era = None; begun = None; ended = None; full = full } }
    {
        Step {
            era: None,
            begun: None,
            ended: None,
            full,
        }
    }

    // Returns the step of a segment that ends this era, which had this number of octets.
    pub(crate) fn reset(number: u32, octets: u64) -> Step
        ensures { result ≡ record { era = Some number; begun = None; ended = Some (record { era = number; reason = reasons.Reset; octets = Some octets }); full = false } }
    {
        Step {
            era: Some(number),
            begun: None,
            ended: Some(Ended {
                era: number,
                reason: Reason::Reset,
                octets: Some(octets),
            }),
            full: false,
        }
    }

    // Returns the step of a segment that begins this era and ends the one before, which had this
    // number of octets.
    pub(crate) fn reopened(number: u32, before: u32, octets: u64) -> Step
        ensures { result ≡ record { era = Some number; begun = Some number; ended = Some (record { era = before; reason = reasons.Reopened; octets = Some octets }); full = false } }
    {
        Step {
            era: Some(number),
            begun: Some(number),
            ended: Some(Ended {
                era: before,
                reason: Reason::Reopened,
                octets: Some(octets),
            }),
            full: false,
        }
    }
}
