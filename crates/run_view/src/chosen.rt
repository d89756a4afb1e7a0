//! Which records are chosen.
ghost use Rattle.std.specs.Prelude.{◌≡◌, ◌<◌};
ghost use Rattle.rule_book.specs.Entries.{plain};
ghost use Rattle.run_view.specs.ChosenRecords as spec;
ghost use Rattle.run_view.specs.LineJudgments.{is_among as is_among_these};
ghost use Rattle.run_view.specs.Items.{flow_at as flow_there};
ghost use Rattle.wire_base.specs.Prefixes as prefixes;

use crate::compare::flow_at;
use crate::judged::is_pass;
use crate::values::{Names, side_place, verdict_place};
use crate::words::{Asked, EraAsked, Print};
use frame_view::Flow;
use rule_book::{Ended, Entry, Rule};
use wire_base::{Addr, Link, Prefix, Side};

/// Which conditions the lines of a record meet; a condition that is not given is met.
#[derive(Clone, Copy)]
pub(crate) struct Meets {
    pub(crate) rule: bool,
    pub(crate) era: bool,
    pub(crate) verdict: bool,
    pub(crate) side: bool,
    pub(crate) host: bool,
    pub(crate) evidence: bool,
}

/// Returns whether a condition is given.
pub(crate) fn has_choice(asked: &Asked) -> bool
    ensures { result ≡ spec.has_choice asked.now }
{
    asked.rules.is_some()
        || asked.era.is_some()
        || asked.verdicts.is_some()
        || asked.sides.is_some()
        || asked.host.is_some()
        || asked.evidence
}

/// Returns whether records are chosen.
#[inline(always)]
pub(crate) fn chooses_records(asked: &Asked) -> bool
    ensures { result ≡ spec.chooses_records asked.now }
{
    match asked.print {
        Print::Text => has_choice(asked),
        Print::Json | Print::Records => true,
        Print::Eras | Print::Notes | Print::JsonNotes => false,
    }
}

/// Returns which conditions a line meets that has this entry by this engine, and a record of these
/// octets.
pub(crate) fn met_by(asked: &Asked, second: bool, entry: &Entry, link: Link, octets: &[u8]) -> Meets
    ensures { result ≡ spec.met_by asked.now second (plain entry.now) (flow_there link octets.now) }
{
    let side = is_listed(&asked.sides, side_place(entry.side));
    let host = has_host(asked.host, asked.evidence, link, octets);
    let evidence = is_evidence(entry);
    Meets {
        rule: names_rule(&asked.rules, entry.rules.as_slice()),
        era: names_era(asked.era, second, entry),
        verdict: is_listed(&asked.verdicts, verdict_place(entry.verdict)),
        side: !second && side,
        host: !second && host,
        evidence: !asked.evidence || evidence,
    }
}

/// Returns what one of two meets.
pub(crate) fn either(one: Meets, other: Meets) -> Meets
    ensures { result ≡ spec.either one other }
{
    Meets {
        rule: one.rule | other.rule,
        era: one.era | other.era,
        verdict: one.verdict | other.verdict,
        side: one.side | other.side,
        host: one.host | other.host,
        evidence: one.evidence | other.evidence,
    }
}

/// Returns that nothing is met.
pub(crate) fn nothing_met() -> Meets
    ensures { result ≡ spec.nothing_met }
{
    Meets {
        rule: false,
        era: false,
        verdict: false,
        side: false,
        host: false,
        evidence: false,
    }
}

/// Returns whether the conditions on the record are met.
pub(crate) fn meets_record(met: Meets) -> bool
    ensures { result ≡ spec.meets_record met }
{
    met.side && met.host
}

/// Returns whether all conditions are met.
pub(crate) fn meets_all(met: Meets) -> bool
    ensures { result ≡ spec.meets_all met }
{
    met.rule && met.era && met.verdict && met.evidence && meets_record(met)
}

// Returns whether the name at this place is among these, if names are given.
fn is_listed(names: &Option<Names>, place: u8) -> bool
    requires { place < 64 }
    ensures { result ≡ spec.is_listed names.now place }
{
    match names {
        Some(names) => names[usize::from(place)],
        None => true,
    }
}

// Returns whether one of the rules is among these, if rules are given.
fn names_rule(names: &Option<Names>, rules: &[Rule]) -> bool
    ensures { result ≡ spec.names_rule names.now rules.now }
{
    match names {
        Some(names) => names_one(names, rules),
        None => true,
    }
}

// Returns whether one of the rules is among these.
fn names_one(names: &Names, rules: &[Rule]) -> bool
    ensures { result ≡ spec.names_one names.now rules.now }
{
    for rule in rules {
        if names[usize::from(rule.number())] {
            return true;
        }
    }
    false
}

/// Returns whether the rule with this number is among these.
pub(crate) fn is_among(rules: &[Rule], number: u8) -> bool
    ensures { result ≡ is_among_these rules.now number }
{
    for rule in rules {
        if rule.number() == number {
            return true;
        }
    }
    false
}

// Returns whether a line is one of the engine of the era, and its entry belongs to the era, began
// it or ended it, if an era is given.
fn names_era(era: Option<EraAsked>, second: bool, entry: &Entry) -> bool
    ensures { result ≡ spec.names_era era second (plain entry.now) }
{
    let Some(era) = era else {
        return true;
    };
    let own = if second { era.second } else { !era.second };
    let belongs = is_number(entry.era, era.number);
    let began = is_number(entry.begun, era.number);
    let over = has_ended(entry.ended.as_slice(), era.number);
    own && (belongs || began || over)
}

fn is_number(own: Option<u32>, number: u32) -> bool
    ensures { result ≡ spec.is_number own number }
{
    match own {
        Some(own) => own == number,
        None => false,
    }
}

// Returns whether the era is among these.
fn has_ended(ended: &[Ended], era: u32) -> bool
    ensures { result ≡ spec.has_ended ended.now era }
{
    ended.iter().any(|one| one.era == era)
}

// Returns whether source or destination of a record is in the prefix, if one is given; for a record
// whose IPv4 header cannot be read, whether such records count.
fn has_host(host: Option<Prefix>, unreadable: bool, link: Link, octets: &[u8]) -> bool
    ensures { result ≡ spec.has_host host unreadable (flow_there link octets.now) }
{
    match host {
        Some(prefix) => match flow_at(link, octets) {
            Some(flow) => is_of(prefix, flow),
            None => unreadable,
        },
        None => true,
    }
}

fn is_of(prefix: Prefix, flow: Flow) -> bool
    ensures { result ≡ spec.is_of prefix flow }
{
    holds(prefix, flow.src) || holds(prefix, flow.dst)
}

/// Returns whether a line is inbound or has no side, and is not `pass`.
pub(crate) fn is_evidence(entry: &Entry) -> bool
    ensures { result ≡ spec.is_evidence (plain entry.now) }
{
    let passed = is_pass(entry.verdict);
    !is_outward(entry.side) && !passed
}

/// Returns whether the side is outward.
pub(crate) fn is_outward(side: Option<Side>) -> bool
    ensures { result ≡ spec.is_outward side }
{
    matches!(side, Some(Side::Outward))
}

// Returns whether the first bits of the address are those of the prefix.
fn holds(prefix: Prefix, addr: Addr) -> bool
    ensures { result ≡ prefixes.holds prefix addr.0 }
{
    let shift = u32::from(32_u8.saturating_sub(prefix.len));
    u64::from(prefix.addr.0) >> shift == u64::from(addr.0) >> shift
}
