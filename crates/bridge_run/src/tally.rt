//! The counts of a load, entry by entry.
ghost use Rattle.std.specs.Prelude.{◌≡◌, ◌+◌, ◌<◌, ◌≤◌, ◌^◌, List, All, [], ◌∷◌, ◌++◌, length, map};
ghost use Rattle.std.specs.List.{list_any};
ghost use Rattle.rule_book.specs.declared.rule.Rule as rules;
ghost use Rattle.rule_book.specs.Entries.{plain};
ghost use Rattle.bridge_run.specs.Summary.{eras_of, is_same, rule_counts};
ghost use Rattle.bridge_run.specs.working.RuleCounts.{counted_once};

use arrayvec::ArrayVec;
use rule_book::{Entry, Rule};

/// A rule, and how often it was named.
#[derive(Clone, Copy, Default)]
pub struct RuleCount {
    pub rule: Rule,
    pub count: u64,
}

/// Counts of the records so far. Allocates no memory.
#[derive(Drop)]
pub struct Tally {
    /// Number of frames written.
    pub packets: u64,
    /// Number of eras that began.
    pub eras: u64,
    /// Each rule that was named, in the order of first use; there are 61 rules.
    pub rules: ArrayVec<RuleCount, 64>,
}

impl Tally {
    /// Creates a tally with all counts 0.
    pub fn new() -> Tally
        ensures packets { result.packets ≡ 0 }
        ensures eras { result.eras ≡ 0 }
        ensures rules { result.rules.items ≡ [] }
    {
        Tally {
            packets: 0,
            eras: 0,
            rules: ArrayVec::new(),
        }
    }

    /// Counts one more entry.
    pub fn add(&mut self, entry: &Entry)
        requires packets { self.old.packets + 255 < 2 ^ 64 }
        requires eras { self.old.eras + 1 < 2 ^ 64 }
        requires rules { (named : List rules.Rule) × (self.old.rules.items ≡ rule_counts named) × (length named + 16 < 2 ^ 64) }
        ensures packets { self.new.packets ≡ self.old.packets + entry.now.packets }
        ensures eras { self.new.eras ≡ self.old.eras + eras_of (plain entry.now) }
        ensures rules { (named : List rules.Rule) → self.old.rules.items ≡ rule_counts named →
            self.new.rules.items ≡ rule_counts (named ++ entry.now.rules.items) }
        ensures few { length entry.now.rules.items ≤ 16 }
    {
        self.packets += u64::from(entry.packets);
        if entry.begun.is_some() {
            self.eras += 1;
        }
        for rule in entry.rules.as_slice() {
            note(&mut self.rules, *rule);
        }
    }
}

// Counts one more use of a rule.
fn note(rows: &mut ArrayVec<RuleCount, 64>, rule: Rule)
    requires { (named : List rules.Rule) × (rows.old.items ≡ rule_counts named) × (length named + 1 < 2 ^ 64) }
    ensures { (named : List rules.Rule) → rows.old.items ≡ rule_counts named →
        rows.new.items ≡ rule_counts (named ++ rule ∷ []) }
{
    if !count_in(rows, rule) {
        rows.push(RuleCount { rule, count: 1 });
    }
}

// Counts the use in the element of the rule, if there is one, and returns whether there is.
fn count_in(rows: &mut [RuleCount], rule: Rule) -> bool
    requires { All (λ row. row.count + 1 < 2 ^ 64) rows.old }
    ensures rows { rows.new ≡ map (counted_once rule) rows.old }
    ensures found { result ≡ list_any (λ row. is_same row.rule rule) rows.old }
{
    let mut is_found = false;
    for row in rows.iter_mut() {
        is_found |= count_at(row, rule);
    }
    is_found
}

// Counts the use in this element if it is that of the rule, and returns whether it is.
fn count_at(row: &mut RuleCount, rule: Rule) -> bool
    requires { row.old.count + 1 < 2 ^ 64 }
    ensures row { row.new ≡ counted_once rule row.old }
    ensures same { result ≡ is_same row.old.rule rule }
{
    let is_its = row.rule.number() == rule.number();
    if is_its {
        row.count += 1;
    }
    is_its
}
