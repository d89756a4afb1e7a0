//! The entry of a record, and its line.
ghost use Rattle.std.specs.Prelude.{◌≡◌, ◌+◌, ◌*◌, ◌≤◌, [], ◌∷◌, ◌++◌, length, take};
ghost use Rattle.std.specs.List.{flat_map};
ghost use Rattle.rule_book.specs.Entries.{IsOfVersion, plain};
ghost use Rattle.rule_book.specs.working.LineBuffers.{Adds};
ghost use Rattle.rule_book.specs.Text as text;
ghost use Rattle.rule_book.specs.working.LineFronts as text_working;
ghost use Rattle.rule_book.specs.declared.entry.Reason.{Reason};
ghost use Rattle.rule_book.specs.declared.entry.Verdict.{Verdict};

use crate::Rule;
use crate::line::Line;
use arrayvec::ArrayVec;
use wire_base::Side;

/// The verdict on a record.
#[derive(Clone, Copy, Debug, PartialEq, Eq)]
pub enum Verdict {
    /// Its frame is written unchanged.
    Pass,
    /// A rule changes what is written.
    Fix,
    /// It is held as a fragment until its datagram is complete.
    Hold,
    /// It is not written.
    Drop,
}

/// The reason why an era ended.
#[derive(Clone, Copy, Debug, Default, PartialEq, Eq)]
pub enum Reason {
    /// A RST went outwards.
    #[default]
    Reset,
    /// The table was full, and none of its octets waited for an acknowledgment.
    Evicted,
    /// Nothing was written in it for longer than the idle time of the settings.
    Idle,
    /// A new SYN began another era of its connection.
    Reopened,
}

/// An era that ended; its number counts from 1.
#[derive(Clone, Copy, Debug, Default, PartialEq, Eq)]
pub struct Ended {
    pub era: u32,
    pub reason: Reason,
    /// The number of offsets of its stream at which an octet was sent inwards. None in a report of
    /// version 1.
    pub octets: Option<u64>,
}

/// Most rules that an engine names for a record. With `--mtu` the entry may get two more: `ECut`
/// and `EMtu`.
pub const MAX_NAMED: usize = 14;

/// The entry of one record.
#[derive(Debug, Drop)]
pub struct Entry {
    /// The record's number, from 1.
    pub number: u32,
    /// The direction of its packet. None of ARP, and if a rule drops the record before the
    /// direction is known.
    pub side: Option<Side>,
    pub verdict: Verdict,
    /// The number of frames written for it.
    pub packets: u8,
    /// Its rules, in the order of the line.
    pub rules: ArrayVec<Rule, 16>,
    /// The era that its packet belongs to, if it belongs to one.
    pub era: Option<u32>,
    /// The era that it began, if it began one.
    pub begun: Option<u32>,
    /// The eras that ended before or with it, in the order of their ends.
    pub ended: ArrayVec<Ended, 4>,
}

impl Verdict {
    /// Returns the verdict of a word; None if the word is no verdict's.
    pub(crate) fn of_word(word: &[u8]) -> Option<Verdict>
        ensures { (verdict : Verdict) → word.now ≡ text.verdict_word verdict → result ≡ Some verdict }
    {
        match word {
            b"pass" => Some(Verdict::Pass),
            b"fix" => Some(Verdict::Fix),
            b"hold" => Some(Verdict::Hold),
            b"drop" => Some(Verdict::Drop),
            _ => None,
        }
    }
}

impl Reason {
    /// Returns the reason of a word; None if the word is no reason's.
    pub(crate) fn of_word(word: &[u8]) -> Option<Reason>
        ensures { (reason : Reason) → word.now ≡ text.reason_word reason → result ≡ Some reason }
    {
        match word {
            b"reset" => Some(Reason::Reset),
            b"evicted" => Some(Reason::Evicted),
            b"idle" => Some(Reason::Idle),
            b"reopened" => Some(Reason::Reopened),
            _ => None,
        }
    }
}

/// Writes the line of an entry, with its line feed, in version 2 of the report: each ended era has
/// its octets. Returns the length of the line in octets. It is not inlined at its calls, so that
/// the parts of a line are inlined in it.
#[inline(never)]
pub fn entry_line(entry: &Entry, buf: &mut [u8]) -> usize
    requires octets { IsOfVersion 2 (plain entry.now) }
    requires room { 400 ≤ length buf.old }
    ensures text { take result buf.new ≡ text.entry_text (plain entry.now) }
    ensures bound { result ≤ 376 }
{
    line_of(entry, buf)
}

/// Writes the line of an entry of either version, with its line feed. Returns its length in octets.
#[inline(always)]
pub(crate) fn line_of(entry: &Entry, buf: &mut [u8]) -> usize
    requires { 400 ≤ length buf.old }
    ensures text { take result buf.new ≡ text.entry_text (plain entry.now) }
    ensures bound { result ≤ 376 }
{
    let mut line = Line::new(buf);
    put_front(&mut line, entry);
    put_rules(&mut line, entry.rules.as_slice());
    put_era(&mut line, b'@', entry.era);
    put_era(&mut line, b'+', entry.begun);
    put_ended(&mut line, entry.ended.as_slice());
    line.octet(b'\n');
    line.len()
}

/// Writes the four words that every line begins with.
fn put_front(line: &mut Line<'_>, entry: &Entry)
    requires { line.old.len + 24 ≤ length line.old.buf.now }
    ensures same_buffer { line.new.buf.ghost_name ≡ line.old.buf.ghost_name }
    ensures adds { Adds line.old line.new (text_working.front_text (plain entry.now)) }
    ensures bound { line.new.len ≤ line.old.len + 23 }
{
    line.number(entry.number);
    put_side(line, entry.side);
    put_verdict(line, entry.verdict);
    line.small_number(entry.packets);
}

/// Writes the word for a side between two spaces. A constant text of 4 octets is written by one
/// store, so ` out ` is written as 4 octets and 1.
fn put_side(line: &mut Line<'_>, side: Option<Side>)
    requires { line.old.len + 5 ≤ length line.old.buf.now }
    ensures same_buffer { line.new.buf.ghost_name ≡ line.old.buf.ghost_name }
    ensures adds { Adds line.old line.new (text.part (text.side_word side) ++ 32 ∷ []) }
    ensures bound { line.new.len ≤ line.old.len + 5 }
{
    match side {
        Some(Side::Inward) => line.text(" in "),
        Some(Side::Outward) => {
            line.text(" out");
            line.octet(b' ');
        }
        None => line.text(" - "),
    }
}

/// Writes the word for a verdict and a space.
fn put_verdict(line: &mut Line<'_>, verdict: Verdict)
    requires { line.old.len + 5 ≤ length line.old.buf.now }
    ensures same_buffer { line.new.buf.ghost_name ≡ line.old.buf.ghost_name }
    ensures adds { Adds line.old line.new (text.verdict_word verdict ++ 32 ∷ []) }
    ensures bound { line.new.len ≤ line.old.len + 5 }
{
    match verdict {
        Verdict::Pass => line.text("pass"),
        Verdict::Fix => line.text("fix"),
        Verdict::Hold => line.text("hold"),
        Verdict::Drop => line.text("drop"),
    }
    line.octet(b' ');
}

/// Writes `:` and the word for the reason why an era ended.
fn put_reason(line: &mut Line<'_>, reason: Reason)
    requires { line.old.len + 9 ≤ length line.old.buf.now }
    ensures same_buffer { line.new.buf.ghost_name ≡ line.old.buf.ghost_name }
    ensures adds { Adds line.old line.new (58 ∷ text.reason_word reason) }
    ensures bound { line.new.len ≤ line.old.len + 9 }
{
    match reason {
        Reason::Reset => line.text(":reset"),
        Reason::Evicted => line.text(":evicted"),
        Reason::Idle => line.text(":idle"),
        Reason::Reopened => line.text(":reopened"),
    }
}

/// Writes the name of each rule.
fn put_rules(line: &mut Line<'_>, rules: &[Rule])
    requires { line.old.len + 10 * length rules.now ≤ length line.old.buf.now }
    ensures same_buffer { line.new.buf.ghost_name ≡ line.old.buf.ghost_name }
    ensures adds { Adds line.old line.new (text.rule_parts rules.now) }
    ensures bound { line.new.len ≤ line.old.len + 10 * length rules.now }
{
    for rule in rules {
        line.part(rule.name());
    }
}

/// Writes a mark and the number of an era, if there is an era.
fn put_era(line: &mut Line<'_>, mark: u8, era: Option<u32>)
    requires { line.old.len + 12 ≤ length line.old.buf.now }
    ensures same_buffer { line.new.buf.ghost_name ≡ line.old.buf.ghost_name }
    ensures adds { Adds line.old line.new (text.era_part mark era) }
    ensures bound { line.new.len ≤ line.old.len + 12 }
{
    if let Some(number) = era {
        line.octet(b' ');
        line.octet(mark);
        line.number(number);
    }
}

/// Writes the ended eras.
fn put_ended(line: &mut Line<'_>, eras: &[Ended])
    requires { line.old.len + 42 * length eras.now ≤ length line.old.buf.now }
    ensures same_buffer { line.new.buf.ghost_name ≡ line.old.buf.ghost_name }
    ensures adds { Adds line.old line.new (flat_map text.ended_part eras.now) }
    ensures bound { line.new.len ≤ line.old.len + 42 * length eras.now }
{
    for ended in eras {
        put_end(line, *ended);
    }
}

/// Writes an ended era: its number, the reason and, if it has them, its octets.
fn put_end(line: &mut Line<'_>, ended: Ended)
    requires { line.old.len + 42 ≤ length line.old.buf.now }
    ensures same_buffer { line.new.buf.ghost_name ≡ line.old.buf.ghost_name }
    ensures adds { Adds line.old line.new (text.ended_part ended) }
    ensures bound { line.new.len ≤ line.old.len + 42 }
{
    line.octet(b' ');
    line.octet(b'-');
    line.number(ended.era);
    put_reason(line, ended.reason);
    put_octets(line, ended.octets);
}

/// Writes `:` and the octets of an ended era, if it has them.
fn put_octets(line: &mut Line<'_>, octets: Option<u64>)
    requires { line.old.len + 21 ≤ length line.old.buf.now }
    ensures same_buffer { line.new.buf.ghost_name ≡ line.old.buf.ghost_name }
    ensures adds { Adds line.old line.new (text.octets_part octets) }
    ensures bound { line.new.len ≤ line.old.len + 21 }
{
    if let Some(number) = octets {
        line.octet(b':');
        line.long_number(number);
    }
}
