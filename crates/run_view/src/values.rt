//! The values of the options of a view.
ghost use Rattle.std.specs.Prelude.{◌≡◌, ◌≤◌, ◌<◌, ◌==◌, codes, length, option_map, IfSome, if◌then◌else◌};
ghost use Rattle.std.specs.List.{list_any, position_or_len};
ghost use Rattle.norm_settings.specs.OptionTable.{number_within as number_that_is_within};
ghost use Rattle.rule_book.specs.Rules.{rule_named as rule_of_name, rule_number};
ghost use Rattle.run_view.specs.ChosenRecords.{side_place, verdict_place};
ghost use Rattle.run_view.specs.ViewWords as spec;
ghost use Rattle.wire_base.specs.Prefixes as prefixes;

use crate::words::{Choice, EraAsked, Print, after_front};
use norm_settings::number_within;
use rule_book::{Rule, Verdict};
use wire_base::{Addr, Prefix, PrefixFault, Side, read_number};

/// How many places there are for names: more than the greatest number of a rule.
pub(crate) const PLACES: usize = 64;

/// The names of a list, each by its place: a rule has its number, verdicts and sides have
/// `verdict_place` and `side_place`.
pub type Names = [bool; PLACES];

/// Returns the place of a verdict in a list.
pub(crate) fn verdict_place(verdict: Verdict) -> u8
    ensures { result ≡ verdict_place verdict }
{
    match verdict {
        Verdict::Pass => 0,
        Verdict::Fix => 1,
        Verdict::Hold => 2,
        Verdict::Drop => 3,
    }
}

/// Returns the place of a side in a list.
pub(crate) fn side_place(side: Option<Side>) -> u8
    ensures { result ≡ side_place side }
{
    match side {
        Some(Side::Inward) => 0,
        Some(Side::Outward) => 1,
        None => 2,
    }
}

/// Returns the names of a list, between commas; None if one is invalid or occurs twice.
pub(crate) fn listed(choice: Choice, value: &[u8]) -> Option<Names>
    ensures { result ≡ spec.listed choice value.now }
{
    let mut names = [false; PLACES];
    let mut start = 0;
    'items: while start <= value.len() {
        let rest = &value[start..];
        let end = place_of(rest, b',');
        names = with_place(names, place_named(choice, &rest[..end]))?;
        start += end + 1;
    }
    Some(names)
}

// Returns the offset of the first octet with this value, or the length.
fn place_of(text: &[u8], octet: u8) -> usize
    ensures place { result ≡ position_or_len (λ other. other == octet) text.now }
    ensures within { result ≤ length text.now }
{
    text.iter()
        .position(|other| *other == octet)
        .unwrap_or(text.len())
}

// Adds the name at this place, unless there is none or it is present.
fn with_place(names: Names, place: Option<u8>) -> Option<Names>
    requires { IfSome place (λ n. n < 64) }
    ensures { result ≡ spec.with_place names place }
{
    let place = usize::from(place?);
    if names[place] {
        return None;
    }
    let mut more = names;
    more[place] = true;
    Some(more)
}

// Returns the place of a name in the list of a choice.
fn place_named(choice: Choice, name: &[u8]) -> Option<u8>
    ensures place { result ≡ spec.place_named choice name.now }
    ensures within { IfSome result (λ n. n < 64) }
{
    match choice {
        Choice::ByRule => rule_named(name),
        Choice::ByVerdict => verdict_named(name),
        Choice::BySide => side_named(name),
        Choice::ByTable | Choice::ByEra | Choice::ByHost => None,
    }
}

fn rule_named(name: &[u8]) -> Option<u8>
    ensures place { result ≡ option_map rule_number (rule_of_name name.now) }
    ensures within { IfSome result (λ n. n < 64) }
{
    match Rule::of_name(name) {
        Some(rule) => Some(rule.number()),
        None => None,
    }
}

fn verdict_named(name: &[u8]) -> Option<u8>
    ensures place { result ≡ option_map verdict_place (spec.verdict_named name.now) }
    ensures within { IfSome result (λ n. n < 64) }
{
    if name == b"drop".as_slice() {
        Some(3)
    } else if name == b"fix".as_slice() {
        Some(1)
    } else if name == b"hold".as_slice() {
        Some(2)
    } else if name == b"pass".as_slice() {
        Some(0)
    } else {
        None
    }
}

fn side_named(name: &[u8]) -> Option<u8>
    ensures place { result ≡ option_map side_place (spec.side_named name.now) }
    ensures within { IfSome result (λ n. n < 64) }
{
    if name == b"in".as_slice() {
        Some(0)
    } else if name == b"out".as_slice() {
        Some(1)
    } else if name == b"-".as_slice() {
        Some(2)
    } else {
        None
    }
}

/// Returns the table of this name.
pub(crate) fn table_named(name: &[u8]) -> Option<Print>
    ensures { result ≡ spec.table_named name.now }
{
    if name == b"records".as_slice() {
        Some(Print::Records)
    } else if name == b"eras".as_slice() {
        Some(Print::Eras)
    } else {
        None
    }
}

/// Returns the era of a value: its number, after `second:` where it is one of the second engine.
pub(crate) fn era_named(value: &[u8]) -> Option<EraAsked>
    ensures { result ≡ spec.era_named value.now }
{
    match after_front(b"second:", value) {
        Some(number) => era_numbered(true, number),
        None => era_numbered(false, value),
    }
}

// Returns the era with this number, which has 32 bits and is not 0.
fn era_numbered(second: bool, value: &[u8]) -> Option<EraAsked>
    ensures { result ≡ spec.era_numbered second value.now }
{
    let number = number_within(value, 1, 4_294_967_295)?;
    Some(EraAsked {
        second,
        number: number as u32,
    })
}

/// Returns the prefix of a value; an address is the prefix of its 32 bits.
pub(crate) fn host_named(value: &[u8]) -> Option<Prefix>
    ensures { result ≡ spec.host_named value.now }
{
    let (first, rest) = cut(value, b'.');
    let (second, rest) = cut(rest, b'.');
    let (third, rest) = cut(rest, b'.');
    let (fourth, size) = cut(rest, b'/');
    prefix_of_parts(first, second, third, fourth, size_or_all(rest, size)).ok()
}

// Returns the text of the length of a prefix: that of an address, which has no slash, is 32.
fn size_or_all<'a>(text: &[u8], size: &'a [u8]) -> &'a [u8]
    ensures { result.now ≡ (if list_any (λ octet. octet == 47) text.now then size.entry.now else codes "32") }
{
    if has_slash(text) { size } else { b"32" }
}

fn has_slash(text: &[u8]) -> bool
    ensures { result ≡ list_any (λ octet. octet == 47) text.now }
{
    text.iter().any(|octet| *octet == b'/')
}

// Returns the prefix of four numbers and a length.
fn prefix_of_parts(
    first: &[u8],
    second: &[u8],
    third: &[u8],
    fourth: &[u8],
    size: &[u8],
) -> Result<Prefix, PrefixFault>
    ensures { result ≡ prefixes.prefix_of_parts first.now second.now third.now fourth.now size.now }
{
    let a = read_number(first, 3).ok_or(PrefixFault::Shape)?;
    let b = read_number(second, 3).ok_or(PrefixFault::Shape)?;
    let c = read_number(third, 3).ok_or(PrefixFault::Shape)?;
    let d = read_number(fourth, 3).ok_or(PrefixFault::Shape)?;
    let len = read_number(size, 2).ok_or(PrefixFault::Shape)?;
    if a > 255 || b > 255 || c > 255 || d > 255 {
        return Err(PrefixFault::Part);
    }
    if len > 32 {
        return Err(PrefixFault::Length);
    }
    Ok(Prefix {
        addr: Addr(u32::from_be_bytes([a as u8, b as u8, c as u8, d as u8])),
        len: len as u8,
    })
}

// Returns the octets before the first separator and those after it; without a separator, all and
// none.
fn cut(text: &[u8], separator: u8) -> (&[u8], &[u8])
    ensures before { result.0.now ≡ prefixes.before separator text.now }
    ensures after { result.1.now ≡ prefixes.after separator text.now }
{
    let at = place_of(text, separator);
    let end = (at + 1).min(text.len());
    (&text[..at], &text[end..])
}
