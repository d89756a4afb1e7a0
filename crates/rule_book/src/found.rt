//! Parsers of the lines of a report. An entry and a last line have one text each. So a line is
//! parsed leniently, and the result is returned only if its text is exactly this line.
ghost use Rattle.std.specs.Prelude.{◌≡◌, ◌≢◌, ◌↔◌, ℕ, ◌^◌, ◌<◌, List, [], ◌∷◌, ◌++◌, decimal, Option, Some, None, IfSome, IsSome, IsSomeAnd, IsTrue, MatchOption};
ghost use Rattle.rule_book.specs.Entries.{IsOfVersion, PlainEntry, plain};
ghost use Rattle.rule_book.specs.ReportReading.{EndedFits, EntryFits, IsEntryOf, LastFits};
ghost use Rattle.rule_book.specs.Text.{ended_word, entry_text, last_text, side_word};
ghost use Rattle.rule_book.specs.working.LineWords.{Awaits, HasLastWords, HasParts, HasRoom, HasWords, Mark, MarkFits, mark_word, with_mark};
ghost use Rattle.rule_book.specs.declared.entry.Ended.{Ended};
ghost use Rattle.rule_book.specs.declared.last.Last.{Last};
ghost use Rattle.wire_base.specs.declared.address.Side.{Side};

use crate::entry::line_of;
use crate::words::{cut, long_number_of, number_of, short_number_of};
use crate::{Ended, Entry, Last, Reason, Rule, StopKind, Verdict, last_line};
use arrayvec::ArrayVec;
use wire_base::Side;

/// Parses the line of an entry, with its line feed, of a report of this version. In version 2 each
/// ended era has its octets, in any other version none has. Returns None exactly if the line is the
/// text of no such entry.
pub fn read_entry(line: &[u8], version: u8) -> Option<Entry>
    ensures { MatchOption result ((entry : PlainEntry) → IsEntryOf version entry → line.now ≢ entry_text entry) (λ entry. IsEntryOf version (plain entry) × (line.now ≡ entry_text (plain entry))) }
{
    let entry = found_entry(line)?;
    let mut buf = [0; 400];
    let len = line_of(&entry, &mut buf);
    if line == &buf[..len] && is_of_version(&entry, version) {
        Some(entry)
    } else {
        None
    }
}

/// Returns whether each ended era has its octets (version 2) or none has (any other version).
fn is_of_version(entry: &Entry, version: u8) -> bool
    ensures { IsTrue result ↔ IsOfVersion version (plain entry.now) }
{
    entry
        .ended
        .iter()
        .all(|ended| ended.octets.is_some() == (version == 2))
}

/// Parses the last line of a report, `end` or `stop`, with its line feed; it is the same in each
/// version. Returns None exactly if the line is the text of neither.
pub fn read_last(line: &[u8]) -> Option<Last>
    ensures { MatchOption result ((last : Last) → LastFits last → line.now ≢ last_text last) (λ last. LastFits last × (line.now ≡ last_text last)) }
{
    let last = found_last(line)?;
    let mut buf = [0; 64];
    let len = last_line(&last, &mut buf);
    if line == &buf[..len] {
        Some(last)
    } else {
        None
    }
}

/// Parses the line of an entry leniently: of a line that is no entry's it may return an entry too.
fn found_entry(line: &[u8]) -> Option<Entry>
    ensures found { (entry : PlainEntry) → EntryFits entry → line.now ≡ entry_text entry → IsSomeAnd result (λ found. plain found ≡ entry) }
    ensures fits { IfSome result (λ found. EntryFits (plain found)) }
{
    let words = words_of(line);
    let mut entry = Entry {
        number: number_of(words.number)?,
        side: side_of(words.side)?,
        verdict: Verdict::of_word(words.verdict)?,
        packets: short_number_of(words.packets)?,
        rules: ArrayVec::new(),
        era: None,
        begun: None,
        ended: ArrayVec::new(),
    };
    add_marks(&mut entry, words.marks)?;
    Some(entry)
}

/// The words of an entry's line: the first four, and the others uncut.
#[derive(Clone, Copy)]
struct Words<'a> {
    number: &'a [u8],
    side: &'a [u8],
    verdict: &'a [u8],
    packets: &'a [u8],
    marks: &'a [u8],
}

/// Cuts the line of an entry into its words.
fn words_of(line: &[u8]) -> Words<'_>
    ensures { (entry : PlainEntry) → EntryFits entry → line.now ≡ entry_text entry → HasWords entry result.number.now result.side.now result.verdict.now result.packets.now result.marks.now }
{
    let line = without_feed(line);
    let (number, behind_number) = cut(line, b' ');
    let (side, behind_side) = cut(behind_number, b' ');
    let (verdict, behind_verdict) = cut(behind_side, b' ');
    let (packets, marks) = cut(behind_verdict, b' ');
    Words {
        number,
        side,
        verdict,
        packets,
        marks,
    }
}

/// Returns a line without its line feed.
fn without_feed(line: &[u8]) -> &[u8]
    ensures { (body : List ℕ) → line.now ≡ body ++ 10 ∷ [] → result.now ≡ body }
{
    match line {
        [body @ .., b'\n'] => body,
        _ => line,
    }
}

/// Returns the side of a word; the word `-` is that of no side. Returns None if the word is
/// neither.
fn side_of(word: &[u8]) -> Option<Option<Side>>
    ensures { (side : Option Side) → word.now ≡ side_word side → result ≡ Some side }
{
    match word {
        b"in" => Some(Some(Side::Inward)),
        b"out" => Some(Some(Side::Outward)),
        b"-" => Some(None),
        _ => None,
    }
}

/// Adds to an entry what the words after the fourth describe. Returns None if a word is malformed
/// or does not fit.
fn add_marks(entry: &mut Entry, words: &[u8]) -> Option<()>
    ensures adds { (whole : PlainEntry) → EntryFits whole → Awaits (plain entry.old) words.now whole → IsSome result × (plain entry.new ≡ whole) }
    ensures fits { EntryFits (plain entry.old) → EntryFits (plain entry.new) }
{
    let mut rest = words;
    while !rest.is_empty() {
        let (word, behind) = cut(rest, b' ');
        add_mark(entry, word)?;
        rest = behind;
    }
    Some(())
}

/// Adds to an entry what a word describes: a rule, the entry's era, the era that it began, or one
/// that ended.
fn add_mark(entry: &mut Entry, word: &[u8]) -> Option<()>
    ensures adds { (mark : Mark) → MarkFits mark → HasRoom (plain entry.old) mark → word.now ≡ mark_word mark → IsSome result × (plain entry.new ≡ with_mark (plain entry.old) mark) }
    ensures fits { EntryFits (plain entry.old) → EntryFits (plain entry.new) }
{
    match word {
        [b'@', era @ ..] => entry.era = Some(number_of(era)?),
        [b'+', era @ ..] => entry.begun = Some(number_of(era)?),
        [b'-', ended @ ..] => entry.ended.try_push(ended_of(ended)?).ok()?,
        name => entry.rules.try_push(Rule::of_name(name)?).ok()?,
    }
    Some(())
}

/// Parses the word of an ended era after its mark: its number, the reason and, if there is a third
/// part, its octets.
fn ended_of(word: &[u8]) -> Option<Ended>
    ensures value { (ended : Ended) → EndedFits ended → word.now ≡ ended_word ended → result ≡ Some ended }
    ensures fits { IfSome result EndedFits }
{
    let (era, reason, octets) = parts_of(word);
    Some(Ended {
        era: number_of(era)?,
        reason: Reason::of_word(reason)?,
        octets: octets_of(octets)?,
    })
}

/// Cuts the word of an ended era into its three parts; the third is empty if it is missing.
fn parts_of(word: &[u8]) -> (&[u8], &[u8], &[u8])
    ensures { (ended : Ended) → EndedFits ended → word.now ≡ ended_word ended → HasParts ended result.0.now result.1.now result.2.now }
{
    let (era, behind) = cut(word, b':');
    let (reason, octets) = cut(behind, b':');
    (era, reason, octets)
}

/// Parses the octets of an ended era; an empty part is that of an era without octets.
fn octets_of(word: &[u8]) -> Option<Option<u64>>
    ensures none { word.now ≡ [] → result ≡ Some None }
    ensures value { (octets : ℕ) → octets < 2 ^ 64 → word.now ≡ decimal octets → result ≡ Some (Some octets) }
    ensures bound { IfSome result (λ found. IfSome found (λ octets. octets < 2 ^ 64)) }
{
    if word.is_empty() {
        Some(None)
    } else {
        Some(Some(long_number_of(word)?))
    }
}

/// Parses a last line leniently: of a line that is no last line it may return one too.
fn found_last(line: &[u8]) -> Option<Last>
    ensures found { (last : Last) → LastFits last → line.now ≡ last_text last → result ≡ Some last }
    ensures fits { IfSome result LastFits }
{
    let (word, first, second) = last_words_of(line);
    match word {
        b"end" => Some(Last::End {
            records: number_of(first)?,
            packets: long_number_of(second)?,
        }),
        b"stop" => Some(Last::Stop {
            kind: StopKind::of_word(first)?,
            offset: long_number_of(second)?,
        }),
        _ => None,
    }
}

/// Cuts a last line into its three words.
fn last_words_of(line: &[u8]) -> (&[u8], &[u8], &[u8])
    ensures { (last : Last) → LastFits last → line.now ≡ last_text last → HasLastWords last result.0.now result.1.now result.2.now }
{
    let (line, _) = cut(line, b'\n');
    let (word, behind) = cut(line, b' ');
    let (first, second) = cut(behind, b' ');
    (word, first, second)
}
