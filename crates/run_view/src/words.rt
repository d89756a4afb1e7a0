//! The words of a view.
ghost use Rattle.std.specs.Prelude.{◌≡◌, ◌≤◌, map, option_map, string_bytes};
ghost use Rattle.norm_settings.specs.RunWords.{after_front as behind};
ghost use Rattle.norm_settings.specs.OptionTable.{is_name as is_name_of};
ghost use Rattle.run_view.specs.ViewWords as spec;
ghost use Rattle.run_view.specs.working.JsonWords as working;
ghost use Rattle.run_view.specs.working.PlainWords.{plain_word};

use crate::chosen::has_choice;
use crate::values::{Names, era_named, host_named, listed, table_named};
use wire_base::Prefix;

/// What is printed.
#[derive(Clone, Copy, Debug, PartialEq, Eq)]
pub enum Print {
    /// A summary and eras, or the records that are chosen, as text.
    Text,
    /// Records, a summary and eras, as JSON.
    Json,
    /// A table of records.
    Records,
    /// A table of eras.
    Eras,
    /// The notes, as text.
    Notes,
    /// The notes, as JSON.
    JsonNotes,
}

/// An era that is asked for.
#[derive(Clone, Copy, Debug, PartialEq, Eq)]
pub struct EraAsked {
    /// It is one of the second engine.
    pub second: bool,
    pub number: u32,
}

/// What the words ask for.
#[derive(Clone, Copy, Debug, PartialEq, Eq)]
pub struct Asked {
    pub print: Print,
    /// Records are chosen if a line of them names one of these rules.
    pub rules: Option<Names>,
    /// Records are chosen if a line of them belongs to this era, began it or ended it.
    pub era: Option<EraAsked>,
    /// Records are chosen if a line of them has one of these verdicts.
    pub verdicts: Option<Names>,
    /// Records are chosen that have one of these sides.
    pub sides: Option<Names>,
    /// Records are chosen whose source or destination is in this prefix.
    pub host: Option<Prefix>,
    /// Records are chosen if a line of them is inbound or has no side, and is not `pass`.
    pub evidence: bool,
    /// No line of a record or of an era is printed.
    pub summary: bool,
}

/// An option without a value.
#[derive(Clone, Copy)]
pub enum Mark {
    AsJson,
    AsNotes,
    AsEvidence,
    AsSummary,
}

/// An option with a value.
#[derive(Clone, Copy)]
pub enum Choice {
    ByTable,
    ByRule,
    ByEra,
    ByVerdict,
    BySide,
    ByHost,
}

/// A word before the names.
#[derive(Clone, Copy)]
pub enum Met<'a> {
    /// An option without a value.
    Marked(Mark),
    Joined(Choice, &'a [u8]),
    /// An option whose value is the next word.
    Parted(Choice),
    Name,
    Unknown,
}

impl Choice {
    // Returns all options with a value.
    fn all() -> [Choice; 6]
        ensures { result ≡ spec.all_choices }
    {
        [
            Choice::ByTable,
            Choice::ByRule,
            Choice::ByEra,
            Choice::ByVerdict,
            Choice::BySide,
            Choice::ByHost,
        ]
    }

    // Returns the name of the option.
    fn name(self) -> &'static str
        ensures { result.now ≡ spec.name_of self }
    {
        match self {
            Choice::ByTable => "--table",
            Choice::ByRule => "--rule",
            Choice::ByEra => "--era",
            Choice::ByVerdict => "--only",
            Choice::BySide => "--side",
            Choice::ByHost => "--host",
        }
    }
}

/// Returns whether JSON is asked for, even by invalid arguments.
pub(crate) fn asks_json(words: &[String]) -> bool
    ensures { result ≡ working.asks_json (map string_bytes words.now) }
{
    for word in words {
        if is_json(word.as_bytes()) {
            return true;
        }
    }
    false
}

/// Returns what the words ask for: options, each at most once, and then the names of three files.
pub(crate) fn asked_in(words: &[String]) -> Option<Asked>
    ensures { result ≡ spec.asked_in (map string_bytes words.now) }
{
    let mut asked = Asked {
        print: Print::Text,
        rules: None,
        era: None,
        verdicts: None,
        sides: None,
        host: None,
        evidence: false,
        summary: false,
    };
    let mut waiting = None;
    for (place, word) in words.iter().enumerate() {
        let met = match waiting {
            Some(choice) => Met::Joined(choice, word.as_bytes()),
            None => word_met(word.as_bytes()),
        };
        waiting = None;
        match met {
            Met::Marked(mark) => asked = with_mark(mark, asked)?,
            Met::Joined(choice, value) => asked = with_choice(choice, asked, value)?,
            Met::Parted(choice) => waiting = Some(choice),
            Met::Name => return with_names(asked, &words[place..]),
            Met::Unknown => return None,
        }
    }
    None
}

// Returns what is asked if three names follow, none of them empty and none beginning with `-`.
fn with_names(asked: Asked, words: &[String]) -> Option<Asked>
    ensures { result ≡ spec.with_names asked (map string_bytes words.now) }
{
    let [input, output, report] = words else {
        return None;
    };
    let first = is_name(input.as_bytes());
    let second = is_name(output.as_bytes());
    let third = is_name(report.as_bytes());
    let together = go_together(asked);
    if first && second && third && together {
        Some(asked)
    } else {
        None
    }
}

// Returns whether a word may be the name of a file.
fn is_name(word: &[u8]) -> bool
    ensures { result ≡ is_name_of word.now }
{
    match word {
        [] => false,
        [first, ..] => *first != b'-',
    }
}

// Returns whether no condition is given for a table of eras or for notes, and a summary is of a
// text or of JSON.
fn go_together(asked: Asked) -> bool
    ensures { result ≡ spec.go_together asked }
{
    let choice = has_choice(&asked);
    match asked.print {
        Print::Text | Print::Json => true,
        Print::Records => !asked.summary,
        Print::Eras | Print::Notes | Print::JsonNotes => !choice && !asked.summary,
    }
}

// Returns what is printed where both are asked for: notes go with JSON, and else nothing goes with
// anything but text.
fn both_printed(first: Print, second: Print) -> Option<Print>
    ensures { result ≡ spec.both_printed first second }
{
    match (first, second) {
        (Print::Text, print) => Some(print),
        (Print::Json, Print::Notes) | (Print::Notes, Print::Json) => Some(Print::JsonNotes),
        _ => None,
    }
}

// Adds what is printed, unless it conflicts with what was asked for before, or none is given.
fn with_print(asked: Asked, print: Option<Print>) -> Option<Asked>
    ensures { result ≡ spec.with_print asked print }
{
    let print = both_printed(asked.print, print?)?;
    Some(Asked { print, ..asked })
}

// Adds an option with this value, unless the value is invalid or the option conflicts with those
// before.
fn with_choice(choice: Choice, asked: Asked, value: &[u8]) -> Option<Asked>
    ensures { result ≡ spec.with_choice choice asked value.now }
{
    let mut more = asked;
    match choice {
        Choice::ByTable => return with_print(asked, table_named(value)),
        Choice::ByRule => more.rules = Some(once(asked.rules, listed(choice, value))?),
        Choice::ByEra => more.era = Some(once(asked.era, era_named(value))?),
        Choice::ByVerdict => more.verdicts = Some(once(asked.verdicts, listed(choice, value))?),
        Choice::BySide => more.sides = Some(once(asked.sides, listed(choice, value))?),
        Choice::ByHost => more.host = Some(once(asked.host, host_named(value))?),
    }
    Some(more)
}

// Adds an option without a value, unless it was given before or conflicts with those before.
fn with_mark(mark: Mark, asked: Asked) -> Option<Asked>
    ensures { result ≡ spec.with_mark mark asked }
{
    let mut more = asked;
    match mark {
        Mark::AsJson => return with_print(asked, Some(Print::Json)),
        Mark::AsNotes => return with_print(asked, Some(Print::Notes)),
        Mark::AsEvidence => {
            if asked.evidence {
                return None;
            }
            more.evidence = true;
        }
        Mark::AsSummary => {
            if asked.summary {
                return None;
            }
            more.summary = true;
        }
    }
    Some(more)
}

// Returns the value of a condition, unless it was given before or the value is invalid.
fn once<T: Copy>(before: Option<T>, given: Option<T>) -> Option<T>
    ensures { result ≡ spec.once before given }
{
    match before {
        None => given,
        Some(_) => None,
    }
}

fn is_json(word: &[u8]) -> bool
    ensures { result ≡ spec.is_json word.now }
{
    word == b"--json".as_slice()
}

// Returns what a word before the names is.
fn word_met(word: &[u8]) -> Met<'_>
    ensures { plain_word result ≡ spec.word_of word.entry.now }
{
    if !matches!(word, [b'-', ..]) {
        return Met::Name;
    }
    match mark_named(word) {
        Some(mark) => Met::Marked(mark),
        None => option_met(word),
    }
}

// Returns the option without a value of this name.
fn mark_named(word: &[u8]) -> Option<Mark>
    ensures { result ≡ spec.mark_named word.now }
{
    if is_json(word) {
        Some(Mark::AsJson)
    } else if word == b"--notes".as_slice() {
        Some(Mark::AsNotes)
    } else if word == b"--evidence".as_slice() {
        Some(Mark::AsEvidence)
    } else if word == b"--summary".as_slice() {
        Some(Mark::AsSummary)
    } else {
        None
    }
}

// Returns the use of an option with a value that a word is.
fn option_met(word: &[u8]) -> Met<'_>
    ensures { plain_word result ≡ spec.word_in spec.all_choices word.entry.now }
{
    for choice in Choice::all() {
        if let Some(met) = met_as(choice, word) {
            return met;
        }
    }
    Met::Unknown
}

// Returns the use of this option that a word is: its name, or its name, `=` and a value.
fn met_as(choice: Choice, word: &[u8]) -> Option<Met<'_>>
    ensures { option_map plain_word result ≡ spec.word_by choice (behind (spec.name_of choice) word.entry.now) }
{
    match after_front(choice.name().as_bytes(), word)? {
        [] => Some(Met::Parted(choice)),
        [b'=', value @ ..] => Some(Met::Joined(choice, value)),
        _ => None,
    }
}

/// Returns the text after this front, or None if it does not begin with it.
pub(crate) fn after_front<'a>(front: &[u8], text: &'a [u8]) -> Option<&'a [u8]>
    ensures { option_map (λ rest. rest.now) result ≡ behind front.now text.entry.now }
{
    text.strip_prefix(front)
}
