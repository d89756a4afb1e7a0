//! The words after `run`: options, each once and with a value that fits, and then the names.
ghost use Rattle.std.specs.Prelude.{◌≡◌, ◌++◌, ◌∷◌, [], map, option_map, string_bytes, is_some, true, None, IfOk};
ghost use Rattle.norm_settings.specs.OptionTable.{all_choices, is_value as is_value_of};
ghost use Rattle.norm_settings.specs.RunWords.{after_front as behind, word_of, word_as, word_in, given, may_use};
ghost use Rattle.norm_settings.specs.working.PlainLines.{plain_word, plain_use, plain_line};
ghost use Rattle.norm_settings.specs.RunWords as spec;

use crate::{Choice, Kind, number_within};
use std::alloc::{AllocError, Global};

/// A use of an option.
#[derive(Clone, Copy)]
pub struct Use<'a> {
    pub choice: Choice,
    /// The octets of the value; `true` for an option without a value.
    pub value: &'a [u8],
}

/// The words after `run`, parsed.
#[derive(Drop)]
pub struct Line<'a> {
    pub uses: Vec<Use<'a>>,
    /// The words from IN on.
    pub names: &'a [String],
}

/// The kind of a word before IN.
#[derive(Clone, Copy)]
pub enum Met<'a> {
    /// The first of the names.
    Names,
    Alone(Choice),
    Joined(Choice, &'a [u8]),
    /// An option whose value is the next word.
    Parted(Choice),
    Unknown,
}

/// Parses the words after `run`. Returns None if an option is unknown, is given twice, or has no
/// value that fits.
pub fn line_of<'a>(alloc: Global, words: &'a [String]) -> Result<Option<Line<'a>>, AllocError>
    ensures { IfOk result (λ line. option_map plain_line line ≡ spec.line_of (map string_bytes words.entry.now)) }
{
    let mut uses = Vec::new(alloc);
    let mut waiting = None;
    for (place, word) in words.iter().enumerate() {
        let met = match waiting {
            Some(choice) => Met::Joined(choice, word.as_bytes()),
            None => word_met(word.as_bytes()),
        };
        waiting = None;
        match met {
            Met::Names => return Ok(Some(Line {
                uses,
                names: &words[place..],
            })),
            Met::Unknown => return Ok(None),
            Met::Parted(choice) => waiting = Some(choice),
            Met::Joined(choice, value) => {
                if !add_use(&mut uses, choice, value)? {
                    return Ok(None);
                }
            }
            Met::Alone(choice) => {
                if !add_use(&mut uses, choice, b"true")? {
                    return Ok(None);
                }
            }
        }
    }
    if waiting.is_some() {
        return Ok(None);
    }
    Ok(Some(Line { uses, names: &[] }))
}

// Adds a use and returns true, or returns false if the value does not fit or the option was used
// before.
fn add_use<'a>(uses: &mut Vec<Use<'a>>, choice: Choice, value: &'a [u8]) -> Result<bool, AllocError>
    ensures may { IfOk result (λ added. added ≡ may_use choice value.entry.now (map plain_use uses.old.items)) }
    ensures added { IfOk result (λ added. added ≡ true → map plain_use uses.new.items ≡ map plain_use uses.old.items ++ record { choice = choice; value = value.entry.now } ∷ []) }
{
    if !is_value(choice.row().kind, value) || is_given(uses, choice) {
        return Ok(false);
    }
    uses.push(Use { choice, value })?;
    Ok(true)
}

/// Returns whether the option is used.
pub fn is_given(uses: &[Use<'_>], choice: Choice) -> bool
    ensures { result ≡ is_some (given choice (map plain_use uses.now)) }
{
    let name = choice.row().name;
    for used in uses {
        if used.choice.row().name == name {
            return true;
        }
    }
    false
}

/// Returns whether the value fits an option of this kind.
pub fn is_value(kind: Kind, value: &[u8]) -> bool
    ensures { result ≡ is_value_of kind value.now }
{
    match kind {
        Kind::Number {
            least,
            greatest,
            standard: _,
        } => number_within(value, least, greatest).is_some(),
        Kind::Limit { least, greatest } => number_within(value, least, greatest).is_some(),
        Kind::Name => value.len() <= 64 && matches!(value, [first, ..] if *first != b'-'),
        Kind::Alone => true,
    }
}

// Returns the kind of a word before IN.
fn word_met(word: &[u8]) -> Met<'_>
    ensures { plain_word result ≡ word_of word.entry.now }
{
    if !matches!(word, [b'-', ..]) {
        return Met::Names;
    }
    match after_front(b"--", word) {
        Some(text) => option_met(text),
        None => Met::Unknown,
    }
}

// Returns the use of an option that the text after `--` is.
fn option_met(text: &[u8]) -> Met<'_>
    ensures { plain_word result ≡ word_in all_choices text.entry.now }
{
    for choice in Choice::all() {
        if let Some(met) = met_as(choice, text) {
            return met;
        }
    }
    Met::Unknown
}

// Returns the use of this option that the text is: its name, or its name, `=` and a value. None if
// it is neither.
fn met_as(choice: Choice, text: &[u8]) -> Option<Met<'_>>
    ensures { option_map plain_word result ≡ word_as choice text.entry.now }
{
    let row = choice.row();
    let takes_value = !matches!(row.kind, Kind::Alone);
    match after_front(row.name.as_bytes(), text)? {
        [] if takes_value => Some(Met::Parted(choice)),
        [] => Some(Met::Alone(choice)),
        [b'=', value @ ..] if takes_value => Some(Met::Joined(choice, value)),
        _ => None,
    }
}

// Returns the text after this front, or None if it does not begin with it.
fn after_front<'a>(front: &[u8], text: &'a [u8]) -> Option<&'a [u8]>
    ensures { option_map (λ rest. rest.now) result ≡ behind front.now text.entry.now }
{
    text.strip_prefix(front)
}
