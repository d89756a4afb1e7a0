//! The words of the command line.
ghost use Rattle.std.specs.Prelude.{◌≡◌, ◌≤◌, ◌⊎◌, All, ℕ, List, [], map, length, string_bytes, option_and_then, None, Some, Ok, Err, IfOk, IfErr};
ghost use Rattle.std.specs.List.{list_all};
ghost use Rattle.clap.specs.Values.{kind_of};
ghost use Rattle.clap.specs.Matches.{found_of, first_value};
ghost use Rattle.norm_settings.specs.RunWords.{PlainLine};
ghost use Rattle.norm_settings.specs.working.PlainLines.{plain_use, plain_line};
ghost use Rattle.norm_settings.specs.RunWords as spec;
ghost use Rattle.norm_settings.specs.AskedCommand.{asked, asked_run, asked_load, run_of, prefixes_from, plain_command, SettingsAreInRange, SettingsGoTogether, is_whole as is_whole_line, go_together as do_go_together};
ghost use Rattle.norm_settings.specs.OptionTable.{Text, is_name as is_name_of, number_within as number_of_word};
ghost use Rattle.norm_settings.specs.FoundValues.{ReadsAs};
ghost use Rattle.norm_settings.specs.working.ClapCommands.{ReadsPair, is_pair as is_pair_of};

use crate::found::settings_found;
use crate::line::{Line, Use, is_given, line_of};
use crate::parsed::{load_matches, run_matches};
use crate::{Choice, Command, Names, WordFault, number_within};
use arrayvec::ArrayVec;
use clap::ArgMatches;
use clap::error::ErrorKind;
use std::alloc::Global;
use wire_base::{Prefix, read_prefix};

/// Parses the words of a command: `run OPTION* IN OUT PREFIX+`, or `load SEED COUNT`.
pub fn read_words(alloc: Global, words: &[String]) -> Result<Command, WordFault>
    ensures ok { IfOk result (λ command. asked (map string_bytes words.now) ≡ Ok (plain_command command)) }
    ensures in_range { IfOk result SettingsAreInRange }
    ensures together { IfOk result SettingsGoTogether }
    ensures err { IfErr result (λ fault. (fault ≡ WordFault.NoMemory) ⊎ (asked (map string_bytes words.now) ≡ Err fault)) }
{
    let [verb, words @ ..] = words else {
        return Err(WordFault::Refused);
    };
    if verb.as_str() == "run" {
        return read_run(alloc, words);
    }
    if verb.as_str() == "load" {
        return read_load(alloc, words);
    }
    Err(WordFault::Refused)
}

// Parses the words after `load`.
fn read_load(alloc: Global, words: &[String]) -> Result<Command, WordFault>
    ensures ok { IfOk result (λ command. asked_load (map string_bytes words.now) ≡ Ok (plain_command command)) }
    ensures in_range { IfOk result SettingsAreInRange }
    ensures together { IfOk result SettingsGoTogether }
    ensures err { IfErr result (λ fault. (fault ≡ WordFault.NoMemory) ⊎ (asked_load (map string_bytes words.now) ≡ Err fault)) }
{
    if !is_pair(words) {
        return Err(WordFault::Refused);
    }
    match load_matches(alloc, words) {
        Ok(matches) => load_found(&matches),
        Err(error) => match error.kind() {
            ErrorKind::OutOfMemory => Err(WordFault::NoMemory),
            _ => Err(WordFault::Refused),
        },
    }
}

// Returns the load from the values that clap found in its words.
fn load_found(matches: &ArgMatches<'_>) -> Result<Command, WordFault>
    ensures ok { IfOk result (λ command. (words : List Text) → ReadsPair matches.now words → asked_load words ≡ Ok (plain_command command)) }
    ensures in_range { IfOk result SettingsAreInRange }
    ensures together { IfOk result SettingsGoTogether }
    ensures err { IfErr result (λ fault. (words : List Text) → ReadsPair matches.now words → asked_load words ≡ Err fault) }
{
    let Some(seed) = number_in(matches, "seed", 0, u64::MAX) else {
        return Err(WordFault::Refused);
    };
    let Some(count) = number_in(matches, "count", 1, 1_000_000) else {
        return Err(WordFault::Refused);
    };
    Ok(Command::Load {
        seed,
        count: count as u32,
    })
}

// Returns the number that clap found under this name, if it is in the range.
fn number_in(matches: &ArgMatches<'_>, name: &str, least: u64, greatest: u64) -> Option<u64>
    ensures { result ≡ option_and_then (number_of_word least greatest) (first_value (found_of matches.now) name.now) }
{
    let value = matches.get_str(name)?;
    number_within(value.as_bytes(), least, greatest)
}

// Parses the words after `run`.
fn read_run(alloc: Global, words: &[String]) -> Result<Command, WordFault>
    ensures ok { IfOk result (λ command. asked_run (spec.line_of (map string_bytes words.now)) ≡ Ok (plain_command command)) }
    ensures in_range { IfOk result SettingsAreInRange }
    ensures together { IfOk result SettingsGoTogether }
    ensures err { IfErr result (λ fault. (fault ≡ WordFault.NoMemory) ⊎ (asked_run (spec.line_of (map string_bytes words.now)) ≡ Err fault)) }
{
    let Some(line) = line_of(alloc, words)? else {
        return Err(WordFault::Refused);
    };
    if !is_whole(&line) {
        return Err(WordFault::Refused);
    }
    match run_matches(alloc, words) {
        Ok(matches) => run_found(alloc, &matches),
        Err(error) => match error.kind() {
            ErrorKind::OutOfMemory => Err(WordFault::NoMemory),
            _ => Err(WordFault::Refused),
        },
    }
}

// Returns the run of a whole line from the values that clap found in its words.
fn run_found(alloc: Global, matches: &ArgMatches<'_>) -> Result<Command, WordFault>
    ensures ok { IfOk result (λ command. (line : PlainLine) → ReadsAs matches.now line → run_of line ≡ Ok (plain_command command)) }
    ensures in_range { IfOk result SettingsAreInRange }
    ensures err { IfErr result (λ fault. (line : PlainLine) → ReadsAs matches.now line → (fault ≡ WordFault.NoMemory) ⊎ (run_of line ≡ Err fault)) }
{
    let Some(input) = matches.get_str("in") else {
        return Err(WordFault::Refused);
    };
    let Some(output) = matches.get_str("out") else {
        return Err(WordFault::Refused);
    };
    let Some(prefixes) = matches.get_strs("prefix") else {
        return Err(WordFault::Refused);
    };
    if input == output {
        return Err(WordFault::Same);
    }
    if prefixes.len() > 16 {
        return Err(WordFault::TooMany);
    }
    let prefixes = read_prefixes(prefixes)?;
    let names = Names {
        input: String::from_str(alloc, input)?,
        output: String::from_str(alloc, output)?,
    };
    Ok(Command::Run {
        names,
        settings: settings_found(matches, prefixes),
    })
}

// Parses the prefixes.
fn read_prefixes(words: &[&str]) -> Result<ArrayVec<Prefix, 16>, WordFault>
    requires { length words.now ≤ 16 }
    ensures ok { IfOk result (λ prefixes. prefixes_from [] (map (λ word. word.now) words.now) ≡ Ok prefixes.items) }
    ensures in_range { IfOk result (λ prefixes. All (λ prefix. prefix.len ≤ 32) prefixes.items) }
    ensures err { IfErr result (λ fault. (place : ℕ) × (fault ≡ WordFault.Prefix place) × (prefixes_from [] (map (λ word. word.now) words.now) ≡ Err place)) }
{
    let mut prefixes = ArrayVec::new();
    for (place, word) in words.iter().enumerate() {
        match read_prefix(word) {
            Ok(prefix) => prefixes.push(prefix),
            Err(_) => return Err(WordFault::Prefix(place as u8 + 1)),
        }
    }
    Ok(prefixes)
}

// Returns whether there are at least three names, none of them empty and none beginning with `-`,
// and the options do not conflict.
fn is_whole(line: &Line<'_>) -> bool
    ensures { result ≡ is_whole_line (plain_line line.now) }
{
    line.names.len() >= 3 && all_names(line.names) && go_together(&line.uses)
}

fn all_names(words: &[String]) -> bool
    ensures { result ≡ list_all is_name_of (map string_bytes words.now) }
{
    for word in words {
        if !is_name(word.as_bytes()) {
            return false;
        }
    }
    true
}

// Returns whether `--both` is given neither with `--inside` nor with `--mtu`.
fn go_together(uses: &[Use<'_>]) -> bool
    ensures { result ≡ do_go_together (map plain_use uses.now) }
{
    let both = is_given(uses, Choice::Both);
    let inside = is_given(uses, Choice::Inside);
    let mtu = is_given(uses, Choice::Mtu);
    !(both && (inside || mtu))
}

// Returns whether the word is not empty and does not begin with `-`.
fn is_name(word: &[u8]) -> bool
    ensures { result ≡ is_name_of word.now }
{
    match word {
        [] => false,
        [first, ..] => *first != b'-',
    }
}

// Returns whether there are two words, none of them empty and none beginning with `-`.
fn is_pair(words: &[String]) -> bool
    ensures { result ≡ is_pair_of (map string_bytes words.now) }
{
    match words {
        [first, second] => is_name(first.as_bytes()) && is_name(second.as_bytes()),
        _ => false,
    }
}
