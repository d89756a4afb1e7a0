//! The clap command that parses the words of a run or of a load.
ghost use Rattle.std.specs.Prelude.{◌≡◌, ◌++◌, ◌∷◌, [], IfOk, IfErr, map, fold, string_bytes, codes, None, Some, true, false};
ghost use Rattle.clap.specs.Values.{kind_of};
ghost use Rattle.clap.specs.Walk.{rule_of};
ghost use Rattle.clap.specs.Simple.{app_of, with_rule};
ghost use Rattle.norm_settings.specs.RunWords.{PlainLine, line_of};
ghost use Rattle.norm_settings.specs.AskedCommand.{is_whole};
ghost use Rattle.norm_settings.specs.OptionTable.{all_choices};
ghost use Rattle.norm_settings.specs.working.ClapCommands.{is_pair};
ghost use Rattle.norm_settings.specs.FoundValues as spec;
ghost use Rattle.norm_settings.specs.working.ClapCommands as working;

use crate::laws::lines_are_those_written;
use crate::{Choice, Kind};
use clap::error::ErrorKind;
use clap::{Arg, ArgAction, ArgMatches, Command, Error};
use std::alloc::{AllocError, Global};

/// Parses the words after `run` with clap.
pub fn run_matches<'a>(alloc: Global, words: &'a [String]) -> Result<ArgMatches<'a>, Error>
    // Of a whole line, clap finds the values and names of the line.
    ensures ok { IfOk result (λ matches. (line : PlainLine) → line_of (map string_bytes words.entry.now) ≡ Some line → is_whole line ≡ true → spec.ReadsAs matches line) }
    // A whole line is refused only if memory could not be allocated.
    ensures err { IfErr result (λ error. (line : PlainLine) → line_of (map string_bytes words.entry.now) ≡ Some line → is_whole line ≡ true → kind_of error ≡ ErrorKind.OutOfMemory) }
{
    lines_are_those_written();
    match run_command(alloc) {
        Ok(command) => command.try_get_matches_from(words),
        Err(refused) => Err(Error::from(refused)),
    }
}

/// Parses the words after `load` with clap.
pub(crate) fn load_matches<'a>(alloc: Global, words: &'a [String]) -> Result<ArgMatches<'a>, Error>
    // Of two names, clap finds both.
    ensures ok { IfOk result (λ matches. is_pair (map string_bytes words.entry.now) ≡ true → working.ReadsPair matches (map string_bytes words.entry.now)) }
    // It refuses a line of two names only if memory could not be allocated.
    ensures err { IfErr result (λ error. is_pair (map string_bytes words.entry.now) ≡ true → kind_of error ≡ ErrorKind.OutOfMemory) }
{
    match load_command(alloc) {
        Ok(command) => command.try_get_matches_from(words),
        Err(refused) => Err(Error::from(refused)),
    }
}

// Returns the clap command of a load: SEED and COUNT.
fn load_command<'a>(alloc: Global) -> Result<Command<'a>, AllocError>
    ensures { IfOk result (λ command. app_of command ≡ working.load_command) }
{
    let seed = Arg::new(alloc, "seed");
    let count = Arg::new(alloc, "count");
    let first = bare_command(alloc).arg(seed)?;
    let second = first.arg(count)?;
    Ok(second)
}

// Returns the clap command of a run: an argument for each option, and then the names.
fn run_command<'a>(alloc: Global) -> Result<Command<'a>, AllocError>
    ensures { IfOk result (λ command. app_of command ≡ working.run_command) }
{
    let input = Arg::new(alloc, "in");
    let output = Arg::new(alloc, "out");
    let prefix = Arg::new(alloc, "prefix").action(ArgAction::Append);
    let options = option_command(alloc)?;
    let first = options.arg(input)?;
    let second = first.arg(output)?;
    let third = second.arg(prefix)?;
    Ok(third)
}

// Returns the clap command of a run with an argument for each option.
fn option_command<'a>(alloc: Global) -> Result<Command<'a>, AllocError>
    ensures { IfOk result (λ command. app_of command ≡ fold with_rule working.bare (map working.rule_for all_choices)) }
{
    let mut command = bare_command(alloc);
    for choice in Choice::all() {
        let row = choice.row();
        command = command.arg(option_argument(alloc, row.name, row.kind))?;
    }
    Ok(command)
}

// Returns the clap command without arguments.
fn bare_command<'a>(alloc: Global) -> Command<'a>
    ensures { app_of result ≡ working.bare }
{
    Command::new(alloc, "norm")
        .no_binary_name(true)
        .disable_help_flag(true)
        .args_override_self(true)
}

// Returns the clap argument of an option of this name and kind.
fn option_argument<'a>(alloc: Global, name: &'a str, kind: Kind) -> Arg<'a>
    ensures rule { rule_of result ≡ working.rule_by kind name.entry.now }
    ensures local { result.global ≡ false }
{
    let argument = Arg::new(alloc, name).long(name);
    match kind {
        Kind::Alone => argument.action(ArgAction::SetTrue),
        _ => argument,
    }
}
