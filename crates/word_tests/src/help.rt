//! The help text of norm, against the table of options by which it reads its words.
use error_line::NORM_HELP;
use norm_settings::{Choice, Kind, read_words};
use std::alloc::{AllocError, Global};

// Returns the text of an option's range and default.
fn range_of(alloc: Global, kind: &Kind) -> Result<String, AllocError> {
    match kind {
        Kind::Number {
            least,
            greatest,
            standard,
        } => format!(in alloc; " {least} to {greatest}, default {standard}: "),
        Kind::Limit { least, greatest } => {
            format!(in alloc; " {least} to {greatest}, default none: ")
        }
        Kind::Name => String::from_str(alloc, " default none: "),
        Kind::Alone => String::from_str(alloc, " default off: "),
    }
}

// Returns the text between an option's name and its range.
fn value_of(kind: &Kind) -> &'static str {
    match kind {
        Kind::Number { .. } | Kind::Limit { .. } => " N ",
        Kind::Name => " NAME ",
        Kind::Alone => " ",
    }
}

// Returns whether the line has the option with this name, value and range.
fn is_of(line: &str, name: &str, value: &str, range: &str) -> bool {
    let Some(rest) = line.strip_prefix("  --") else {
        return false;
    };
    let Some(rest) = rest.strip_prefix(name) else {
        return false;
    };
    rest.starts_with(value) && line.contains(range)
}

fn is_listed(alloc: Global, help: &str, choice: Choice) -> Result<bool, AllocError> {
    let row = choice.row();
    let range = range_of(alloc, &row.kind)?;
    for line in help.lines() {
        if is_of(line, row.name, value_of(&row.kind), &range) {
            return Ok(true);
        }
    }
    Ok(false)
}

// Returns the name of the first option without a line.
fn first_unlisted(alloc: Global, help: &str) -> Result<Option<&'static str>, AllocError> {
    for choice in Choice::all() {
        if !is_listed(alloc, help, choice)? {
            return Ok(Some(choice.row().name));
        }
    }
    Ok(None)
}

// The help text has a line for each option, with its range and its default.
#[test]
fn help_lists_each_option_with_its_range(rt: HostRuntime) -> Result<(), AllocError> {
    assert_eq!(rt; first_unlisted(rt.alloc(), NORM_HELP)?, None);
    Ok(())
}

fn option_lines(help: &str) -> usize {
    help.lines().filter(|line| line.starts_with("  --")).count()
}

// The help text has no option twice, and no other option.
#[test]
fn help_lists_no_other_option(rt: HostRuntime) {
    assert_eq!(rt; option_lines(NORM_HELP), Choice::all().len());
}

fn words_of(alloc: Global, example: &str) -> Result<Vec<String>, AllocError> {
    let mut words = Vec::new(alloc);
    for word in example.split_whitespace() {
        words.push(String::from_str(alloc, word)?)?;
    }
    Ok(words)
}

// Returns the number of examples in lines that begin with `front`, or 0 if one of them is
// refused.
fn accepted(alloc: Global, front: &str) -> Result<u32, AllocError> {
    let mut count = 0u32;
    for line in NORM_HELP.lines().filter(|line| line.starts_with(front)) {
        let words = words_of(alloc, line.strip_prefix("  norm ").unwrap_or(""))?;
        if read_words(alloc, words.as_slice()).is_err() {
            return Ok(0);
        }
        count = count.saturating_add(1);
    }
    Ok(count)
}

// The examples of a run and of a load are accepted.
#[test]
fn the_examples_are_accepted(rt: HostRuntime) -> Result<(), AllocError> {
    for front in ["  norm ", "  norm run ", "  norm load "] {
        let count = accepted(rt.alloc(), front)?;
        assert!(rt; count > 0, "{front}");
    }
    Ok(())
}
