//! The invalid arguments and usual mistakes of norm(1): each example is refused by its number.
use norm_settings::read_words;
use std::alloc::{AllocError, Global};

/// The invalid arguments and the usual mistakes of norm(1), with an example for each.
const MISTAKES: &str =
    "Refused words, in the order in which they are tested, each N with an example:

  1  another form, or an option unknown, twice or out of range: norm run a
  5  IN and OUT are one word: norm run a a 10.0.0.0/8
  3  over 16 prefixes: norm run a b 10.{0..16}.0.0/16
  2  the first malformed prefix stops the reading: norm run a b 10.0.0/8

Usual mistakes of which N is 1, each with the word that is wrong:

     --offload      an option after IN: norm run a b 10.0.0.0/8 --offload
     --hop          no option has this name: norm run --hop 3 a b 10.0.0.0/8
     --hops=300     out of range: norm run --hops=300 a b 10.0.0.0/8
     --hops         no number follows: norm run --hops a b 10.0.0.0/8
     --idle=60      the option is given twice: norm run --idle 90 --idle=60 a b 10.0.0.0/8
     --offload=yes  the option takes no value: norm run --offload=yes a b 10.0.0.0/8
     --mtu          it does not go with --both: norm run --both --mtu 1500 a b 10.0.0.0/8
     --inside       it does not go with --both: norm run --both --inside eth1 a b 10.0.0.0/8
     -              no name begins with a dash; write /dev/stdin: norm run - b 10.0.0.0/8
     b              no prefix follows: norm run a b
     a              run or load is missing before it: norm a b 10.0.0.0/8
     --help         it must be the only word: norm run --help
";

// Appends a word; 17 words for one with `{0..16}`, as a shell makes them.
fn add_word(words: &mut Vec<String>, alloc: Global, word: &str) -> Result<(), AllocError> {
    let Some((front, back)) = word.split_once("{0..16}") else {
        words.push(String::from_str(alloc, word)?)?;
        return Ok(());
    };
    for number in 0..17_u32 {
        words.push(format!(in alloc; "{front}{number}{back}")?)?;
    }
    Ok(())
}

fn add_words(words: &mut Vec<String>, alloc: Global, text: &str) -> Result<(), AllocError> {
    for word in text.split_whitespace() {
        add_word(words, alloc, word)?;
    }
    Ok(())
}

// Returns the number by which the words of the example are refused.
fn fault_of(alloc: Global, example: &str) -> Result<Option<u8>, AllocError> {
    let mut words = Vec::new(alloc);
    add_words(&mut words, alloc, example)?;
    match read_words(alloc, words.as_slice()) {
        Ok(_) => Ok(None),
        Err(fault) => Ok(Some(fault.number())),
    }
}

// Returns the number of examples, after `mark` in lines that begin with `front`, or 0 if one of
// them has another fault.
fn examples(
    alloc: Global,
    help: &str,
    front: &str,
    mark: &str,
    fault: Option<u8>,
) -> Result<u32, AllocError> {
    let mut count = 0u32;
    for line in help.lines().filter(|line| line.starts_with(front)) {
        if let Some((_, example)) = line.split_once(mark) {
            if fault_of(alloc, example)? != fault {
                return Ok(0);
            }
            count = count.saturating_add(1);
        }
    }
    Ok(count)
}

// Each example of invalid arguments is refused by the number before it.
#[test]
fn examples_are_refused_by_their_numbers(rt: HostRuntime) -> Result<(), AllocError> {
    for (front, number) in [("  1  ", 1), ("  5  ", 5), ("  3  ", 3), ("  2  ", 2)] {
        let count = examples(rt.alloc(), MISTAKES, front, ": norm ", Some(number))?;
        assert!(rt; count > 0, "{number}");
    }
    Ok(())
}

// Returns whether the example of a usual mistake has the word that is named as wrong.
fn has_wrong(line: &str) -> bool {
    let (text, example) = line.split_once(": norm ").unwrap_or(("", ""));
    let wrong = text.split_whitespace().next();
    example.split_whitespace().any(|word| Some(word) == wrong)
}

// Returns the first usual mistake whose example has another word.
fn first_other_word(help: &str) -> Option<&str> {
    let mut lines = help.lines().filter(|line| line.starts_with("     "));
    lines.find(|line| line.contains(": norm ") && !has_wrong(line))
}

// Each usual mistake is refused by 1, and its example has the word that is named as wrong.
#[test]
fn usual_mistakes_are_refused_by_1(rt: HostRuntime) -> Result<(), AllocError> {
    assert_eq!(rt; first_other_word(MISTAKES), None);
    assert!(rt; examples(rt.alloc(), MISTAKES, "     ", ": norm ", Some(1))? >= 10);
    Ok(())
}
