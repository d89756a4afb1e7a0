//! The line of an era.

use crate::field::{put_fields, put_list};
use crate::flow::{destination_of, destination_port, source_of, source_port};
use crate::put::Put;
use crate::value::{Part, Value, Word, dashed, hidden, key, number_if, of_text, only_if, shown};
use crate::word::{by_word, end_word, opened_word};
use crate::{EraView, Format, Opened};

// Nanoseconds of a second.
const SECOND: u64 = 1_000_000_000;

/// Returns the text before the number of an era.
pub(crate) fn era_lead(second: bool) -> &'static str {
    if second { "era second " } else { "era " }
}

// Returns what began an era.
fn opened_of(opened: Option<Opened>) -> Value<'static> {
    opened.map_or(Value::Absent, |opened| of_text(opened_word(opened)))
}

// Returns what is said of the hosts of an era.
fn hosts<'a>(view: &EraView<'a>) -> [Part<'a>; 6] {
    let flow = view.flow;
    [
        hidden!("by", of_text(by_word(view.second))),
        dashed!("outside_ip", " ", source_of(flow)),
        shown!("outside_port", ":", source_port(flow)),
        dashed!("inside_ip", " <-> ", destination_of(flow)),
        shown!("inside_port", ":", destination_port(flow)),
        shown!("opened", " opened ", opened_of(view.opened)),
    ]
}

// Returns the times of an era.
fn times<'a>(view: &EraView<'a>) -> [Part<'a>; 6] {
    let any = view.records != 0;
    let (first, last) = (view.first, view.last);
    [
        dashed!("first", " ", only_if(any, Value::Word(Word::Time(first)))),
        hidden!("first_seconds", only_if(any, Value::Number(first / SECOND))),
        hidden!(
            "first_nanoseconds",
            only_if(any, Value::Number(first % SECOND)),
        ),
        dashed!("last", " ", only_if(any, Value::Word(Word::Time(last)))),
        hidden!("last_seconds", only_if(any, Value::Number(last / SECOND))),
        hidden!(
            "last_nanoseconds",
            only_if(any, Value::Number(last % SECOND)),
        ),
    ]
}

// Returns what is counted of an era, and how it ended.
fn counts<'a>(view: &EraView<'a>) -> [Part<'a>; 4] {
    [
        shown!("records", " records ", Value::Number(view.records)),
        shown!("sent", " sent ", Value::Number(view.sent)),
        shown!("octets", " octets ", number_if(view.octets)),
        shown!("end", " ", of_text(end_word(view.end))),
    ]
}

/// Writes the fields after the number of the era.
pub(crate) fn put_era(text: &mut String, format: Format, view: &EraView<'_>) -> Put {
    put_fields(text, format, &hosts(view))?;
    put_fields(text, format, &times(view))?;
    put_fields(text, format, &counts(view))?;
    put_list(text, format, key!("rules"), view.rules)?;
    Ok(())
}
