//! The summary of a whole run.

use crate::field::{
    Element, close_list, open_list, put_elements, put_fields, put_group, put_list, put_values,
    separator,
};
use crate::json::put_object;
use crate::put::{Put, between, put_number, put_text};
use crate::rule_list::put_sentence;
use crate::value::{Numbered, Part, Value, Word, hidden, key, make_part, of_text, shown};
use crate::{EraCounts, Format, RuleCount, Sides, Summary, VerdictCounts};
use run_notes::{HostCount, NumberCount};

// The key of a field, and the text before it on a text line.
type Named = (&'static str, &'static str);

// The lines of the first engine, by side.
const FIRST: [Named; 3] = [
    (key!("in_lines"), "\nin "),
    (key!("out_lines"), "\nout "),
    (key!("neither_lines"), "\n- "),
];

// Those of the second.
const SECOND: [Named; 3] = [
    (key!("second_in_lines"), "\nsecond in "),
    (key!("second_out_lines"), "\nsecond out "),
    (key!("second_neither_lines"), "\nsecond - "),
];

// Returns how many lines have each verdict.
fn verdict_parts(counts: &VerdictCounts) -> [Part<'static>; 4] {
    [
        shown!("pass", "pass ", Value::Number(counts.pass)),
        shown!("fix", " fix ", Value::Number(counts.fix)),
        shown!("hold", " hold ", Value::Number(counts.hold)),
        shown!("drop", " drop ", Value::Number(counts.drop)),
    ]
}

// Returns how many eras there are.
fn era_parts(eras: &EraCounts) -> [Part<'static>; 9] {
    [
        shown!("all", "", Value::Number(eras.all)),
        shown!("live", " live ", Value::Number(eras.live)),
        shown!("reset", " reset ", Value::Number(eras.reset)),
        shown!("evicted", " evicted ", Value::Number(eras.evicted)),
        shown!("idle", " idle ", Value::Number(eras.idle)),
        shown!("reopened", " reopened ", Value::Number(eras.reopened)),
        shown!("opened_in", " opened in ", Value::Number(eras.opened_in)),
        shown!("opened_out", " out ", Value::Number(eras.opened_out)),
        shown!("opened_mid", " mid ", Value::Number(eras.opened_mid)),
    ]
}

// Returns how many lines name a rule.
fn all_sides(count: RuleCount) -> u64 {
    count
        .inward
        .saturating_add(count.outward)
        .saturating_add(count.neither)
}

// Returns how many lines name a rule, by side.
fn rule_parts(count: RuleCount) -> [Part<'static>; 4] {
    [
        hidden!("rule", of_text(count.rule.name())),
        hidden!("in", Value::Number(count.inward)),
        hidden!("out", Value::Number(count.outward)),
        hidden!("neither", Value::Number(count.neither)),
    ]
}

// Writes how many lines name a rule as text.
fn put_rule_text(text: &mut String, count: RuleCount) -> Put {
    put_text(text, "\nrule ")?;
    put_text(text, count.rule.name())?;
    put_text(text, " ")?;
    put_number(text, all_sides(count))?;
    put_sentence(text, count.rule)
}

impl Element for RuleCount {
    fn put(&self, text: &mut String, format: Format) -> Put {
        match format {
            Format::Json => put_object(text, &rule_parts(*self)),
            Format::Text | Format::Table => put_rule_text(text, *self),
        }
    }
}

impl Element for HostCount {
    fn put(&self, text: &mut String, format: Format) -> Put {
        let parts = [
            shown!("ip", "", Value::Word(Word::Address(self.ip))),
            shown!("count", " ", Value::Number(self.count)),
        ];
        put_values(text, format, &parts)
    }
}

// Writes the field of the hosts of a side with their records, which no text line has where there
// are none.
fn put_hosts(text: &mut String, format: Format, key: &str, lead: &str, hosts: &[HostCount]) -> Put {
    open_list(text, format, key, hosts.is_empty())?;
    if format == Format::Text && !hosts.is_empty() {
        put_text(text, lead)?;
    }
    let separator = if format == Format::Json { "," } else { ", " };
    put_elements(text, format, separator, hosts)?;
    close_list(text, format)
}

// Returns how many records have a type or a protocol that is not judged.
fn number_parts(kind: Numbered, number: NumberCount) -> [Part<'static>; 2] {
    let first = match kind {
        Numbered::Types => shown!(
            "type",
            "\nethertype ",
            Value::Word(Word::Hex16(number.number)),
        ),
        Numbered::Protocols => shown!(
            "protocol",
            "\nprotocol ",
            Value::Number(u64::from(number.number)),
        ),
    };
    [first, shown!("count", " ", Value::Number(number.count))]
}

// Writes the field of how many records have each type or protocol.
fn put_numbers(
    text: &mut String,
    format: Format,
    key: &str,
    kind: Numbered,
    list: &[NumberCount],
) -> Put {
    open_list(text, format, key, list.is_empty())?;
    for (at, number) in list.iter().enumerate() {
        put_text(text, between(at, separator(format)))?;
        put_values(text, format, &number_parts(kind, *number))?;
    }
    close_list(text, format)
}

// Returns the number of frames, and of fragments whose datagram was never complete: it is on a text
// line where there are some.
fn frame_parts(frames: u64, unfinished: u64) -> [Part<'static>; 2] {
    let count = Value::Number(unfinished);
    [
        shown!("frames", "\nframes ", Value::Number(frames)),
        if unfinished == 0 {
            hidden!("unfinished", count)
        } else {
            shown!("unfinished", "\nunfinished ", count)
        },
    ]
}

// Writes the fields of how many lines of an engine have each verdict, by side.
fn put_sides(text: &mut String, format: Format, fields: &[Named; 3], sides: &Sides) -> Put {
    let [inward, outward, neither] = fields;
    put_group(
        text,
        format,
        inward.0,
        inward.1,
        &verdict_parts(&sides.inward),
    )?;
    put_group(
        text,
        format,
        outward.0,
        outward.1,
        &verdict_parts(&sides.outward),
    )?;
    put_group(
        text,
        format,
        neither.0,
        neither.1,
        &verdict_parts(&sides.neither),
    )
}

// Writes the fields of the lines of the second engine, where there is one.
fn put_second(text: &mut String, format: Format, second: Option<Sides>) -> Put {
    if let Some(sides) = second {
        return put_sides(text, format, &SECOND, &sides);
    }
    for (key, _) in SECOND {
        let absent = make_part(key, None, false, Value::Absent);
        put_fields(text, format, &[absent])?;
    }
    Ok(())
}

// Writes the fields of what was not judged, and of the hosts.
fn put_named(text: &mut String, format: Format, summary: &Summary<'_>) -> Put {
    put_numbers(text, format, key!("types"), Numbered::Types, summary.types)?;
    put_numbers(
        text,
        format,
        key!("protocols"),
        Numbered::Protocols,
        summary.protocols,
    )?;
    put_hosts(
        text,
        format,
        key!("outside_hosts"),
        "\noutside ",
        summary.outside_hosts,
    )?;
    put_hosts(
        text,
        format,
        key!("inside_hosts"),
        "\ninside ",
        summary.inside_hosts,
    )
}

/// Writes the fields after the number of records.
pub(crate) fn put_summary(text: &mut String, format: Format, summary: &Summary<'_>) -> Put {
    put_sides(text, format, &FIRST, &summary.first)?;
    put_second(text, format, summary.second)?;
    put_fields(
        text,
        format,
        &frame_parts(summary.frames, summary.unfinished),
    )?;
    put_named(text, format, summary)?;
    put_list(text, format, key!("rule_counts"), summary.rules)?;
    put_group(
        text,
        format,
        key!("era_counts"),
        "\neras ",
        &era_parts(&summary.eras),
    )
}
