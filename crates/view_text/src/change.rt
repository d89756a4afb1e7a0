//! What differs between a record and its frames, in each format.

use crate::field::{close_list, open_list, put_parts, put_values, separator};
use crate::flow::{ack_of, flags_of, proto_of, seq_of};
use crate::json::{put_first_members, put_members};
use crate::put::{Put, between, put_number, put_text};
use crate::value::{Part, Value, Word, dashed, hidden, key, number_if, of_text, shown};
use crate::word::made_word;
use crate::{Format, ShownLine};
use frame_view::{Change, Field, Flow, Made, PayloadChange, Replaced, Said};
use run_notes::Clash;
use wire_base::Addr;

// Returns what a frame says in a field.
fn said_value(field: Field, said: &Said) -> Value<'_> {
    match said {
        Said::Nothing => Value::Absent,
        Said::Number(number) => Value::Word(number_word(field, *number)),
        Said::Octets(octets) => Value::Word(Word::Hex(octets.as_slice())),
    }
}

// Returns the text of the number in a field.
fn number_word(field: Field, number: u32) -> Word<'static> {
    match field {
        Field::HeaderChecksum | Field::Checksum => Word::Hex16(number),
        Field::Source | Field::Destination => Word::Address(Addr(number)),
        Field::Flags => Word::Flags(number),
        _ => Word::Decimal(number),
    }
}

// Returns the number in a field, where its text is decimal.
fn said_number(field: Field, said: &Said) -> Value<'static> {
    match said {
        Said::Number(number) if matches!(number_word(field, *number), Word::Decimal(_)) => {
            Value::Number(u64::from(*number))
        }
        _ => Value::Absent,
    }
}

// Returns octets after their count, where there are some.
fn some_octets(octets: &[u8]) -> Value<'_> {
    if octets.is_empty() {
        Value::Absent
    } else {
        Value::Counted(octets)
    }
}

// Returns the number of a frame, which its lead has on a text line.
fn frame_part(frame: u32) -> Part<'static> {
    hidden!("frame", Value::Number(u64::from(frame)))
}

// Returns that a frame that norm made itself is compared with no record.
fn compared(kind: Made) -> Part<'static> {
    match kind {
        Made::Probe => hidden!("compared", Value::Mark(false)),
        Made::Datagram => dashed!("compared", ", compared with no record", Value::Mark(false)),
    }
}

// Returns what differs in a field.
fn field_parts<'a>(frame: u32, field: Field, from: &'a Said, to: &'a Said) -> [Part<'a>; 6] {
    [
        frame_part(frame),
        shown!("field", "", of_text(field.name())),
        dashed!("from", " ", said_value(field, from)),
        dashed!("to", " > ", said_value(field, to)),
        hidden!("from_number", said_number(field, from)),
        hidden!("to_number", said_number(field, to)),
    ]
}

// Returns what differs in a payload, but for the runs that were replaced.
fn payload_parts(frame: u32, change: &PayloadChange) -> [Part<'_>; 5] {
    [
        frame_part(frame),
        shown!("field", "", of_text("payload")),
        shown!("front", " front ", some_octets(change.front.as_slice())),
        shown!("end", " end ", some_octets(change.end.as_slice())),
        shown!("longer", " longer ", some_octets(change.longer.as_slice())),
    ]
}

// Returns what a frame is that norm made itself.
fn made_parts(frame: u32, kind: Made, flow: Option<Flow>, length: u64) -> [Part<'static>; 8] {
    [
        frame_part(frame),
        shown!("field", "", of_text(made_word(kind))),
        shown!("proto", " ", proto_of(flow)),
        shown!("flags", " ", flags_of(flow)),
        shown!("seq", " seq ", seq_of(flow)),
        shown!("ack", " ack ", ack_of(flow)),
        shown!("length", " len ", Value::Number(length)),
        compared(kind),
    ]
}

// Returns octets from an offset on, those in their place, and the record that first sent these.
fn run_parts<'a>(at: u64, from: &'a [u8], to: &'a [u8], first: Option<u32>) -> [Part<'a>; 4] {
    [
        shown!("at", " at ", Value::Number(at)),
        shown!("from_octets", " ", Value::Octets(from)),
        shown!("to_octets", " > ", Value::Octets(to)),
        shown!("first", " first ", number_if(first.map(u64::from))),
    ]
}

// Writes runs of octets that were replaced, with the records that first sent them.
fn put_runs(text: &mut String, format: Format, runs: &[Replaced], firsts: &[Option<u32>]) -> Put {
    for (index, run) in runs.iter().enumerate() {
        put_text(text, between(index, separator(format)))?;
        let first = firsts.get(index).copied().flatten();
        let parts = run_parts(run.at as u64, run.from.as_slice(), run.to.as_slice(), first);
        put_values(text, format, &parts)?;
    }
    Ok(())
}

// Writes what differs in a payload.
fn put_payload(
    text: &mut String,
    format: Format,
    frame: u32,
    change: &PayloadChange,
    firsts: &[Option<u32>],
) -> Put {
    let runs = change.replaced.as_slice();
    put_inner(text, format, &payload_parts(frame, change))?;
    if format != Format::Json {
        return put_runs(text, format, runs, firsts);
    }
    put_text(text, key!("replaced"))?;
    put_text(text, "[")?;
    put_runs(text, format, runs, firsts)?;
    put_text(text, "]")
}

// Writes named values as the members of an object, or as text.
fn put_inner(text: &mut String, format: Format, parts: &[Part<'_>]) -> Put {
    match format {
        Format::Json => put_first_members(text, parts),
        Format::Text | Format::Table => put_parts(text, parts),
    }
}

// Writes a change as text, or as the members of an object.
fn put_change(text: &mut String, format: Format, change: &Change, firsts: &[Option<u32>]) -> Put {
    match change {
        Change::InField {
            frame,
            field,
            from,
            to,
        } => put_inner(text, format, &field_parts(*frame, *field, from, to)),
        Change::InPayload { frame, payload } => put_payload(text, format, *frame, payload, firsts),
        Change::Made {
            frame,
            kind,
            flow,
            length,
        } => put_inner(text, format, &made_parts(*frame, *kind, *flow, *length)),
    }
}

// Returns the number of the changed frame.
fn frame_of(change: &Change) -> u32 {
    match change {
        Change::InField { frame, .. } => *frame,
        Change::InPayload { frame, .. } => *frame,
        Change::Made { frame, .. } => *frame,
    }
}

// Returns the name of what differs.
fn name_of(change: &Change) -> &'static str {
    match change {
        Change::InField { field, .. } => field.name(),
        Change::InPayload { .. } => "payload",
        Change::Made { kind, .. } => made_word(*kind),
    }
}

// Returns the number of runs of octets that were replaced.
fn runs_of(change: &Change) -> usize {
    match change {
        Change::InPayload { payload, .. } => payload.replaced.len(),
        Change::InField { .. } | Change::Made { .. } => 0,
    }
}

// Writes what precedes a change of `frame` on a text line, if the change before it is one of the
// frame `before`, 0 for none. Changes on a line of the second engine are those of both.
fn put_lead(text: &mut String, second: bool, before: u32, frame: u32) -> Put {
    if before == frame {
        return put_text(text, ", ");
    }
    let both = second && before == 0;
    put_text(
        text,
        if both {
            "; by both engines: frame "
        } else {
            "; frame "
        },
    )?;
    put_number(text, u64::from(frame))?;
    put_text(text, " ")
}

// Writes a change with what precedes it, as an element of a list.
fn put_element(
    text: &mut String,
    format: Format,
    at: usize,
    change: &Change,
    firsts: &[Option<u32>],
) -> Put {
    put_text(text, between(at, separator(format)))?;
    if format == Format::Table {
        put_number(text, u64::from(frame_of(change)))?;
        put_text(text, ":")?;
        return put_text(text, name_of(change));
    }
    put_text(text, "{")?;
    put_change(text, format, change, firsts)?;
    put_text(text, "}")
}

// Returns what follows this number of runs.
fn after(firsts: &[Option<u32>], runs: usize) -> &[Option<u32>] {
    match firsts.get(runs..) {
        Some(rest) => rest,
        None => &[],
    }
}

// Writes changes frame by frame, each with the records that first sent its replaced octets.
fn put_each(text: &mut String, format: Format, line: &ShownLine) -> Put {
    let mut firsts = line.firsts.as_slice();
    let mut before = 0;
    for (at, change) in line.changes.iter().enumerate() {
        let frame = frame_of(change);
        if format == Format::Text {
            put_lead(text, line.second, before, frame)?;
            put_change(text, format, change, firsts)?;
        } else {
            put_element(text, format, at, change, firsts)?;
        }
        before = frame;
        firsts = after(firsts, runs_of(change));
    }
    Ok(())
}

// Returns octets of a fragment that differ from those held.
fn clash_parts(clash: &Clash) -> [Part<'_>; 4] {
    run_parts(
        clash.at,
        clash.from.as_slice(),
        clash.to.as_slice(),
        Some(clash.first),
    )
}

// Writes octets of a fragment that differ from those held, after `count` changes.
fn put_clash(text: &mut String, format: Format, count: usize, clash: &Clash) -> Put {
    put_text(text, between(count, separator(format)))?;
    match format {
        Format::Text => {
            put_text(text, "; fragment")?;
            put_parts(text, &clash_parts(clash))
        }
        Format::Json => {
            put_text(text, "{\"frame\":null")?;
            put_members(text, &[hidden!("field", of_text("fragment"))])?;
            put_members(text, &clash_parts(clash))?;
            put_text(text, "}")
        }
        Format::Table => put_text(text, "-:fragment"),
    }
}

/// Writes the field of what differs between a record and its frames, and between a fragment and
/// those held.
pub(crate) fn put_changes(text: &mut String, format: Format, line: &ShownLine) -> Put {
    let count = line.changes.len();
    open_list(
        text,
        format,
        key!("changes"),
        count == 0 && line.clash.is_none(),
    )?;
    put_each(text, format, line)?;
    if let Some(clash) = &line.clash {
        put_clash(text, format, count, clash)?;
    }
    close_list(text, format)
}
