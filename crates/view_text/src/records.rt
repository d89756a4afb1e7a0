//! The line of a record.

use crate::change::put_changes;
use crate::field::{put_fields, put_list};
use crate::flow::{
    ack_of, destination_of, destination_port, flags_of, icmp_code_of, icmp_type_of, id_of, more_of,
    offset_of, proto_of, seq_of, source_of, source_port, window_of,
};
use crate::put::Put;
use crate::rule_list::put_explained;
use crate::value::{Part, Value, Word, dashed, hidden, key, number_if, of_text, only_if, shown};
use crate::word::{by_word, side_word, verdict_word};
use crate::{Format, ShownLine};
use frame_view::Flow;
use rule_book::Rule;
use wire_base::Side;

// The EtherType of ARP (RFC 826).
const ARP: u16 = 0x0806;

// Nanoseconds of a second.
const SECOND: u64 = 1_000_000_000;

// Returns the number of the line in the report.
fn own_part(second: bool, number: u64, own: u32) -> Part<'static> {
    if second {
        shown!("number", "/", Value::Number(u64::from(own)))
    } else {
        hidden!("number", Value::Number(number))
    }
}

// Returns which way the packet went.
fn side_of(side: Option<Side>) -> Value<'static> {
    side.map_or(Value::Absent, |side| of_text(side_word(side)))
}

// Returns the text before an EtherType on a text line.
fn ether_lead(ethertype: Option<u16>) -> &'static str {
    match ethertype {
        None | Some(ARP) => " ",
        Some(_) => " ethertype ",
    }
}

// Returns the EtherType.
fn ether_of(ethertype: Option<u16>) -> Value<'static> {
    match ethertype {
        None => Value::Absent,
        Some(ARP) => of_text("arp"),
        Some(number) => Value::Word(Word::Hex16(u32::from(number))),
    }
}

// Returns the protocol.
fn proto_part(ethertype: Option<u16>, flow: Option<Flow>) -> Part<'static> {
    Part {
        key: key!("proto"),
        lead: Some(" "),
        dash: ethertype.is_none(),
        value: proto_of(flow),
    }
}

// Returns whether T_WINDOW is among rules.
fn names_window(rules: &[Rule]) -> bool {
    rules.iter().any(|rule| *rule == Rule::TWindow)
}

// Returns whether a rule is one on fragments.
fn is_fragment_rule(rule: Rule) -> bool {
    rule.name().as_bytes().first() == Some(&b'F')
}

// Returns the packet of a line that names a rule on fragments.
fn fragment_in(rules: &[Rule], flow: Option<Flow>) -> Option<Flow> {
    let named = rules.iter().any(|rule| is_fragment_rule(*rule));
    if named { flow } else { None }
}

// Returns the number of frames.
fn frames_part(given: bool, count: u8) -> Part<'static> {
    if given {
        hidden!("frames", Value::Number(u64::from(count)))
    } else {
        shown!("frames", " frames ", Value::Number(u64::from(count)))
    }
}

// Returns the fields before those of the packet.
fn front(view: &ShownLine) -> [Part<'_>; 6] {
    [
        hidden!("by", of_text(by_word(view.second))),
        own_part(view.second, view.number, view.own),
        shown!("time", " ", Value::Word(Word::Time(view.time))),
        hidden!("seconds", Value::Number(view.time / SECOND)),
        hidden!("nanoseconds", Value::Number(view.time % SECOND)),
        dashed!("side", " ", side_of(view.entry.side)),
    ]
}

// Returns the fields of the packet.
fn packet(view: &ShownLine) -> [Part<'_>; 12] {
    let flow = view.flow;
    [
        dashed!("src_ip", " ", source_of(flow)),
        shown!("src_port", ":", source_port(flow)),
        dashed!("dest_ip", " > ", destination_of(flow)),
        shown!("dest_port", ":", destination_port(flow)),
        proto_part(view.ethertype, flow),
        shown!(
            "ethertype",
            ether_lead(view.ethertype),
            ether_of(view.ethertype),
        ),
        shown!("flags", " ", flags_of(flow)),
        shown!("seq", " seq ", seq_of(flow)),
        shown!("ack", " ack ", ack_of(flow)),
        shown!(
            "window",
            " window ",
            only_if(names_window(view.entry.rules.as_slice()), window_of(flow)),
        ),
        shown!("icmp_type", " type ", icmp_type_of(flow)),
        shown!("icmp_code", " code ", icmp_code_of(flow)),
    ]
}

// Returns the fields of a fragment, the length, and the verdict.
fn judged(view: &ShownLine) -> [Part<'_>; 7] {
    let fragment = fragment_in(view.entry.rules.as_slice(), view.flow);
    let entry = &view.entry;
    [
        shown!("id", " id ", id_of(fragment)),
        shown!("offset", " offset ", offset_of(fragment)),
        shown!("more", " more", more_of(fragment)),
        shown!("length", " len ", Value::Number(view.length)),
        shown!("verdict", " ", of_text(verdict_word(entry.verdict))),
        shown!("era", " era ", number_if(entry.era.map(u64::from))),
        shown!(
            "begun",
            " begins era ",
            number_if(entry.begun.map(u64::from)),
        ),
    ]
}

// Returns the fields of the frames.
fn written(view: &ShownLine) -> [Part<'_>; 3] {
    let (count, before) = (view.entry.packets, view.before);
    let out = !view.given && count != 0;
    [
        frames_part(view.given, count),
        shown!(
            "given",
            " given ",
            only_if(view.given, Value::Number(u64::from(count))),
        ),
        shown!(
            "frames_out",
            " out ",
            only_if(out, Value::Frames { before, count }),
        ),
    ]
}

// Returns which engines made the changes of a line: those of the second are compared with IN.
fn changes_by(second: bool) -> Part<'static> {
    hidden!("changes_by", of_text(if second { "both" } else { "first" }))
}

/// Writes the fields after the number of the record.
pub(crate) fn put_record(text: &mut String, format: Format, view: &ShownLine) -> Put {
    put_fields(text, format, &front(view))?;
    put_fields(text, format, &packet(view))?;
    put_fields(text, format, &judged(view))?;
    put_list(text, format, key!("ended"), view.entry.ended.as_slice())?;
    put_explained(text, format, view.entry.rules.as_slice())?;
    put_fields(text, format, &written(view))?;
    put_changes(text, format, view)?;
    put_fields(text, format, &[changes_by(view.second)])?;
    Ok(())
}
