//! The lines of notes.

use crate::Format;
use crate::field::{close_list, open_list, put_fields};
use crate::json::put_object;
use crate::put::{Put, between, put_number, put_text};
use crate::value::{Part, Value, hidden, key, of_text, shown};
use rule_book::Rule;
use run_notes::{BySide, Full, Note, RuleDrops, Tagged};

/// Returns the name of a note.
pub(crate) fn note_name(note: Note) -> &'static str {
    match note {
        Note::Lost { .. } => "lost",
        Note::Order { .. } => "order",
        Note::Half { .. } => "half",
        Note::One { .. } => "one",
        Note::Card { .. } => "card",
        Note::Wrong { .. } => "wrong",
        Note::Twice { .. } => "twice",
        Note::Foreign { .. } => "foreign",
        Note::Tagged { .. } => "tagged",
        Note::Ipv6 { .. } => "ipv6",
        Note::Tunnels { .. } => "tunnels",
        Note::Full { .. } => "full",
        Note::Cut { .. } => "cut",
        Note::Unjudged { .. } => "unjudged",
    }
}

// Returns a count by side.
fn side_parts(count: BySide) -> [Part<'static>; 3] {
    [
        shown!("in", " in ", Value::Number(count.inward)),
        shown!("out", " out ", Value::Number(count.outward)),
        shown!("neither", " neither ", Value::Number(count.neither)),
    ]
}

// Returns two counts, by the side that sent what is counted.
fn sender_parts(inward: u64, outward: u64) -> [Part<'static>; 2] {
    [
        shown!("in", " in ", Value::Number(inward)),
        shown!("out", " out ", Value::Number(outward)),
    ]
}

fn half_parts(eras: u64, segments: u64) -> [Part<'static>; 2] {
    [
        shown!("eras", " eras ", Value::Number(eras)),
        shown!("segments", " segments ", Value::Number(segments)),
    ]
}

// Returns the IPv4 packets after tags, in PPPoE and after labels.
fn tagged_parts(records: Tagged) -> [Part<'static>; 3] {
    [
        shown!("vlan", " vlan ", Value::Number(records.vlan)),
        shown!("pppoe", " pppoe ", Value::Number(records.pppoe)),
        shown!("mpls", " mpls ", Value::Number(records.mpls)),
    ]
}

// Returns records by the option whose table was full.
fn full_parts(full: Full) -> [Part<'static>; 5] {
    [
        shown!("flows", " flows ", Value::Number(full.flows)),
        shown!("cells", " cells ", Value::Number(full.cells)),
        shown!("quota", " quota ", Value::Number(full.quota)),
        shown!("frags", " frags ", Value::Number(full.frags)),
        shown!("frag_cells", " frag-cells ", Value::Number(full.frag_cells)),
    ]
}

// Writes how many records a rule dropped.
fn put_drops(text: &mut String, json: bool, drops: RuleDrops) -> Put {
    if json {
        return put_object(
            text,
            &[
                hidden!("rule", of_text(drops.rule.name())),
                hidden!("count", Value::Number(drops.count)),
            ],
        );
    }
    put_text(text, drops.rule.name())?;
    put_text(text, " ")?;
    put_number(text, drops.count)
}

// Writes the field of how many records each rule dropped. Those that dropped none are the last.
fn put_all_drops(text: &mut String, format: Format, rules: &[RuleDrops]) -> Put {
    let some = &rules[..rules.partition_point(|drops| drops.count > 0)];
    let json = format == Format::Json;
    open_list(text, format, key!("by_rule"), some.is_empty())?;
    for (at, drops) in some.iter().enumerate() {
        put_text(text, before_drops(json, at))?;
        put_drops(text, json, *drops)?;
    }
    close_list(text, format)
}

// Returns the text before the records of a rule.
fn before_drops(json: bool, at: usize) -> &'static str {
    if json {
        between(at, ",")
    } else if at == 0 {
        " rules "
    } else {
        ", "
    }
}

// Writes the records that were dropped before their payload was judged.
fn put_unjudged(
    text: &mut String,
    format: Format,
    records: u64,
    of: u64,
    rules: &[RuleDrops],
) -> Put {
    put_fields(
        text,
        format,
        &[
            shown!("records", " records ", Value::Number(records)),
            shown!("of", " of ", Value::Number(of)),
        ],
    )?;
    put_all_drops(text, format, rules)
}

// Writes the counts of a note.
fn put_counts(text: &mut String, format: Format, note: Note) -> Put {
    match note {
        Note::Lost { inward, outward } | Note::Order { inward, outward } => {
            put_fields(text, format, &sender_parts(inward, outward))
        }
        Note::Half { eras, segments } => put_fields(text, format, &half_parts(eras, segments)),
        Note::One { records } | Note::Card { records } | Note::Wrong { records } => {
            put_fields(text, format, &side_parts(records))
        }
        Note::Tagged { records, .. } => put_fields(text, format, &tagged_parts(records)),
        Note::Full { records } => put_fields(text, format, &full_parts(records)),
        Note::Twice { records }
        | Note::Foreign { records }
        | Note::Ipv6 { records, .. }
        | Note::Tunnels { records, .. }
        | Note::Cut { records } => put_fields(
            text,
            format,
            &[shown!("records", " records ", Value::Number(records))],
        ),
        Note::Unjudged { records, of, rules } => put_unjudged(text, format, records, of, &rules),
    }
}

// Returns what to do where checksums are left to the network card: those of outbound packets are
// computed by norm.
#[rattlefmt::skip]
fn card_advice(records: BySide) -> &'static str
{
    if records.inward == 0 && records.neither == 0 {
        "outbound checksums are left to the network card: run norm with --offload"
    } else {
        "checksums are left to the network card: ethtool -K DEV tx off tso off at the senders, and capture again"
    }
}

// Returns what to do where IPv4 is dropped after tags, in PPPoE or after labels.
#[rattlefmt::skip]
fn tagged_advice(records: Tagged) -> &'static str
{
    match (records.vlan > 0, records.pppoe > 0 || records.mpls > 0) {
        (true, true) => "IPv4 after VLAN tags is dropped: tcprewrite --enet-vlan=del -i IN -o UNTAGGED, and run norm on UNTAGGED; \
            IPv4 in PPPoE or MPLS is dropped: capture where packets have neither",
        (false, true) => "IPv4 in PPPoE or MPLS is dropped: capture where packets have neither",
        _ => "IPv4 after VLAN tags is dropped: tcprewrite --enet-vlan=del -i IN -o UNTAGGED, and run norm on UNTAGGED",
    }
}

// Returns what to do where records were dropped before their payload was judged, by the rule that
// dropped most of them.
#[rattlefmt::skip]
fn unjudged_advice(of: u64, most: Rule) -> &'static str
{
    if of == 0 {
        return "IN has no record: was it captured on the right interface, with the right filter?";
    }
    match most {
        Rule::LType => "most records are no IPv4: see tagged and ipv6",
        Rule::IVersion => "most records are no IPv4: was the capture converted with the wrong link type?",
        Rule::ISide | Rule::ISrc | Rule::IDst => "most packets have no side: PREFIX must name the inside",
        _ => "most records were dropped before their payload was judged",
    }
}

// Returns what to do.
#[rattlefmt::skip]
fn advice(note: Note) -> &'static str
{
    match note {
        Note::Lost { .. } => "IN lacks packets: capture again with a greater buffer (-B of tcpdump or dumpcap), and see how many packets were dropped",
        Note::Order { .. } => "octets follow their acknowledgment: reordercap IN SORTED, and run norm on SORTED",
        Note::Half { .. } => "IN begins in mid-connection, or is one of several files: norm-rotated joins the files of a rotated capture",
        Note::One { .. } => "TCP of one direction: capture both directions, or correct PREFIX or the name of --inside",
        Note::Wrong { .. } => "most checksums are wrong: capture with gro off and lro off; correcting them in IN would also correct an attacker's",
        Note::Twice { .. } => "packets are in IN twice: capture on one interface and not on any; editcap -d removes copies that are equal in every octet",
        Note::Foreign { .. } => "most packets belong to no side: PREFIX is to name the inside; tshark -q -z endpoints,ip -r IN lists addresses",
        Note::Ipv6 { .. } => "TCP and UDP over IPv6 are dropped and not judged",
        Note::Tunnels { .. } => "tunnels and SCTP are dropped: capture inside of a tunnel",
        Note::Full { .. } => "a table was full: run norm again with a greater value of each option that counts here: --flows, --cells, --quota, --frags, --frag-cells",
        Note::Cut { .. } => "packets are cut short: capture again with tcpdump -s 0",
        Note::Card { records } => card_advice(records),
        Note::Tagged { records, .. } => tagged_advice(records),
        Note::Unjudged { of, rules, .. } => unjudged_advice(of, rules[0].rule),
    }
}

/// Writes the fields of a note after its name.
pub(crate) fn put_note(text: &mut String, format: Format, note: Note) -> Put {
    put_counts(text, format, note)?;
    put_fields(
        text,
        format,
        &[shown!("advice", ": ", of_text(advice(note)))],
    )
}
