//! Lines of records, written by hand.
use arrayvec::ArrayVec;
use edge_io::NoMemory;
use frame_view::{Change, Field, Flow, Made, PayloadChange, Ports, Replaced, Said, TcpMarks};
use rule_book::{Ended, Entry, Reason, Rule, Verdict};
use serde_json::Value;
use std::alloc::Global;
use view_text::{Format, ShownLine, record_line};
use wire_base::{Addr, Flags, Side};

// 2 January 2026, 03:04:05, in nanoseconds since the beginning of 1970.
const TIME: u64 = 1_767_323_045_000_000_000;

// An acknowledgment of 198.51.100.7 to 10.0.0.1 without octets.
pub(crate) const ACK: Flow = Flow {
    src: Addr(0xc633_6407),
    dst: Addr(0x0a00_0001),
    protocol: 6,
    identification: 1,
    offset: 0,
    more: false,
    ports: Some(Ports {
        src: 40000,
        dst: 80,
    }),
    tcp: Some(TcpMarks {
        flags: Flags(16),
        seq: 999,
        ack: 5001,
        window: 8192,
    }),
    icmp: None,
    length: 0,
};

pub(crate) const UDP: Flow = Flow {
    protocol: 17,
    tcp: None,
    ..ACK
};

// Returns whether a line is the JSON of this value.
pub(crate) fn reads_as(alloc: Global, line: &str, expected: &str) -> bool {
    match (
        Value::from_str(alloc, line),
        Value::from_str(alloc, expected),
    ) {
        (Ok(value), Ok(expected)) => value == expected,
        _ => false,
    }
}

// Returns whether a line in this format equals the expected one: as a value in JSON, else as text.
pub(crate) fn is_line(alloc: Global, format: Format, line: &str, expected: &str) -> bool {
    match format {
        Format::Json => reads_as(alloc, line, expected),
        Format::Text | Format::Table => line == expected,
    }
}

// Formats, and the expected line in each.
type Lines<'a> = &'a [(Format, &'a str)];

// Returns the first format in which the line of the record differs from its case.
fn first_other(
    alloc: Global,
    view: &ShownLine,
    lines: Lines<'_>,
) -> Result<Option<Format>, NoMemory> {
    for (format, expected) in lines {
        let line = record_line(alloc, *format, view)?;
        if !is_line(alloc, *format, &line, expected) {
            return Ok(Some(*format));
        }
    }
    Ok(None)
}

// Adds changes of frame 1 in the TTL and the payload, the probe 2, and a change of the trailer
// of frame 3.
fn add_changes(alloc: Global, changes: &mut Vec<Change>) -> Result<(), NoMemory> {
    let mut replaced = Vec::new(alloc);
    replaced.push(Replaced {
        at: 2,
        from: Vec::from_slice(alloc, b"X\"")?,
        to: Vec::from_slice(alloc, b"\\\n")?,
    })?;
    changes.push(Change::InField {
        frame: 1,
        field: Field::Ttl,
        from: Said::Number(30),
        to: Said::Number(31),
    })?;
    changes.push(Change::InPayload {
        frame: 1,
        payload: PayloadChange {
            front: Vec::from_slice(alloc, b"ab")?,
            end: Vec::new(alloc),
            longer: Vec::from_slice(alloc, &[b'y'; 70])?,
            replaced,
        },
    })?;
    changes.push(Change::Made {
        frame: 2,
        kind: Made::Probe,
        flow: Some(ACK),
        length: 0,
    })?;
    changes.push(Change::InField {
        frame: 3,
        field: Field::Trailer,
        from: Said::Octets(Vec::from_slice(alloc, &[0xab])?),
        to: Said::Nothing,
    })?;
    Ok(())
}

#[rattlefmt::skip]
const CHANGED: Lines<'static> = &[
    (Format::Text,
        "4294967296/9 2026-01-02T03:04:05.000000000Z in 198.51.100.7:40000 > 10.0.0.1:80 udp len 4 fix ends era 7 idle octets 12 I_TTL (a time to live that is too low for the routers behind norm is raised) \
         frames 3 out 5-7; by both engines: frame 1 ttl 30 > 31, payload front 2 \"ab\" longer 70 \"yyyyyyyyyyyyyyyyyyyyyyyyyyyyyyyyyyyyyyyyyyyyyyyyyyyyyyyyyyyyyyyy\" and 6 more \
         at 2 \"X\\\"\" > \"\\\\\\x0a\" first 4; frame 2 probe tcp A seq 999 ack 5001 len 0; frame 3 trailer ab > -\n"),
    (Format::Json,
        "{\"event\":\"record\",\"record\":4294967296,\"by\":\"second\",\"number\":9,\"time\":\"2026-01-02T03:04:05.000000000Z\",\"seconds\":1767323045,\"nanoseconds\":0,\
         \"side\":\"in\",\"src_ip\":\"198.51.100.7\",\"src_port\":40000,\"dest_ip\":\"10.0.0.1\",\"dest_port\":80,\"proto\":\"udp\",\"ethertype\":null,\
         \"flags\":null,\"seq\":null,\"ack\":null,\"window\":null,\"icmp_type\":null,\"icmp_code\":null,\"id\":null,\"offset\":null,\"more\":null,\"length\":4,\
         \"verdict\":\"fix\",\"era\":null,\"begun\":null,\"ended\":[{\"era\":7,\"reason\":\"idle\",\"octets\":12}],\"rules\":[\"I_TTL\"],\"frames\":3,\"given\":null,\"frames_out\":[5,6,7],\"changes\":[\
         {\"frame\":1,\"field\":\"ttl\",\"from\":\"30\",\"to\":\"31\",\"from_number\":30,\"to_number\":31},\
         {\"frame\":1,\"field\":\"payload\",\"front\":{\"length\":2,\"hex\":\"6162\",\"text\":\"ab\"},\"end\":null,\"longer\":{\"length\":70,\"hex\":\
         \"79797979797979797979797979797979797979797979797979797979797979797979797979797979797979797979797979797979797979797979797979797979797979797979\",\
         \"text\":\"yyyyyyyyyyyyyyyyyyyyyyyyyyyyyyyyyyyyyyyyyyyyyyyyyyyyyyyyyyyyyyyy\"},\"replaced\":[{\"at\":2,\
         \"from_octets\":{\"length\":2,\"hex\":\"5822\",\"text\":\"X\\\\\\\"\"},\"to_octets\":{\"length\":2,\"hex\":\"5c0a\",\"text\":\"\\\\\\\\\\\\x0a\"},\"first\":4}]},\
         {\"frame\":2,\"field\":\"probe\",\"proto\":\"tcp\",\"flags\":\"A\",\"seq\":999,\"ack\":5001,\"length\":0,\"compared\":false},\
         {\"frame\":3,\"field\":\"trailer\",\"from\":\"ab\",\"to\":null,\"from_number\":null,\"to_number\":null}],\"changes_by\":\"both\"}"),
];

// Returns a line of the second engine, with these changes, on a record whose number is above 2^32,
// which no report has.
fn shown_line(changes: Vec<Change>, firsts: Vec<Option<u32>>) -> ShownLine {
    let mut entry = Entry {
        number: 9,
        side: Some(Side::Inward),
        verdict: Verdict::Fix,
        packets: 3,
        rules: ArrayVec::new(),
        era: None,
        begun: None,
        ended: ArrayVec::new(),
    };
    let _ = entry.rules.try_push(Rule::ITtl);
    let _ = entry.ended.try_push(Ended {
        era: 7,
        reason: Reason::Idle,
        octets: Some(12),
    });
    ShownLine {
        number: 1 << 32,
        second: true,
        own: 9,
        time: TIME,
        flow: Some(UDP),
        ethertype: None,
        length: 4,
        entry,
        given: false,
        before: 4,
        firsts,
        changes,
        clash: None,
    }
}

fn first_other_line(alloc: Global) -> Result<Option<Format>, NoMemory> {
    let mut changes = Vec::new(alloc);
    add_changes(alloc, &mut changes)?;
    let firsts = Vec::from_slice(alloc, &[Some(4)])?;
    first_other(alloc, &shown_line(changes, firsts), CHANGED)
}

#[test]
fn records_have_their_lines(rt: HostRuntime) -> Result<(), NoMemory> {
    assert_eq!(rt; first_other_line(rt.alloc())?, None);
    Ok(())
}
