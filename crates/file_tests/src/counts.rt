//! Lines of eras and of whole runs, written by hand.
use crate::lines::{ACK, is_line};
use edge_io::NoMemory;
use rule_book::{Reason, Rule};
use run_notes::{HostCount, NumberCount};
use std::alloc::Global;
use view_text::{
    EraCounts, EraView, EvidenceCounts, Format, Opened, RuleCount, Sides, Summary, VerdictCounts,
    chosen_line, era_line, evidence_lines, stop_line, summary_line,
};
use wire_base::Addr;

const LIVE: EraView<'static> = EraView {
    era: 1,
    second: false,
    flow: Some(ACK),
    opened: Some(Opened::In),
    first: 0,
    last: u64::MAX,
    records: 4,
    sent: 10,
    octets: None,
    end: None,
    rules: &[Rule::TClash, Rule::TQuota],
};

const ENDED: EraView<'static> = EraView {
    second: true,
    flow: None,
    opened: None,
    octets: Some(7),
    end: Some(Reason::Evicted),
    rules: &[],
    records: 0,
    ..LIVE
};

const NO_RECORD: VerdictCounts = VerdictCounts {
    pass: 0,
    fix: 0,
    hold: 0,
    drop: 0,
};

#[rattlefmt::skip]
const SUMMARY: Summary<'static> = Summary {
    records: 10,
    first: Sides { inward: VerdictCounts { pass: 1, fix: 2, hold: 3, drop: 4 }, outward: NO_RECORD, neither: NO_RECORD },
    second: None,
    frames: 3,
    unfinished: 2,
    types: &[NumberCount { number: 0x86dd, count: 3 }],
    protocols: &[NumberCount { number: 47, count: 1 }],
    rules: &[RuleCount { rule: Rule::TClash, inward: 2, outward: 1, neither: 0 }],
    eras: EraCounts { all: 1, live: 1, reset: 0, evicted: 0, idle: 0, reopened: 0, opened_in: 1, opened_out: 0, opened_mid: 0 },
    outside_hosts: &[HostCount { ip: Addr(0xc633_6407), count: 12 }, HostCount { ip: Addr(0xcb00_7109), count: 3 }],
    inside_hosts: &[HostCount { ip: Addr(0x0a00_0001), count: 15 }],
};

const CLASSES: EvidenceCounts = EvidenceCounts {
    contradictions: 1,
    differs: 2,
    noise: 0,
};

// A format, an era, and the expected lines of it, of the summary, of three chosen records, of their
// classes, and of a stop.
type Lines = (Format, EraView<'static>, [&'static str; 5]);

#[rattlefmt::skip]
const LINES: &[Lines] = &[
    (Format::Text, LIVE, [
        "era 1 198.51.100.7:40000 <-> 10.0.0.1:80 opened in 1970-01-01T00:00:00.000000000Z 2554-07-21T23:34:33.709551615Z records 4 sent 10 live T_CLASH T_QUOTA\n",
        "records 10\nin pass 1 fix 2 hold 3 drop 4\nout pass 0 fix 0 hold 0 drop 0\n- pass 0 fix 0 hold 0 drop 0\nframes 3\n\
         unfinished 2\nethertype 0x86dd 3\nprotocol 47 1\n\
         outside 198.51.100.7 12, 203.0.113.9 3\ninside 10.0.0.1 15\n\
         rule T_CLASH 3 (octets that differ from those first sent at their offsets are replaced)\n\
         eras 1 live 1 reset 0 evicted 0 idle 0 reopened 0 opened in 1 out 0 mid 0\n",
        "chosen 3\n",
        "contradictions 1: octets that differ from those first sent (T_CLASH, F_CLASH)\n\
         differs 2: some hosts may read these otherwise\n\
         noise 0: segments without payload that are dropped, mostly scans (T_COLD, T_FLAGS)\n",
        "stop report 3\n"]),
    (Format::Json, ENDED, [
        "{\"event\":\"era\",\"era\":1,\"by\":\"second\",\"outside_ip\":null,\"outside_port\":null,\"inside_ip\":null,\"inside_port\":null,\"opened\":null,\
         \"first\":null,\"first_seconds\":null,\"first_nanoseconds\":null,\"last\":null,\"last_seconds\":null,\"last_nanoseconds\":null,\"records\":0,\
         \"sent\":10,\"octets\":7,\"end\":\"evicted\",\"rules\":[]}",
        "{\"event\":\"summary\",\"records\":10,\"in_lines\":{\"pass\":1,\"fix\":2,\"hold\":3,\"drop\":4},\"out_lines\":{\"pass\":0,\"fix\":0,\"hold\":0,\"drop\":0},\
         \"neither_lines\":{\"pass\":0,\"fix\":0,\"hold\":0,\"drop\":0},\"second_in_lines\":null,\"second_out_lines\":null,\"second_neither_lines\":null,\"frames\":3,\
         \"unfinished\":2,\"types\":[{\"type\":\"0x86dd\",\"count\":3}],\"protocols\":[{\"protocol\":47,\"count\":1}],\
         \"outside_hosts\":[{\"ip\":\"198.51.100.7\",\"count\":12},{\"ip\":\"203.0.113.9\",\"count\":3}],\
         \"inside_hosts\":[{\"ip\":\"10.0.0.1\",\"count\":15}],\"rule_counts\":[{\"rule\":\"T_CLASH\",\"in\":2,\"out\":1,\"neither\":0}],\
         \"era_counts\":{\"all\":1,\"live\":1,\"reset\":0,\"evicted\":0,\"idle\":0,\"reopened\":0,\"opened_in\":1,\"opened_out\":0,\"opened_mid\":0}}",
        "{\"event\":\"chosen\",\"records\":3}", "{\"event\":\"evidence\",\"contradictions\":1,\"differs\":2,\"noise\":0}",
        "{\"event\":\"stop\",\"status\":9,\"reason\":\"stop report 3\"}"]),
];

// Returns whether a call returned the expected line.
fn is_same(
    alloc: Global,
    format: Format,
    line: Result<String, NoMemory>,
    expected: &str,
) -> Result<bool, NoMemory> {
    let line = line?;
    Ok(is_line(alloc, format, &line, expected))
}

// Returns the first format in which one of the lines differs from its case.
fn first_other(alloc: Global, rows: &[Lines]) -> Result<Option<Format>, NoMemory> {
    for (format, era, expected) in rows {
        let format = *format;
        let era = is_same(alloc, format, era_line(alloc, format, era), expected[0])?;
        let summary = summary_line(alloc, format, &SUMMARY);
        let summary = is_same(alloc, format, summary, expected[1])?;
        let chosen = is_same(alloc, format, chosen_line(alloc, format, 3), expected[2])?;
        let classes = evidence_lines(alloc, format, &CLASSES);
        let classes = is_same(alloc, format, classes, expected[3])?;
        let stop = stop_line(alloc, format, 9, "stop report 3");
        let stop = is_same(alloc, format, stop, expected[4])?;
        if !(era && summary && chosen && classes && stop) {
            return Ok(Some(format));
        }
    }
    Ok(None)
}

#[test]
fn eras_and_runs_have_their_lines(rt: HostRuntime) -> Result<(), NoMemory> {
    assert_eq!(rt; first_other(rt.alloc(), LINES)?, None);
    Ok(())
}
