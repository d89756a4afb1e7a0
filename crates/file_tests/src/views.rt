//! Views of short runs.
use crate::lines::reads_as;
use edge_io::{MemSink, MemSource};
use run_view::{Event, MemEvents, Printer, view};
use std::alloc::{AllocError, Global};
use std::test::Fail;

/// Little-endian, microseconds, raw IP.
const HEAD: [u8; 24] = [
    0xd4, 0xc3, 0xb2, 0xa1, 2, 0, 4, 0, 0, 0, 0, 0, 0, 0, 0, 0, 0, 0, 4, 0, 101, 0, 0, 0,
];

/// A SYN from 198.51.100.7:40000 to 10.0.0.1:80 with the sequence number 999, without checksums.
pub(crate) const SYN: [u8; 40] = [
    0x45, 0, 0, 40, 0, 1, 0, 0, 64, 6, 0, 0, 198, 51, 100, 7, 10, 0, 0, 1, 0x9c, 0x40, 0, 80, 0, 0,
    3, 0xe7, 0, 0, 0, 0, 0x50, 2, 0x20, 0, 0, 0, 0, 0,
];

/// A segment of the same connection with the octets `abcd`, and one of the other side with `xyz`.
pub(crate) const DATA: [u8; 44] = [
    0x45, 0, 0, 44, 0, 1, 0, 0, 64, 6, 0, 0, 198, 51, 100, 7, 10, 0, 0, 1, 0x9c, 0x40, 0, 80, 0, 0,
    3, 0xe8, 0, 0, 0x13, 0x89, 0x50, 0x18, 0x20, 0, 0, 0, 0, 0, b'a', b'b', b'c', b'd',
];

pub(crate) const ANSWER: [u8; 43] = [
    0x45, 0, 0, 43, 0, 1, 0, 0, 64, 6, 0, 0, 10, 0, 0, 1, 198, 51, 100, 7, 0, 80, 0x9c, 0x40, 0, 0,
    0x13, 0x88, 0, 0, 3, 0xe8, 0x50, 0x10, 0x20, 0, 0, 0, 0, 0, b'x', b'y', b'z',
];

/// `ANSWER` with the payload `xyw`.
const REWRITTEN: [u8; 43] = [
    0x45, 0, 0, 43, 0, 1, 0, 0, 64, 6, 0, 0, 10, 0, 0, 1, 198, 51, 100, 7, 0, 80, 0x9c, 0x40, 0, 0,
    0x13, 0x88, 0, 0, 3, 0xe8, 0x50, 0x10, 0x20, 0, 0, 0, 0, 0, b'x', b'y', b'w',
];

/// Three octets, too few for an IPv4 header.
const SHORT: [u8; 3] = [1, 2, 3];

/// A finished run: input and output, each as the number of its link and its frames, and report.
#[derive(Clone, Copy)]
pub(crate) struct Run {
    pub(crate) input: (u8, &'static [&'static [u8]]),
    pub(crate) output: (u8, &'static [&'static [u8]]),
    pub(crate) report: &'static str,
}

/// The expected output of a view.
#[derive(Clone, Copy)]
pub(crate) enum Written {
    /// These texts, one after another.
    Texts(&'static [&'static str]),
    /// These values in JSON, one a line.
    Values(&'static [&'static str]),
    /// Lines that begin with these texts.
    Fronts(&'static [&'static str]),
}

use Written::{Fronts, Texts, Values};

/// A view of a run: its words, and the expected status and output. `failing` has the number of the
/// call that fails of input, output, report and the view's own output, or 0.
#[derive(Clone, Copy)]
pub(crate) struct View {
    pub(crate) run: Run,
    pub(crate) words: &'static str,
    pub(crate) failing: [u32; 4],
    pub(crate) status: u8,
    pub(crate) written: Written,
}

/// Returns the numbers of the calls that fail: this one, or none for 0.
fn only(alloc: Global, call: u32) -> Result<Vec<u32>, AllocError> {
    let mut calls = Vec::new(alloc);
    if call > 0 {
        calls.push(call)?;
    }
    Ok(calls)
}

fn line(alloc: Global, words: &str) -> Result<Vec<String>, AllocError> {
    let mut line = Vec::new(alloc);
    for word in words.split_whitespace() {
        line.push(String::from_str(alloc, word)?)?;
    }
    Ok(line)
}

/// Returns a capture of these frames, the first at second 1 and each later one a second after.
fn capture(alloc: Global, link: u8, records: &[&[u8]]) -> Result<Vec<u8>, AllocError> {
    let mut head = HEAD;
    head[20] = link;
    let mut file = Vec::from_slice(alloc, &head)?;
    let mut second = 1u8;
    for octets in records {
        let size = octets.len().min(255) as u8;
        file.extend_from_slice(&[second, 0, 0, 0, 7, 0, 0, 0, size, 0, 0, 0, size, 0, 0, 0])?;
        file.extend_from_slice(octets)?;
        second = second.saturating_add(1);
    }
    Ok(file)
}

/// Returns a source of a capture: calls return at most `piece` octets, and call `failing` fails.
fn capture_source(
    alloc: Global,
    (link, records): (u8, &[&[u8]]),
    piece: usize,
    failing: u32,
) -> Result<MemSource, AllocError> {
    let calls = only(alloc, failing)?;
    Ok(MemSource::new(capture(alloc, link, records)?, piece.max(1), calls))
}

fn report_source(alloc: Global, report: &str, failing: u32) -> Result<MemSource, AllocError> {
    let calls = only(alloc, failing)?;
    Ok(MemSource::new(Vec::from_slice(alloc, report.as_bytes())?, 5, calls))
}

/// Returns whether a text is these texts, one after another.
fn is_text(text: &str, texts: &[&str]) -> bool {
    let mut left = text.as_bytes();
    for one in texts {
        match left.strip_prefix(one.as_bytes()) {
            Some(rest) => left = rest,
            None => return false,
        }
    }
    left.is_empty()
}

fn is_line(alloc: Global, json: bool, line: &str, expected: &str) -> bool {
    if json {
        reads_as(alloc, line, expected)
    } else {
        line.starts_with(expected)
    }
}

/// Returns whether a text is one line for each of these: as a value in JSON, else as its front.
pub(crate) fn has_lines(alloc: Global, json: bool, text: &str, expected: &[&str]) -> bool {
    let mut count = 0usize;
    for line in text.lines() {
        match expected.get(count) {
            Some(one) if is_line(alloc, json, line, one) => count = count.saturating_add(1),
            _ => return false,
        }
    }
    count == expected.len()
}

fn is_written(alloc: Global, text: &str, written: Written) -> bool {
    match written {
        Texts(texts) => is_text(text, texts),
        Values(values) => text.ends_with("\n") && has_lines(alloc, true, text, values),
        Fronts(fronts) => text.ends_with("\n") && has_lines(alloc, false, text, fronts),
    }
}

// Not in `printed`: a function that owns the sources is slow to prove at each `?`.
fn print(
    alloc: Global,
    words: &[String],
    input: &mut MemSource,
    output: &mut MemSource,
    report: &mut MemSource,
    failing: u32,
    text: &mut String,
) -> Result<u8, Fail> {
    let sink = MemSink::new(alloc, 16_000, only(alloc, failing)?)?;
    let mut out = Printer::over(alloc, sink);
    let status = view(alloc, words, input, output, report, &mut out);
    match str::from_utf8(out.sink().held()) {
        Ok(shown) => text.push_str(shown)?,
        Err(_) => text.push_str("not UTF-8")?,
    }
    Ok(status)
}

/// Views a run, adds the output to a text, and returns the status.
pub(crate) fn printed(
    alloc: Global,
    run: Run,
    words: &str,
    failing: [u32; 4],
    text: &mut String,
) -> Result<u8, Fail> {
    let words = line(alloc, words)?;
    let mut input = capture_source(alloc, run.input, 7, failing[0])?;
    let mut output = capture_source(alloc, run.output, 9, failing[1])?;
    let mut report = report_source(alloc, run.report, failing[2])?;
    print(
        alloc,
        &words,
        &mut input,
        &mut output,
        &mut report,
        failing[3],
        text,
    )
}

/// Runs the view, and returns whether its status and its output are the expected ones.
pub(crate) fn is_viewed(alloc: Global, row: &View) -> Result<bool, Fail> {
    let mut text = String::new(alloc);
    let status = printed(alloc, row.run, row.words, row.failing, &mut text)?;
    Ok(status == row.status && is_written(alloc, text.as_str(), row.written))
}

/// Returns the index of the first view whose status or output differs from its case.
pub(crate) fn first_other(alloc: Global, rows: &[View]) -> Result<Option<usize>, Fail> {
    for (index, row) in rows.iter().enumerate() {
        if !is_viewed(alloc, row)? {
            return Ok(Some(index));
        }
    }
    Ok(None)
}

/// A run of three records.
pub(crate) const RUN: Run = Run {
    input: (101, &[&SYN, &SHORT, &SYN]),
    output: (101, &[&SYN, &SYN]),
    report: "norm 2\n1 in pass 1 @1 +1\n2 - drop 0 I_SHORT\n3 in fix 1 T_CLASH @1 -1:idle:0\nend 3 2\n",
};

const SUMMARY: &str = "records 3
in pass 1 fix 1 hold 0 drop 0
out pass 0 fix 0 hold 0 drop 0
- pass 0 fix 0 hold 0 drop 1
frames 2
outside 198.51.100.7 2
inside 10.0.0.1 2
rule I_SHORT 1 (the packet has fewer than 20 octets)
rule T_CLASH 1 (octets that differ from those first sent at their offsets are replaced)
eras 1 live 0 reset 0 evicted 0 idle 1 reopened 0 opened in 1 out 0 mid 0
era 1 198.51.100.7:40000 <-> 10.0.0.1:80 opened in 1970-01-01T00:00:01.000007000Z 1970-01-01T00:00:03.000007000Z records 2 sent 0 octets 0 idle T_CLASH
";

/// A view of this run without options.
pub(crate) const PLAIN: View = View {
    run: RUN,
    words: "in out report",
    failing: [0; 4],
    status: 0,
    written: Texts(&[SUMMARY]),
};

const DROPPED: &str =
    "2 1970-01-01T00:00:02.000007000Z - - > - - len 3 drop I_SHORT (the packet has fewer than 20 octets) frames 0\nchosen 1\n";

const CHOSEN: View = View {
    words: "--only=drop --rule I_SHORT in out report",
    written: Texts(&[DROPPED]),
    ..PLAIN
};

#[test]
fn run_and_its_chosen_records_are_viewed(rt: HostRuntime) -> Result<(), Fail> {
    assert_eq!(rt; first_other(rt.alloc(), &[PLAIN, CHOSEN])?, None);
    Ok(())
}

/// A report of two engines: the second passes two frames, drops two and rewrites one.
const BOTH: &str =
    "norm 2 both\n1 in pass 1 @1 +1\n/1 out pass 1 @1 +1\n2 - drop 0 I_SHORT\n3 in fix 3 T_CLASH @1\n\
    /2 out pass 1 @1\n/3 out drop 0 T_OLD @1\n/4 - drop 0 I_SHORT\n4 out pass 1 @1\n/5 in fix 1 T_OLD @1 -1:idle:0\nend 4 3\n";

const BOTH_SUMMARY: &str = "records 4
in pass 1 fix 1 hold 0 drop 0
out pass 1 fix 0 hold 0 drop 0
- pass 0 fix 0 hold 0 drop 1
second in pass 0 fix 1 hold 0 drop 0
second out pass 2 fix 0 hold 0 drop 1
second - pass 0 fix 0 hold 0 drop 1
frames 3
outside 198.51.100.7 3
inside 10.0.0.1 3
rule I_SHORT 2 (the packet has fewer than 20 octets)
rule T_CLASH 1 (octets that differ from those first sent at their offsets are replaced)
rule T_OLD 2 (octets that the receiver has acknowledged are cut off)
eras 2 live 1 reset 0 evicted 0 idle 1 reopened 0 opened in 2 out 0 mid 0
era 1 198.51.100.7:40000 <-> 10.0.0.1:80 opened in 1970-01-01T00:00:01.000007000Z 1970-01-01T00:00:04.000007000Z records 3 sent 4 live T_CLASH
era second 1 198.51.100.7:40000 <-> 10.0.0.1:80 opened in 1970-01-01T00:00:01.000007000Z 1970-01-01T00:00:04.000007000Z records 4 sent 3 octets 0 idle T_OLD
";

const BOTH_THIRD: &str =
    "3 1970-01-01T00:00:03.000007000Z in 198.51.100.7:40000 > 10.0.0.1:80 tcp PA seq 1000 ack 5001 len 4 fix era 1 T_CLASH (octets that differ from those first sent at their offsets are replaced) given 3
3/2 1970-01-01T00:00:03.000007000Z out 198.51.100.7:40000 > 10.0.0.1:80 tcp PA seq 1000 ack 5001 len 4 pass era 1 frames 1 out 2
3/3 1970-01-01T00:00:03.000007000Z out 198.51.100.7:40000 > 10.0.0.1:80 tcp PA seq 1000 ack 5001 len 4 drop era 1 T_OLD (octets that the receiver has acknowledged are cut off) frames 0
3/4 1970-01-01T00:00:03.000007000Z - 198.51.100.7:40000 > 10.0.0.1:80 tcp PA seq 1000 ack 5001 len 4 drop I_SHORT (the packet has fewer than 20 octets) frames 0
";

const BOTH_FOURTH: &str =
    "4 1970-01-01T00:00:04.000007000Z out 10.0.0.1:80 > 198.51.100.7:40000 tcp A seq 5000 ack 1000 len 3 pass era 1 given 1
4/5 1970-01-01T00:00:04.000007000Z in 10.0.0.1:80 > 198.51.100.7:40000 tcp A seq 5000 ack 1000 len 3 fix era 1 ends era 1 idle octets 0 T_OLD (octets that the receiver has acknowledged are cut off) frames 1 out 3; by both engines: frame 1 payload at 2 \"z\" > \"w\"
";

const BOTH_JSON: &[&str] = &[
    "{\"event\":\"record\",\"record\":4,\"by\":\"first\",\"number\":4,\"time\":\"1970-01-01T00:00:04.000007000Z\",\"seconds\":4,\"nanoseconds\":7000,\"side\":\"out\",\"src_ip\":\"10.0.0.1\",\"src_port\":80,\"dest_ip\":\"198.51.100.7\",\"dest_port\":40000,\"proto\":\"tcp\",\"ethertype\":null,\"flags\":\"A\",\"seq\":5000,\"ack\":1000,\"window\":null,\"icmp_type\":null,\"icmp_code\":null,\"id\":null,\"offset\":null,\"more\":null,\"length\":3,\"verdict\":\"pass\",\"era\":1,\"begun\":null,\"ended\":[],\"rules\":[],\"frames\":1,\"given\":1,\"frames_out\":null,\"changes\":[],\"changes_by\":\"first\"}",
    "{\"event\":\"record\",\"record\":4,\"by\":\"second\",\"number\":5,\"time\":\"1970-01-01T00:00:04.000007000Z\",\"seconds\":4,\"nanoseconds\":7000,\"side\":\"in\",\"src_ip\":\"10.0.0.1\",\"src_port\":80,\"dest_ip\":\"198.51.100.7\",\"dest_port\":40000,\"proto\":\"tcp\",\"ethertype\":null,\"flags\":\"A\",\"seq\":5000,\"ack\":1000,\"window\":null,\"icmp_type\":null,\"icmp_code\":null,\"id\":null,\"offset\":null,\"more\":null,\"length\":3,\"verdict\":\"fix\",\"era\":1,\"begun\":null,\"ended\":[{\"era\":1,\"reason\":\"idle\",\"octets\":0}],\"rules\":[\"T_OLD\"],\"frames\":1,\"given\":null,\"frames_out\":[3],\"changes\":[{\"frame\":1,\"field\":\"payload\",\"front\":null,\"end\":null,\"longer\":null,\"replaced\":[{\"at\":2,\"from_octets\":{\"length\":1,\"hex\":\"7a\",\"text\":\"z\"},\"to_octets\":{\"length\":1,\"hex\":\"77\",\"text\":\"w\"},\"first\":null}]}],\"changes_by\":\"both\"}",
    "{\"event\":\"chosen\",\"records\":1}",
];

pub(crate) const BOTH_RUN: Run = Run {
    input: (101, &[&SYN, &SHORT, &DATA, &ANSWER]),
    output: (101, &[&SYN, &DATA, &REWRITTEN]),
    report: BOTH,
};

/// A view of the run of two engines, without options.
const BOTH_VIEW: View = View {
    run: BOTH_RUN,
    written: Texts(&[BOTH_SUMMARY]),
    ..PLAIN
};

#[rattlefmt::skip]
const BOTH_VIEWS: &[View] = &[
    BOTH_VIEW,
    View { words: "--only=fix in out report", written: Texts(&[BOTH_THIRD, BOTH_FOURTH, "chosen 2\n"]), ..BOTH_VIEW },
    View { words: "--rule=T_OLD --only drop in out report", written: Texts(&[BOTH_THIRD, "chosen 1\n"]), ..BOTH_VIEW },
    View { words: "--rule T_OLD,T_CLASH --side=in in out report", written: Texts(&[BOTH_THIRD, "chosen 1\n"]), ..BOTH_VIEW },
    View { words: "--era=1 --only=fix --side=out,- in out report", written: Texts(&[BOTH_FOURTH, "chosen 1\n"]), ..BOTH_VIEW },
    View { words: "--era second:1 --host 10.0.0.0/8 --rule=T_CLASH in out report", written: Texts(&[BOTH_THIRD, "chosen 1\n"]), ..BOTH_VIEW },
    View { words: "--host=10.0.0.2 in out report", written: Texts(&["chosen 0\n"]), ..BOTH_VIEW },
];

#[test]
fn run_of_two_engines_is_viewed(rt: HostRuntime) -> Result<(), Fail> {
    assert_eq!(rt; first_other(rt.alloc(), BOTH_VIEWS)?, None);
    Ok(())
}

// Returns the number of a record and of its lines; of the event of how many were chosen, their
// number and 0.
fn kind_of(event: &Event) -> (u64, usize) {
    match event {
        Event::Record(lines) => match lines.first() {
            Some(line) => (line.number, lines.len()),
            None => (0, 0),
        },
        Event::Chosen(count) => (*count, 0),
    }
}

// Returns whether an event is of this kind.
fn is_of(event: &Event, kind: &(u64, usize)) -> bool {
    kind_of(event) == *kind
}

fn are_of(events: &[Event], kinds: &[(u64, usize)]) -> bool {
    for (event, kind) in events.iter().zip(kinds.iter()) {
        if !is_of(event, kind) {
            return false;
        }
    }
    events.len() == kinds.len()
}

// Returns whether a view of the run of two engines shows events of these kinds, and ends with 0.
fn shows_kinds(alloc: Global, words: &str, kinds: &[(u64, usize)]) -> Result<bool, Fail> {
    let words = line(alloc, words)?;
    let mut input = capture_source(alloc, BOTH_RUN.input, 7, 0)?;
    let mut output = capture_source(alloc, BOTH_RUN.output, 9, 0)?;
    let mut report = report_source(alloc, BOTH_RUN.report, 0)?;
    let mut out = MemEvents::new(alloc);
    let status = view(
        alloc,
        &words,
        &mut input,
        &mut output,
        &mut report,
        &mut out,
    );
    Ok(status == 0 && are_of(out.events.as_slice(), kinds))
}

/// Views of the run of two engines, and the events of each.
#[rattlefmt::skip]
const EVENTS: &[(&str, &[(u64, usize)])] = &[
    ("in out report", &[]),
    ("--only=fix in out report", &[(3, 4), (4, 2), (2, 0)]),
    ("--json in out report", &[(1, 2), (2, 1), (3, 4), (4, 2)]),
    ("--table records --host 10.0.0.2 in out report", &[]),
    ("--table eras in out report", &[]),
    ("--notes in out report", &[]),
];

// Returns the index of the first view whose events differ from its case.
fn first_other_events(alloc: Global) -> Result<Option<usize>, Fail> {
    for (index, (words, kinds)) in EVENTS.iter().enumerate() {
        let words = *words;
        if !shows_kinds(alloc, words, kinds)? {
            return Ok(Some(index));
        }
    }
    Ok(None)
}

#[test]
fn records_are_events_with_all_their_lines(rt: HostRuntime) -> Result<(), Fail> {
    assert_eq!(rt; first_other_events(rt.alloc())?, None);
    Ok(())
}

#[rattlefmt::skip]
const FORMATS: &[View] = &[
    View { words: "--json --rule=T_OLD --only=pass --side=out in out report", written: Values(BOTH_JSON), ..BOTH_VIEW },
    View { words: "--json --side=up in out report", status: 2,
        written: Values(&["{\"event\":\"stop\",\"status\":2,\"reason\":\"stop words\"}"]), ..BOTH_VIEW },
    View { words: "--table records --only=fix in out report",
        written: Fronts(&["record\tby\tnumber\t", "3\tfirst\t3\t", "3\tsecond\t2\t", "3\tsecond\t3\t", "3\tsecond\t4\t", "4\tfirst\t4\t", "4\tsecond\t5\t"]),
        ..BOTH_VIEW },
    View { words: "--table=eras in out report",
        written: Fronts(&["era\tby\toutside_ip\t", "1\tfirst\t198.51.100.7\t", "1\tsecond\t198.51.100.7\t"]), ..BOTH_VIEW },
];

#[test]
fn json_is_read_back_and_tables_have_their_rows(rt: HostRuntime) -> Result<(), Fail> {
    assert_eq!(rt; first_other(rt.alloc(), FORMATS)?, None);
    Ok(())
}
