//! Whole runs, with expected octets from the formats' standards and worked captures.
use crate::cases::{SEEDS, words_of};
use crate::runs::{
    Changes, HEAD, NONE, Outcome, RECORD_HEADER, UDP_MESSAGE, capture_file, change, ends, line,
    sink_of, source_of, words_in,
};
use bridge_run::run;
use edge_io::{Failed, Sink};
use std::alloc::{AllocError, Global};
use std::test::Fail;

mod arp;
mod expected;
mod files;
mod forms;
mod loads;
mod sections;
mod spelled;
mod stopped;
mod streams;
mod waiting;
mod worked;

/// A test case. A capture of UDP messages: changes of its file header, its number of records,
/// changes of the last record header, and its size. The calls that fail; the status, the report,
/// and the number of octets written to the capture.
struct Ending {
    head: Changes,
    records: u8,
    last: Changes,
    size: usize,
    failing: (u32, u32, u32),
    status: u8,
    report: &'static str,
    written: usize,
}

#[rattlefmt::skip]
const ENDINGS: &[Ending] = &[
    Ending { head: "", records: 1, last: "", size: 70, failing: NONE, status: 0, report: "norm 2\n1 in pass 1\nend 1 1\n", written: 70 },
    Ending { head: "", records: 0, last: "", size: 24, failing: NONE, status: 0, report: "norm 2\nend 0 0\n", written: 24 },
    Ending { head: "", records: 0, last: "", size: 0, failing: NONE, status: 4, report: "norm 2\nstop cut 0\n", written: 0 },
    Ending { head: "", records: 0, last: "", size: 23, failing: NONE, status: 4, report: "norm 2\nstop cut 0\n", written: 0 },
    Ending { head: "", records: 2, last: "", size: 115, failing: NONE, status: 4, report: "norm 2\n1 in pass 1\nstop cut 70\n", written: 70 },
    Ending { head: "", records: 1, last: "", size: 39, failing: NONE, status: 4, report: "norm 2\nstop cut 24\n", written: 24 },
    Ending { head: "0:0x00000000", records: 1, last: "", size: 70, failing: NONE, status: 3, report: "norm 2\nstop magic 0\n", written: 0 },
    Ending { head: "6:0x03", records: 1, last: "", size: 70, failing: NONE, status: 3, report: "norm 2\nstop version 0\n", written: 0 },
    Ending { head: "20:0x71", records: 1, last: "", size: 70, failing: NONE, status: 3, report: "norm 2\nstop link 0\n", written: 0 },
    Ending { head: "", records: 1, last: "8:0x01 10:0x04", size: 70, failing: NONE, status: 3, report: "norm 2\nstop long 24\n", written: 24 },
    Ending { head: "", records: 2, last: "8:0x01 10:0x04", size: 116, failing: NONE, status: 3, report: "norm 2\n1 in pass 1\nstop long 70\n", written: 70 },
    Ending { head: "", records: 1, last: "", size: 70, failing: (1, 0, 0), status: 5, report: "norm 2\nstop read 0\n", written: 0 },
    Ending { head: "", records: 1, last: "", size: 70, failing: (0, 1, 0), status: 6, report: "norm 2\nstop capture 0\n", written: 0 },
    Ending { head: "", records: 1, last: "", size: 70, failing: (0, 2, 0), status: 6, report: "norm 2\nstop capture 24\n", written: 24 },
    Ending { head: "", records: 1, last: "", size: 70, failing: (0, 0, 1), status: 7, report: "", written: 0 },
];

/// The words of a run without options.
const WORDS: &[&str] = &["run", "a", "b", "10.0.0.0/8"];

/// Returns whether a run with these words ends as in this case, where a call of the source returns
/// at most `piece` octets.
fn is_ended(alloc: Global, row: &Ending, words: &[&str], piece: usize) -> Result<bool, Fail> {
    let mut file = capture_file(alloc, row.head, row.records, row.last)?;
    file.truncate(row.size);
    let Some(written) = file.get(..row.written) else {
        return Ok(false);
    };
    let outcome = Outcome {
        status: row.status,
        report: &[row.report],
        capture: written,
    };
    ends(alloc, words, &file, piece, row.failing, &outcome)
}

/// Returns whether a case ends as expected with this seed and pieces of any length.
fn is_ended_by(alloc: Global, row: &Ending, seed: &str) -> Result<bool, Fail> {
    let words = words_of(alloc, "", seed)?;
    for piece in [1, 7, 65536] {
        if !is_ended(alloc, row, &words, piece)? {
            return Ok(false);
        }
    }
    Ok(true)
}

/// Returns the index of the first case with another outcome.
fn first_other_end(alloc: Global, rows: &[Ending]) -> Result<Option<usize>, Fail> {
    for (index, row) in rows.iter().enumerate() {
        if !is_ended_by(alloc, row, SEEDS[0])? || !is_ended_by(alloc, row, SEEDS[1])? {
            return Ok(Some(index));
        }
    }
    Ok(None)
}

#[test]
fn runs_say_how_they_end(rt: HostRuntime) -> Result<(), Fail> {
    assert_eq!(rt; first_other_end(rt.alloc(), ENDINGS)?, None);
    Ok(())
}

#[rattlefmt::skip]
const REFUSED: &[(&str, &str)] = &[
    ("run a", "stop words 1\n"),
    ("run a a 10.0.0.0/8", "stop words 5\n"),
    ("run a b 0.0.0.0/8 1.0.0.0/8 2.0.0.0/8 3.0.0.0/8 4.0.0.0/8 5.0.0.0/8 6.0.0.0/8 7.0.0.0/8 8.0.0.0/8 9.0.0.0/8 10.0.0.0/8 11.0.0.0/8 \
        12.0.0.0/8 13.0.0.0/8 14.0.0.0/8 15.0.0.0/8 16.0.0.0/8", "stop words 3\n"),
    ("run a b 10.0.0/8", "stop words 2\n"),
    ("run --hops 255 a b 10.0.0.0/8", "stop words 1\n"),
    ("run --hops 5 --hops=6 a b 10.0.0.0/8", "stop words 1\n"),
    ("run a b 10.0.0.0/8 --offload", "stop words 1\n"),
    ("run --both --mtu 576 a b 10.0.0.0/8", "stop words 1\n"),
    ("run --both --inside in a b 10.0.0.0/8", "stop words 1\n"),
    ("run --mtu 575 a b 10.0.0.0/8", "stop words 1\n"),
    ("load 1 0", "stop words 1\n"),
];

/// Returns whether a line with this seed as its first option is refused with this report.
fn is_refused(alloc: Global, line: &str, seed: &str, report: &str) -> Result<bool, Fail> {
    let (command, rest) = line.split_once(' ').unwrap_or((line, ""));
    let words = words_in(alloc, &[command, seed, rest])?;
    let outcome = Outcome {
        status: 2,
        report: &[report],
        capture: &[],
    };
    ends(alloc, &words, &HEAD, 7, (1, 1, 0), &outcome)
}

/// Returns the index of the first words that are not refused with this report, with each seed.
fn first_accepted(alloc: Global, rows: &[(&str, &str)]) -> Result<Option<usize>, Fail> {
    for (index, (line, report)) in rows.iter().enumerate() {
        let first = is_refused(alloc, line, SEEDS[0], report)?;
        if !first || !is_refused(alloc, line, SEEDS[1], report)? {
            return Ok(Some(index));
        }
    }
    Ok(None)
}

#[test]
fn refused_words_leave_one_line(rt: HostRuntime) -> Result<(), Fail> {
    assert_eq!(rt; first_accepted(rt.alloc(), REFUSED)?, None);
    Ok(())
}

/// The output for one UDP message.
#[derive(Clone, Copy)]
enum Written {
    Nothing,
    /// Its captured octets.
    AsRead,
    /// Its 30 octets with these changes.
    Rewritten(Changes),
}

use Written::{AsRead, Nothing, Rewritten};

/// A test case: changes of the UDP message, its captured and its original length; the record's line
/// without its number, and the output.
struct Judged {
    changes: Changes,
    captured: u8,
    original: u8,
    line: &'static str,
    written: Written,
}

const OUTWARD: Changes = "12:0x0a000001c6336407";

const FADING: Changes = "8:0x01 10:0x85 12:0x0a000001c6336407";

const INSIDE: Changes = "10:0x66cc0a000002 26:0xe6f8";

const OUTSIDE: Changes = "10:0x8e92 16:0xc0 18:0x02 26:0x0e";

#[rattlefmt::skip]
const JUDGED: &[Judged] = &[
    Judged { changes: "", captured: 30, original: 30, line: "in pass 1", written: AsRead },
    Judged { changes: "", captured: 30, original: 31, line: "- drop 0 L_SNAP", written: Nothing },
    Judged { changes: "", captured: 30, original: 29, line: "in pass 1", written: AsRead },
    Judged { changes: "", captured: 19, original: 19, line: "- drop 0 I_SHORT", written: Nothing },
    Judged { changes: "0:0x55", captured: 30, original: 30, line: "- drop 0 I_VERSION", written: Nothing },
    Judged { changes: "0:0x44", captured: 30, original: 30, line: "- drop 0 I_HLEN", written: Nothing },
    Judged { changes: "3:0x1f", captured: 30, original: 30, line: "- drop 0 I_LEN", written: Nothing },
    Judged { changes: "11:0x94", captured: 30, original: 30, line: "- drop 0 I_SUM", written: Nothing },
    Judged { changes: INSIDE, captured: 30, original: 30, line: "- drop 0 I_SIDE", written: Nothing },
    Judged { changes: OUTSIDE, captured: 30, original: 30, line: "- drop 0 I_SIDE", written: Nothing },
    Judged { changes: OUTWARD, captured: 30, original: 30, line: "out pass 1", written: AsRead },
    Judged { changes: FADING, captured: 30, original: 30, line: "out pass 1", written: AsRead },
    Judged { changes: "8:0x1e 10:0x68", captured: 30, original: 30, line: "in fix 1 I_TTL", written: Rewritten("8:0x1f 10:0x67") },
    Judged { changes: "8:0x1f 10:0x67", captured: 30, original: 30, line: "in pass 1", written: AsRead },
    Judged { changes: "6:0x20 10:0x26", captured: 30, original: 30, line: "in drop 0 F_ALIGN", written: Nothing },
    Judged { changes: "7:0x01 11:0x92", captured: 30, original: 30, line: "in hold 0 F_HELD", written: Nothing },
    Judged { changes: "6:0x40 10:0x06", captured: 30, original: 30, line: "in pass 1", written: AsRead },
    Judged { changes: "6:0x80 10:0xc692", captured: 30, original: 30, line: "in fix 1 I_RES", written: Rewritten("") },
    Judged { changes: "9:0x01 11:0xa3", captured: 30, original: 30, line: "in drop 0 M_SUM", written: Nothing },
    Judged { changes: "9:0x06 11:0x9e", captured: 30, original: 30, line: "in drop 0 T_SHORT", written: Nothing },
    Judged { changes: "9:0x02 11:0xa2", captured: 30, original: 30, line: "in drop 0 P_PROTO", written: Nothing },
    Judged { changes: "10:0x2d 12:0xdf 26:0xad", captured: 30, original: 30, line: "in pass 1", written: AsRead },
    Judged { changes: "10:0x2c 12:0xe0 26:0xac", captured: 30, original: 30, line: "- drop 0 I_SRC", written: Nothing },
    Judged { changes: "", captured: 31, original: 31, line: "in fix 1 I_TRAIL", written: Rewritten("") },
    Judged { changes: "25:0x09", captured: 30, original: 30, line: "in drop 0 U_LEN", written: Nothing },
    Judged { changes: "26:0x0000", captured: 30, original: 30, line: "in pass 1", written: AsRead },
    Judged { changes: "29:0x6a", captured: 30, original: 30, line: "in drop 0 U_SUM", written: Nothing },
];

/// Returns the UDP message with these changes, and the octet after it.
fn message_with(alloc: Global, changes: Changes) -> Result<[u8; 31], Fail> {
    let mut packet = UDP_MESSAGE;
    change(alloc, &mut packet, changes)?;
    Ok(packet)
}

/// Returns the UDP message without the octet after it.
fn message_in(packet: &[u8; 31]) -> &[u8] {
    &packet[..30]
}

/// Returns a capture of one record at time 0 with these octets and this original length.
fn one_record(alloc: Global, octets: &[u8], original: u8) -> Result<Vec<u8>, AllocError> {
    let mut header = RECORD_HEADER;
    header[8] = octets.len().min(255) as u8;
    header[12] = original;
    let mut file = Vec::from_slice(alloc, &HEAD)?;
    file.extend_from_slice(&header)?;
    file.extend_from_slice(octets)?;
    Ok(file)
}

/// Returns the output capture for one record of these octets.
fn written_file(alloc: Global, octets: &[u8], written: Written) -> Result<Vec<u8>, Fail> {
    match written {
        Nothing => Ok(Vec::from_slice(alloc, &HEAD)?),
        AsRead => Ok(one_record(alloc, octets, octets.len().min(255) as u8)?),
        Rewritten(changes) => {
            let packet = message_with(alloc, changes)?;
            Ok(one_record(alloc, message_in(&packet), 30)?)
        }
    }
}

/// Returns whether a run over one record has this line and this output.
fn judges(
    alloc: Global,
    words: &[&str],
    record: (&[u8], u8),
    line: &str,
    written: Written,
) -> Result<bool, Fail> {
    let (octets, original) = record;
    let end = match written {
        Nothing => "\nend 1 0\n",
        AsRead | Rewritten(_) => "\nend 1 1\n",
    };
    let file = one_record(alloc, octets, original)?;
    let written = written_file(alloc, octets, written)?;
    let outcome = Outcome {
        status: 0,
        report: &["norm 2\n1 ", line, end],
        capture: &written,
    };
    ends(alloc, words, &file, 65536, NONE, &outcome)
}

/// Returns the index of the first case that is judged otherwise.
fn first_misjudged(alloc: Global, rows: &[Judged]) -> Result<Option<usize>, Fail> {
    for (index, row) in rows.iter().enumerate() {
        let packet = message_with(alloc, row.changes)?;
        let Some(octets) = packet.get(..usize::from(row.captured)) else {
            return Ok(Some(index));
        };
        let record = (octets, row.original);
        if !judges(alloc, WORDS, record, row.line, row.written)? {
            return Ok(Some(index));
        }
    }
    Ok(None)
}

#[test]
fn messages_are_judged(rt: HostRuntime) -> Result<(), Fail> {
    assert_eq!(rt; first_misjudged(rt.alloc(), JUDGED)?, None);
    Ok(())
}

/// A test case: the words of a run, changes of the UDP message, its line and its output.
struct Set {
    words: &'static str,
    changes: Changes,
    line: &'static str,
    written: Written,
}

/// The words of a run with 16 prefixes; the last contains the message's destination.
const SIXTEEN: &str =
    "run a b 192.0.2.0/32 192.0.2.1/32 192.0.2.2/32 192.0.2.3/32 192.0.2.4/32 192.0.2.5/32 192.0.2.6/32 192.0.2.7/32 \
    192.0.2.8/32 192.0.2.9/32 192.0.2.10/32 192.0.2.11/32 192.0.2.12/32 192.0.2.13/32 192.0.2.14/32 10.0.0.0/8";

#[rattlefmt::skip]
const SETS: &[Set] = &[
    Set { words: "run --hops 0 a b 10.0.0.0/8", changes: "8:0x00 10:0x86", line: "in fix 1 I_TTL", written: Rewritten("8:0x01 10:0x85") },
    Set { words: "run --hops=0 a b 10.0.0.0/8", changes: "8:0x01 10:0x85", line: "in pass 1", written: AsRead },
    Set { words: "run --hops 5 a b 10.0.0.0/8", changes: "8:0x05 10:0x81", line: "in fix 1 I_TTL", written: Rewritten("8:0x06 10:0x80") },
    Set { words: "run --hops 5 a b 10.0.0.0/8", changes: "8:0x06 10:0x80", line: "in pass 1", written: AsRead },
    Set { words: "run --hops=254 a b 10.0.0.0/8", changes: "", line: "in fix 1 I_TTL", written: Rewritten("8:0xff 10:0x8792") },
    Set { words: "run --hops=254 a b 10.0.0.0/8", changes: OUTWARD, line: "out pass 1", written: AsRead },
    Set { words: "run a b 10.0.0.0/8", changes: WRONG_OUTWARD, line: "out drop 0 U_SUM", written: Nothing },
    Set { words: "run --offload a b 10.0.0.0/8", changes: WRONG_OUTWARD, line: "out fix 1 U_SUM_OUT", written: Rewritten(OUTWARD) },
    Set { words: "run --offload a b 10.0.0.0/8", changes: "27:0xbe", line: "in drop 0 U_SUM", written: Nothing },
    Set { words: "run a b 192.0.2.0/24 10.0.0.0/8", changes: "", line: "in pass 1", written: AsRead },
    Set { words: "run a b 10.0.0.0/8 192.0.2.0/24", changes: OUTSIDE, line: "in pass 1", written: AsRead },
    Set { words: "run a b 10.0.0.0/8 198.51.100.0/24", changes: "", line: "- drop 0 I_SIDE", written: Nothing },
    Set { words: SIXTEEN, changes: "", line: "in pass 1", written: AsRead },
];

const WRONG_OUTWARD: Changes = "12:0x0a000001c6336407 27:0xbe";

/// Returns the index of the first case that is judged otherwise.
fn first_miscounted(alloc: Global, rows: &[Set]) -> Result<Option<usize>, Fail> {
    for (index, row) in rows.iter().enumerate() {
        let packet = message_with(alloc, row.changes)?;
        let words = words_in(alloc, &[row.words])?;
        let record = (message_in(&packet), 30);
        if !judges(alloc, &words, record, row.line, row.written)? {
            return Ok(Some(index));
        }
    }
    Ok(None)
}

#[test]
fn options_and_prefixes_count(rt: HostRuntime) -> Result<(), Fail> {
    assert_eq!(rt; first_miscounted(rt.alloc(), SETS)?, None);
    Ok(())
}

/// A sink that takes all octets and fails at each flush.
#[derive(Drop)]
struct Stuck {
    faults: u64,
}

impl Sink for Stuck {
    ghost use Rattle.std.specs.Prelude.{None};

    ghost held = { λ s. None };

    ghost fault_count = { λ s. s.faults };

    fn put(&mut self, _bytes: &[u8]) -> Result<(), Failed> {
        Ok(())
    }

    fn flush(&mut self) -> Result<(), Failed> {
        self.faults = self.faults.saturating_add(1);
        Err(Failed)
    }

    fn faults(&self) -> u64 {
        self.faults
    }
}

/// Returns whether a run to this capture sink has the status 6 and its report.
fn stops_capture(alloc: Global, words: &[String], stuck: &mut Stuck) -> Result<bool, Fail> {
    let file = capture_file(alloc, "", 1, "")?;
    let mut source = source_of(alloc, &file, 65536, 0)?;
    let mut report = sink_of(alloc, 4096, 0)?;
    let status = run(alloc, words, &mut source, stuck, &mut report);
    let expected = b"norm 2\n1 in pass 1\nstop capture 70\n".as_slice();
    Ok(status == 6 && report.held() == expected)
}

/// Returns whether a run to this report sink has the status 7 and writes its capture.
fn stops_report(alloc: Global, words: &[String], stuck: &mut Stuck) -> Result<bool, Fail> {
    let file = capture_file(alloc, "", 1, "")?;
    let mut source = source_of(alloc, &file, 65536, 0)?;
    let mut capture = sink_of(alloc, 4096, 0)?;
    let status = run(alloc, words, &mut source, &mut capture, stuck);
    Ok(status == 7 && capture.held().len() == 70)
}

fn stops_each(alloc: Global) -> Result<(bool, bool), Fail> {
    let words = line(alloc, WORDS)?;
    let mut stuck = Stuck { faults: 0 };
    let capture = stops_capture(alloc, &words, &mut stuck)?;
    Ok((capture, stops_report(alloc, &words, &mut stuck)?))
}

#[test]
fn a_capture_sink_that_cannot_flush_stops_a_run(rt: HostRuntime) -> Result<(), Fail> {
    assert_eq!(rt; stops_each(rt.alloc())?, (true, true));
    Ok(())
}
