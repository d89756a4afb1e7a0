//! Audits of captures and reports whose answers were worked out by hand.
ghost use Rattle.std.specs.Prelude.{◌<◌, ◌≤◌, ◌+◌, length};

use arrayvec::ArrayVec;
use edge_io::{Failed, MemSink, MemSource, NoMemory, Source};
use ipv4_codec::{Ipv4, write_plain};
use run_audit::audit;
use std::alloc::{AllocError, Global};
use std::test::Fail;
use tcp_codec::{SegmentParts, write_segment};
use wire_base::{Addr, Flags, protocol};

/// Little-endian, microseconds, raw IP.
const HEAD: [u8; 24] = [
    0xd4, 0xc3, 0xb2, 0xa1, 2, 0, 4, 0, 0, 0, 0, 0, 0, 0, 0, 0, 0, 0, 4, 0, 101, 0, 0, 0,
];

/// The address of the host outside, and of the one inside.
const OUTSIDE: Addr = Addr(0xc633_6407);

const INSIDE: Addr = Addr(0x0a00_0001);

const FIN: u8 = 1;

const SYN: u8 = 2;

const RST: u8 = 4;

const PSH: u8 = 8;

const ACK: u8 = 16;

/// A TCP packet with TTL 64: whether it goes inwards, its sequence number, acknowledgment number,
/// flags and payload.
type Packet = (bool, u32, u32, u8, &'static [u8]);

/// The opening of a connection: SYN 999, SYN ACK 5000 and ACK 1000.
const CALL: Packet = (true, 999, 0, SYN, b"");

const ANSWER: Packet = (false, 5000, 1000, SYN | ACK, b"");

const OPENED: Packet = (true, 1000, 5001, ACK, b"");

/// Octets at 1000, and the same with another third octet.
const ABCD: Packet = (true, 1000, 5001, PSH | ACK, b"abcd");

const ABXD: Packet = (true, 1000, 5001, PSH | ACK, b"abXd");

/// An acknowledgment that fixes the base at 1000; octets that end 5 before it; and octets of which
/// the first two are before it.
const FIRST_ACK: Packet = (false, 5001, 1000, ACK, b"");

const BELOW: Packet = (true, 990, 5001, PSH | ACK, b"abcde");

const WXYZ: Packet = (true, 998, 5001, PSH | ACK, b"wxyz");

/// A RST that acknowledges 2^31 - 1 octets from 1000 on.
const EARLY_RESET: Packet = (false, 0, 2147484647, RST | ACK, b"");

/// The report of a connection with two segments after its opening.
const REPORT: &str =
    "norm 2\n1 in pass 1 @1 +1\n2 out pass 1 @1\n3 in pass 1 @1\n4 in pass 1 @1\n5 in fix 1 T_CLASH @1\nend 5 5\n";

/// Returns the octets of a packet.
fn packet_octets(alloc: Global, packet: Packet) -> Result<Vec<u8>, AllocError> {
    let (inward, seq, ack, flags, payload) = packet;
    let (src, dst) = if inward {
        (OUTSIDE, INSIDE)
    } else {
        (INSIDE, OUTSIDE)
    };
    let (sport, dport) = if inward { (40000, 80) } else { (80, 40000) };
    let mut octets = [0; 100];
    let payload = &payload[..payload.len().min(60)];
    let parts = SegmentParts {
        src,
        dst,
        sport,
        dport,
        seq,
        ack,
        flags: Flags(flags & 31),
        window: 8192,
        options: ArrayVec::new(),
    };
    let size = write_segment(&parts, payload, &mut octets[20..]);
    let head = Ipv4 {
        header: 20,
        tos: 0,
        total: 0,
        ident: 1,
        reserved: false,
        df: false,
        more: false,
        offset: 0,
        ttl: 64,
        protocol: protocol::TCP,
        sum: 0,
        src,
        dst,
    };
    write_plain(&head, size as u16, &mut octets);
    Vec::from_slice(alloc, &octets[..20 + size])
}

/// Returns a capture of these packets, all at time 0.
fn capture_file(alloc: Global, packets: &[Packet]) -> Result<Vec<u8>, AllocError> {
    let mut file = Vec::from_slice(alloc, &HEAD)?;
    for packet in packets {
        let octets = packet_octets(alloc, *packet)?;
        let size = octets.len().min(255) as u8;
        file.extend_from_slice(&[0, 0, 0, 0, 0, 0, 0, 0, size, 0, 0, 0, size, 0, 0, 0])?;
        file.extend_from_slice(&octets)?;
    }
    Ok(file)
}

/// Returns the list of this one call, or an empty list for 0.
fn only(alloc: Global, call: u32) -> Result<Vec<u32>, AllocError> {
    let mut calls = Vec::new(alloc);
    if call > 0 {
        calls.push(call)?;
    }
    Ok(calls)
}

fn line(alloc: Global, words: &[&str]) -> Result<Vec<String>, AllocError> {
    let mut line = Vec::new(alloc);
    for word in words {
        line.push(String::from_str(alloc, word)?)?;
    }
    Ok(line)
}

/// Returns a source whose calls return at most 7 octets each. The call `failing` fails, 0 for none.
fn source_of(alloc: Global, octets: &[u8], failing: u32) -> Result<MemSource, AllocError> {
    let calls = only(alloc, failing)?;
    Ok(MemSource::new(Vec::from_slice(alloc, octets)?, 7, calls))
}

/// The words of an audit for 30 routers.
const WORDS: &[&str] = &["a", "b", "30"];

/// No call fails.
const NONE: (u32, u32, u32) = (0, 0, 0);

// Owns the sources and the sink, and does nothing else: a function that owns them is slow to prove
// at each `?`.
fn answers_by(
    alloc: Global,
    words: &[String],
    capture: &mut MemSource,
    report: &mut MemSource,
    failing: u32,
    (text, status): (&str, u8),
) -> Result<bool, Fail> {
    let mut out = MemSink::new(alloc, 100, only(alloc, failing)?)?;
    let answer = audit(alloc, words, capture, report, &mut out);
    Ok(answer == status && out.held() == text.as_bytes())
}

/// Returns whether the audit of a capture and a report has this line and this status. `failing` has
/// the numbers of the calls that fail of the capture, the report and the output, 0 for none.
fn answers(
    alloc: Global,
    words: &[&str],
    capture: &[u8],
    report: &str,
    failing: (u32, u32, u32),
    answer: (&str, u8),
) -> Result<bool, Fail> {
    let words = line(alloc, words)?;
    let mut capture = source_of(alloc, capture, failing.0)?;
    let mut report = source_of(alloc, report.as_bytes(), failing.1)?;
    answers_by(alloc, &words, &mut capture, &mut report, failing.2, answer)
}

/// A test case: the packets of a capture, its report, and the line and the status of their audit
/// for 30 routers.
type Row = (&'static [Packet], &'static str, &'static str, u8);

const ROWS: [Row; 21] = [
    (&[CALL, ANSWER, OPENED, ABCD, ABCD], REPORT, "yes 1 5\n", 0),
    (
        &[CALL, ANSWER, OPENED, ABCD, ABXD],
        REPORT,
        "no 5 octet\n",
        1,
    ),
    (
        &[CALL, ANSWER, OPENED, ABCD, ABCD],
        "norm 2\n1 in pass 1 @1 +1\n2 out pass 1 @1\n3 in pass 1 @1\n4 in pass 1 @1\n5 in fix 1 T_CLASH @1\n",
        "stop report 7\n",
        9,
    ),
    (&[CALL, ANSWER, OPENED, ABCD], REPORT, "no 5 count\n", 1),
    (
        &[CALL, ANSWER, OPENED, ABCD, ABCD, ABCD],
        REPORT,
        "no 6 count\n",
        1,
    ),
    (
        &[ABCD],
        "norm 2\n1 in pass 1 @1 +1\nend 1 1\n",
        "no 1 base\n",
        1,
    ),
    (
        &[CALL, (true, 1500, 0, SYN, b"")],
        "norm 2\n1 in pass 1 @1 +1\n2 in pass 1 @1\nend 2 2\n",
        "no 2 syn\n",
        1,
    ),
    (
        &[
            CALL,
            ANSWER,
            (true, 1004, 5001, FIN | ACK, b""),
            (true, 1005, 5001, FIN | ACK, b""),
        ],
        "norm 2\n1 in pass 1 @1 +1\n2 out pass 1 @1\n3 in pass 1 @1\n4 in pass 1 @1\nend 4 4\n",
        "no 4 fin\n",
        1,
    ),
    (
        &[CALL, ANSWER, ABCD, (true, 1003, 5001, FIN | ACK, b"")],
        "norm 1\n1 in pass 1 @1 +1\n2 out pass 1 @1\n3 in pass 1 @1\n4 in pass 1 @1 -1:idle\nend 4 4\n",
        "no 4 fin\n",
        1,
    ),
    (
        &[CALL, ANSWER, (true, 1003, 5001, FIN | ACK, b""), ABCD],
        "norm 2\n1 in pass 1 @1 +1\n2 out pass 1 @1\n3 in pass 1 @1\n4 in pass 1 @1\nend 4 4\n",
        "no 4 octet\n",
        1,
    ),
    // All octets are before the base, so a FIN may be before it too, after them.
    (
        &[FIRST_ACK, BELOW, (true, 995, 5001, FIN | ACK, b"")],
        "norm 2\n1 out pass 1 @1\n2 in pass 1 @1\n3 in pass 1 @1\nend 3 3\n",
        "yes 1 3\n",
        0,
    ),
    (
        &[FIRST_ACK, BELOW, (true, 994, 5001, FIN | ACK, b"")],
        "norm 2\n1 out pass 1 @1\n2 in pass 1 @1\n3 in pass 1 @1\nend 3 3\n",
        "no 3 fin\n",
        1,
    ),
    (
        &[FIRST_ACK, (true, 999, 5001, FIN | ACK, b"")],
        "norm 2\n1 out pass 1 @1\n2 in pass 1 @1\nend 2 2\n",
        "no 2 fin\n",
        1,
    ),
    // A RST before the base is fixed acknowledges nothing: 998 is then read as offset -2, and not
    // as 2^32 - 2.
    (
        &[EARLY_RESET, FIRST_ACK, WXYZ, ABCD],
        "norm 2\n1 out pass 1 @1\n2 out pass 1 @1\n3 in pass 1 @1\n4 in pass 1 @1\nend 4 4\n",
        "no 4 octet\n",
        1,
    ),
    (
        &[EARLY_RESET, CALL, WXYZ, (true, 1002, 5001, FIN | ACK, b"")],
        "norm 2\n1 out pass 1 @1\n2 in pass 1 @1\n3 in pass 1 @1\n4 in pass 1 @1\nend 4 4\n",
        "yes 1 4\n",
        0,
    ),
    // A RST after the base is fixed acknowledges as each segment does.
    (
        &[FIRST_ACK, EARLY_RESET, WXYZ, ABCD],
        "norm 2\n1 out pass 1 @1\n2 out pass 1 @1\n3 in pass 1 @1\n4 in pass 1 @1\nend 4 4\n",
        "yes 1 4\n",
        0,
    ),
    (
        &[CALL],
        "norm 2\n1 - pass 1 @1\nend 1 1\n",
        "no 1 plain\n",
        1,
    ),
    (
        &[],
        "norm 2\n1 in hold 0 F_HELD\n2 in drop 0 T_FULL -7:reset:0 -9:idle:0\nend 2 0\n",
        "yes 2 0\n",
        0,
    ),
    (&[], "norm 3\nend 0 0\n", "stop report 1\n", 9),
    (&[], "norm 2 both\nend 0 0\n", "stop report 1\n", 9),
    (
        &[],
        "norm 2\n1 in hold 0 F_HELD\nstop cut 24\n",
        "stop report 3\n",
        9,
    ),
];

/// Returns the index of the first case with another answer.
fn first_other_reason(alloc: Global, rows: &[Row]) -> Result<Option<usize>, Fail> {
    for (index, (packets, report, text, status)) in rows.iter().enumerate() {
        let capture = capture_file(alloc, packets)?;
        if !answers(alloc, WORDS, &capture, report, NONE, (text, *status))? {
            return Ok(Some(index));
        }
    }
    Ok(None)
}

#[test]
fn each_reason_is_told(rt: HostRuntime) -> Result<(), Fail> {
    assert_eq!(rt; first_other_reason(rt.alloc(), &ROWS)?, None);
    Ok(())
}

const FAR: &[Packet] = &[
    CALL,
    ANSWER,
    ABCD,
    (false, 5001, 2147484647, ACK, b""),
    (false, 5001, 998, ACK, b""),
    WXYZ,
    ABCD,
];

const FAR_REPORT: &str =
    "norm 2\n1 in pass 1 @1\n2 out pass 1 @1\n3 in pass 1 @1\n4 out pass 1 @1\n5 out pass 1 @1\n6 in pass 1 @1\n7 in pass 1 @1\nend 7 7\n";

fn tells_far(alloc: Global) -> Result<bool, Fail> {
    let capture = capture_file(alloc, FAR)?;
    let words = ["a", "b", "0"];
    answers(
        alloc,
        &words,
        &capture,
        FAR_REPORT,
        NONE,
        ("no 7 octet\n", 1),
    )
}

// ACKs of 2^31 - 1 and of 2^32 - 2 octets from 1000 on: the same numbers are then read as offsets
// 2^32 higher.
#[test]
fn numbers_are_read_from_what_is_acknowledged(rt: HostRuntime) -> Result<(), Fail> {
    assert!(rt; tells_far(rt.alloc())?);
    Ok(())
}

/// A test case: the words, the number of octets of a capture with two packets, the calls that fail,
/// and the line and the status.
type Stop = (
    &'static [&'static str],
    usize,
    (u32, u32, u32),
    &'static str,
    u8,
);

const STOPS: [Stop; 14] = [
    (&["a", "b", "254"], 24, (0, 0, 0), "yes 0 0\n", 0),
    (&["a", "b", "000"], 24, (0, 0, 0), "yes 0 0\n", 0),
    (&["a", "b"], 24, (0, 0, 0), "stop words\n", 2),
    (&["", "b", "30"], 24, (0, 0, 0), "stop words\n", 2),
    (&["a", "", "30"], 24, (0, 0, 0), "stop words\n", 2),
    (&["a", "b", "255"], 24, (0, 0, 0), "stop words\n", 2),
    (&["a", "b", "0030"], 24, (0, 0, 0), "stop words\n", 2),
    (&["a", "b", "x"], 24, (0, 0, 0), "stop words\n", 2),
    (&["a", "b", "30"], 23, (0, 0, 0), "stop cut 0\n", 4),
    (&["a", "b", "30"], 70, (0, 0, 0), "stop cut 24\n", 4),
    (&["a", "b", "30"], 80, (0, 0, 0), "no 1 count\n", 1),
    (&["a", "b", "30"], 24, (5, 0, 0), "stop read\n", 5),
    (&["a", "b", "30"], 24, (0, 3, 0), "stop read\n", 5),
    (&["a", "b", "30"], 24, (0, 0, 1), "", 7),
];

/// Returns the index of the first case with another answer.
fn first_other_stop(alloc: Global, rows: &[Stop]) -> Result<Option<usize>, Fail> {
    let capture = capture_file(alloc, &[CALL, ANSWER])?;
    for (index, (words, size, failing, text, status)) in rows.iter().enumerate() {
        let capture = capture.get(..*size).unwrap_or(&[]);
        let answer = (*text, *status);
        if !answers(alloc, words, capture, "norm 2\nend 0 0\n", *failing, answer)? {
            return Ok(Some(index));
        }
    }
    Ok(None)
}

#[test]
fn each_stop_is_told(rt: HostRuntime) -> Result<(), Fail> {
    assert_eq!(rt; first_other_stop(rt.alloc(), &STOPS)?, None);
    Ok(())
}

#[test]
fn another_file_is_no_capture(rt: HostRuntime) -> Result<(), Fail> {
    let mut head = HEAD;
    head[0] = 0;
    let report = "norm 2\nend 0 0\n";
    let answer = ("stop magic 0\n", 3);
    assert!(rt; answers(rt.alloc(), WORDS, &head, report, NONE, answer)?);
    Ok(())
}

/// A source that never ends.
#[derive(Drop)]
struct Endless;

impl Source for Endless {
    ghost use Rattle.std.specs.Prelude.{None};

    ghost left = { λ s. None };

    ghost fault_count = { λ s. 0 };

    fn fetch(&mut self, buf: &mut [u8]) -> Result<usize, Failed> {
        Ok(buf.len())
    }

    fn faults(&self) -> u64 {
        0
    }
}

/// Returns whether an audit of a report that never ends stops.
fn stops_endless(alloc: Global) -> Result<bool, Fail> {
    let words = line(alloc, WORDS)?;
    let mut capture = source_of(alloc, &[], 0)?;
    let mut out = MemSink::new(alloc, 100, Vec::new(alloc))?;
    let answer = audit(alloc, &words, &mut capture, &mut Endless, &mut out);
    Ok(answer == 9 && out.held() == b"stop report 0\n".as_slice())
}

#[test]
fn report_of_too_many_octets_is_not_read(rt: HostRuntime) -> Result<(), Fail> {
    assert!(rt; stops_endless(rt.alloc())?);
    Ok(())
}
