//! Runs over captures in memory. A call of the source or of a sink may fail.
ghost use Rattle.std.specs.Prelude.{◌≡◌, ◌<◌, ◌==◌, [], ◌∷◌, map, string_bytes, if◌then◌else◌, IfOk};

use crate::notation::add_octets;
use bridge_run::run;
use edge_io::{MemSink, MemSource};
use std::alloc::{AllocError, Global};
use std::test::Fail;

/// The file header of a capture: little-endian, microseconds, raw IP.
pub const HEAD: [u8; 24] = [
    0xd4, 0xc3, 0xb2, 0xa1, 2, 0, 4, 0, 0, 0, 0, 0, 0, 0, 0, 0, 0, 0, 4, 0, 101, 0, 0, 0,
];

/// The record header of the UDP message at time 0.
pub const RECORD_HEADER: [u8; 16] = [0, 0, 0, 0, 0, 0, 0, 0, 30, 0, 0, 0, 30, 0, 0, 0];

/// A packet of 30 octets with a UDP message from 198.51.100.7 port 40000 to 10.0.0.1 port 53 and
/// the payload `hi`, and an octet after it.
pub const UDP_MESSAGE: [u8; 31] = [
    0x45, 0x00, 0x00, 0x1e, 0x00, 0x01, 0x00, 0x00, 0x40, 0x11, 0x46, 0x93, 0xc6, 0x33, 0x64, 0x07,
    0x0a, 0x00, 0x00, 0x01, 0x9c, 0x40, 0x00, 0x35, 0x00, 0x0a, 0xc6, 0xbf, 0x68, 0x69, 0x00,
];

/// Octets that replace others, each with its offset: `8:0x1e` for one octet, `12:0x0a000001` for
/// four.
pub type Changes = &'static str;

/// Makes the changes in these octets.
pub fn change(alloc: Global, octets: &mut [u8], changes: Changes) -> Result<(), Fail> {
    for change in changes.split_whitespace() {
        let (offset, spelled) = change.split_once(':').unwrap_or((change, ""));
        let offset = offset.parse::<usize>()?;
        let mut others = Vec::new(alloc);
        add_octets(&mut others, spelled)?;
        for (target, octet) in octets.iter_mut().skip(offset).zip(others.iter()) {
            *target = *octet;
        }
    }
    Ok(())
}

/// Appends UDP messages; the last has this record header.
fn add_messages(file: &mut Vec<u8>, records: u8, last: &[u8; 16]) -> Result<(), AllocError> {
    for number in 1..=records {
        let header = if number == records {
            last
        } else {
            &RECORD_HEADER
        };
        file.extend_from_slice(header)?;
        file.extend_from_slice(&UDP_MESSAGE[..30])?;
    }
    Ok(())
}

/// Returns a capture of UDP messages, with changes in the file header and in the last record
/// header.
pub fn capture_file(
    alloc: Global,
    head: Changes,
    records: u8,
    last: Changes,
) -> Result<Vec<u8>, Fail> {
    let (mut octets, mut header) = (HEAD, RECORD_HEADER);
    change(alloc, &mut octets, head)?;
    change(alloc, &mut header, last)?;
    let mut file = Vec::from_slice(alloc, &octets)?;
    add_messages(&mut file, records, &header)?;
    Ok(file)
}

/// Returns the words of these texts.
pub fn words_in<'a>(alloc: Global, texts: &[&'a str]) -> Result<Vec<&'a str>, Fail> {
    let mut words = Vec::new(alloc);
    for text in texts {
        for word in text.split_whitespace() {
            words.push(word)?;
        }
    }
    Ok(words)
}

/// Returns the words of a command line.
pub fn line(alloc: Global, words: &[&str]) -> Result<Vec<String>, AllocError>
    ensures { IfOk result (λ line. map string_bytes line.items ≡ map (λ w. w.now) words.now) }
{
    let mut line = Vec::new(alloc);
    for word in words {
        line.push(String::from_str(alloc, word)?)?;
    }
    Ok(line)
}

/// Returns the list of this one call, or an empty list for 0.
pub fn only(alloc: Global, call: u32) -> Result<Vec<u32>, AllocError>
    ensures { IfOk result (λ calls. calls.items ≡ (if call == 0 then [] else call ∷ [])) }
{
    let mut calls = Vec::new(alloc);
    if call > 0 {
        calls.push(call)?;
    }
    Ok(calls)
}

/// Returns a source whose calls return at most `piece` octets each. The call `failing` fails, 0 for
/// none.
pub fn source_of(
    alloc: Global,
    file: &[u8],
    piece: usize,
    failing: u32,
) -> Result<MemSource, AllocError> {
    let calls = only(alloc, failing)?;
    Ok(MemSource::new(Vec::from_slice(alloc, file)?, piece.max(1), calls))
}

/// Returns a sink for at most `room` octets. The call `failing` fails, 0 for none.
pub fn sink_of(alloc: Global, room: usize, failing: u32) -> Result<MemSink, Fail> {
    Ok(MemSink::new(alloc, room, only(alloc, failing)?)?)
}

/// Returns the status of a run.
pub fn status_of(
    alloc: Global,
    words: &[String],
    source: &mut MemSource,
    capture: &mut MemSink,
    report: &mut MemSink,
) -> u8 {
    run(alloc, words, source, capture, report)
}

/// The end of a run: its status, the texts of its report, and the octets of its output capture.
#[derive(Clone, Copy)]
pub struct Outcome<'a> {
    pub status: u8,
    pub report: &'a [&'a str],
    pub capture: &'a [u8],
}

/// Returns whether the octets are these texts, one after another.
fn is_text(octets: &[u8], texts: &[&str]) -> bool {
    let mut left = octets;
    for text in texts {
        match left.strip_prefix(text.as_bytes()) {
            Some(rest) => left = rest,
            None => return false,
        }
    }
    left.is_empty()
}

// Owns the source and the sinks, and does nothing else: a function that owns one is slow to prove
// at each `?`.
fn ends_by(
    alloc: Global,
    words: &[String],
    source: &mut MemSource,
    failing: (u32, u32, u32),
    outcome: &Outcome<'_>,
) -> Result<bool, Fail> {
    let mut capture = sink_of(alloc, 131_072, failing.1)?;
    let mut report = sink_of(alloc, 4096, failing.2)?;
    let status = status_of(alloc, words, source, &mut capture, &mut report);
    let same = status == outcome.status && capture.held() == outcome.capture;
    Ok(same && is_text(report.held(), outcome.report))
}

/// Returns whether a run over a file has this outcome. A call of the source returns at most `piece`
/// octets. `failing` has the number of the call that fails of the source, of the capture sink and
/// of the report sink, 0 for none.
pub fn ends(
    alloc: Global,
    words: &[&str],
    file: &[u8],
    piece: usize,
    failing: (u32, u32, u32),
    outcome: &Outcome<'_>,
) -> Result<bool, Fail> {
    let words = line(alloc, words)?;
    let mut source = source_of(alloc, file, piece, failing.0)?;
    ends_by(alloc, &words, &mut source, failing, outcome)
}

/// No call fails.
pub const NONE: (u32, u32, u32) = (0, 0, 0);
