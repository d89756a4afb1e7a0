//! Worked cases of whole runs. A case is a text: `# NAME`, then these lines, up to an empty one.
//!
//! - `run OPTIONS`: the options of the run, if it has any.
//! - `ethernet`: each packet has an Ethernet header (RFC 894).
//! - `opened` or `request`: the lines of `OPENED` or `REQUEST`.
//! - A packet, as `notation` reads it; after two spaces each, its line of the report and, with
//!   `--both`, those of the second engine, which begin with `/`. Without `--both` those are left
//!   out. If each line says `pass`, the packet is written.
//! - Two spaces and a packet: it is written after what precedes it.
//! - `stream OFFSET OCTETS FIN`: receivers that begin at this offset of the first connection
//!   deliver these octets, if any, and its end, if present. After `stream out` it is the outbound
//!   stream, which only the model's receivers read.
mod both;
mod connections;
mod cut;
mod evasions;
mod fragments;
mod streams;

use crate::packets::{add_inward_packet, add_packet, head_of};
use crate::runs::{HEAD, NONE, Outcome, ends, words_in};
pub use both::BOTH;
pub use connections::CONNECTIONS;
pub use cut::CUT;
pub use evasions::EVASIONS;
pub use fragments::FRAGMENTS;
use std::alloc::{AllocError, Global};
use std::test::Fail;
pub use streams::STREAMS;

/// An outside host opens a connection. The first octet of its stream has sequence number 1000.
const OPENED: &str = "\
> S 999         1 in pass 1 @1 +1  /1 out pass 1 @1 +1
< SA 5000,1000  2 out pass 1 @1    /2 in pass 1 @1
> A 1000,5001   3 in pass 1 @1     /3 out pass 1 @1
";

/// A connection from its first segment to its last, with options on both SYNs, a request and a
/// response.
const REQUEST: &str = "\
> S 999 [opt=$OFFERED]                         1 in pass 1 @1 +1  /1 out pass 1 @1 +1
< SA 5000,1000 [opt=$OFFERED]                  2 out pass 1 @1    /2 in pass 1 @1
> A 1000,5001                                  3 in pass 1 @1     /3 out pass 1 @1
> PA 1000,5001 GET_/_HTTP/1.0+0x0d0a0d0a       4 in pass 1 @1     /4 out pass 1 @1
< A 5001,1018                                  5 out pass 1 @1    /5 in pass 1 @1
< PA 5001,1018 HTTP/1.0_200_OK+0x0d0a0d0a      6 out pass 1 @1    /6 in pass 1 @1
> A 1018,5020                                  7 in pass 1 @1     /7 out pass 1 @1
< FA 5020,1018                                 8 out pass 1 @1    /8 in pass 1 @1
> FA 1018,5021                                 9 in pass 1 @1     /9 out pass 1 @1
< A 5021,1019                                  10 out pass 1 @1   /10 in pass 1 @1
";

/// Options for the seed of the tables in the two runs of each case: none, for the default of 0, and
/// one for 7.
pub const SEEDS: [&str; 2] = ["", "--seed=7"];

/// Returns the words of a run with these options and this seed.
pub fn words_of<'a>(alloc: Global, options: &'a str, seed: &'a str) -> Result<Vec<&'a str>, Fail> {
    words_in(alloc, &["run", options, seed, "a b 10.0.0.0/8"])
}

/// Returns the lines that a line stands for: those of an opening, or the line.
fn opening(line: &str) -> &str {
    match line {
        "opened" => OPENED,
        "request" => REQUEST,
        _ => line,
    }
}

/// Returns the case with the lines of its openings.
fn spelled_out(alloc: Global, case: &str) -> Result<String, AllocError> {
    let mut text = String::new(alloc);
    for line in case.split('\n') {
        text.push_str(opening(line))?;
        text.push_str("\n")?;
    }
    Ok(text)
}

/// Returns the options of a case.
fn options_of(case: &str) -> &str {
    for line in case.split('\n') {
        if let Some(options) = line.strip_prefix("run ") {
            return options;
        }
    }
    ""
}

/// Returns whether the line begins with a packet.
fn has_packet(line: &str) -> bool {
    line.starts_with(">") || line.starts_with("<")
}

/// Returns the packet that a line begins with.
fn packet_in(line: &str) -> &str {
    match line.split_once("  ") {
        Some((packet, _)) => packet,
        None => line,
    }
}

/// What the lines of a case are read by: whether packets have Ethernet headers, and whether there
/// are two engines.
#[derive(Clone, Copy)]
struct Form {
    ethernet: bool,
    both: bool,
}

/// Returns whether a run of this form has this text, after the packet of a line, in its report.
fn is_said(text: &str, form: Form) -> bool {
    !text.is_empty() && (form.both || !text.starts_with("/"))
}

/// Returns whether each engine passes the packet of a line.
fn passes(line: &str, form: Form) -> bool {
    for text in line.split("  ").skip(1) {
        let text = text.trim();
        if is_said(text, form) && !text.contains(" pass ") {
            return false;
        }
    }
    true
}

/// Returns the packet that is written by a line.
fn written_in(line: &str, form: Form) -> Option<&str> {
    if let Some(packet) = line.strip_prefix("  ") {
        return Some(packet);
    }
    if has_packet(line) && passes(line, form) {
        return Some(packet_in(line));
    }
    None
}

/// Appends the records of the packets that are read.
fn add_read(file: &mut Vec<u8>, alloc: Global, lines: &str, form: Form) -> Result<(), Fail> {
    for line in lines.split('\n') {
        if has_packet(line) {
            add_packet(file, alloc, packet_in(line), form.ethernet)?;
        }
    }
    Ok(())
}

/// Appends the records of the packets that are written.
fn add_written(file: &mut Vec<u8>, alloc: Global, lines: &str, form: Form) -> Result<(), Fail> {
    for line in lines.split('\n') {
        if let Some(packet) = written_in(line, form) {
            add_packet(file, alloc, packet, form.ethernet)?;
        }
    }
    Ok(())
}

/// Appends what is said of the packet of a line.
fn add_said(report: &mut String, line: &str, form: Form) -> Result<(), AllocError> {
    for text in line.split("  ").skip(1) {
        let text = text.trim();
        if is_said(text, form) {
            report.push_str(text)?;
            report.push_str("\n")?;
        }
    }
    Ok(())
}

/// Appends the report of a run.
fn add_report(
    report: &mut String,
    alloc: Global,
    lines: &str,
    form: Form,
) -> Result<(), AllocError> {
    report.push_str(if form.both {
        "norm 2 both\n"
    } else {
        "norm 2\n"
    })?;
    let (mut records, mut frames) = (0u32, 0u32);
    for line in lines.split('\n') {
        if has_packet(line) {
            add_said(report, line, form)?;
            records = records.saturating_add(1);
        }
        if written_in(line, form).is_some() {
            frames = frames.saturating_add(1);
        }
    }
    let end = format!(in alloc; "end {records} {frames}\n")?;
    report.push_str(&end)
}

/// The files of a case's run: the capture that is read, the report, and the capture that is
/// written.
#[derive(Drop)]
struct Files {
    read: Vec<u8>,
    report: String,
    written: Vec<u8>,
}

/// Appends to files that have nothing but file headers.
fn fill(files: &mut Files, alloc: Global, lines: &str, form: Form) -> Result<(), Fail> {
    add_read(&mut files.read, alloc, lines, form)?;
    add_report(&mut files.report, alloc, lines, form)?;
    add_written(&mut files.written, alloc, lines, form)
}

/// Returns the files of a case whose openings are spelled out.
fn files_of(alloc: Global, lines: &str, form: Form) -> Result<Files, Fail> {
    let head = head_of(form.ethernet);
    let mut files = Files {
        read: Vec::from_slice(alloc, &head)?,
        report: String::new(alloc),
        written: Vec::from_slice(alloc, &head)?,
    };
    fill(&mut files, alloc, lines, form)?;
    Ok(files)
}

/// Returns the form of a case's run.
fn form_of(case: &str) -> Form {
    Form {
        ethernet: case.contains("\nethernet\n"),
        both: options_of(case).contains("--both"),
    }
}

/// Returns the capture of packets: the lines of a case without its name.
pub fn capture_of(alloc: Global, packets: &str) -> Result<Vec<u8>, Fail> {
    let lines = spelled_out(alloc, packets)?;
    let mut file = Vec::from_slice(alloc, &HEAD)?;
    add_read(&mut file, alloc, &lines, form_of(packets))?;
    Ok(file)
}

/// Appends the inbound segments of the first connection that a case writes.
pub fn add_inward(list: &mut Vec<Vec<u8>>, alloc: Global, case: &str) -> Result<(), Fail> {
    let (lines, form) = (spelled_out(alloc, case)?, form_of(case));
    for line in lines.split('\n') {
        if let Some(packet) = written_in(line, form) {
            add_inward_packet(list, alloc, packet)?;
        }
    }
    Ok(())
}

/// Returns whether a run with these words ends with status 0, and with these files.
fn ends_so(alloc: Global, words: &[&str], files: &Files) -> Result<bool, Fail> {
    let outcome = Outcome {
        status: 0,
        report: &[&files.report],
        capture: &files.written,
    };
    ends(alloc, words, &files.read, 65536, NONE, &outcome)
}

/// Returns whether a case holds with this seed.
fn holds(alloc: Global, case: &str, files: &Files, seed: &str) -> Result<bool, Fail> {
    let words = words_of(alloc, options_of(case), seed)?;
    ends_so(alloc, &words, files)
}

/// Returns whether a case holds with each seed.
fn holds_with_each(alloc: Global, case: &str) -> Result<bool, Fail> {
    let lines = spelled_out(alloc, case)?;
    let files = files_of(alloc, &lines, form_of(case))?;
    Ok(holds(alloc, case, &files, SEEDS[0])? && holds(alloc, case, &files, SEEDS[1])?)
}

/// Returns the name of a case.
pub fn name_of(case: &str) -> &str {
    match case.split_once('\n') {
        Some((name, _)) => name,
        None => case,
    }
}

/// Returns the name of the first case that does not hold.
pub fn first_other<'a>(alloc: Global, cases: &'a str) -> Result<Option<&'a str>, Fail> {
    for case in cases.split("\n\n") {
        if !holds_with_each(alloc, case)? {
            return Ok(Some(name_of(case)));
        }
    }
    Ok(None)
}
