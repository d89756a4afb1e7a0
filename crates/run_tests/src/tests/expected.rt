//! The expected outputs of a disturbed run, computed from the outputs of the undisturbed run.
use crate::cases::{capture_of, words_of};
use crate::runs::{line, sink_of, source_of, status_of};
use std::alloc::Global;
use std::test::Fail;

/// The options of a run, and the packets of its capture.
pub(super) struct Case {
    pub(super) options: &'static str,
    pub(super) packets: &'static str,
}

/// The three objects of a run: its source and its two sinks.
#[derive(Clone, Copy)]
pub(super) enum End {
    Source,
    Capture,
    Report,
}

/// Numbers of octets: taken from the source, held by the capture sink, held by the report sink.
#[derive(Clone, Copy)]
pub(super) struct Mark {
    pub(super) taken: usize,
    pub(super) written: usize,
    pub(super) told: usize,
}

impl Mark {
    fn at(&self, end: End) -> usize {
        match end {
            End::Source => self.taken,
            End::Capture => self.written,
            End::Report => self.told,
        }
    }
}

/// A run without failed calls: its words, its input, its outputs, and the marks before the file
/// header, after it, and after each record.
#[derive(Drop)]
pub(super) struct Undisturbed {
    pub(super) words: Vec<String>,
    pub(super) file: Vec<u8>,
    pub(super) capture: Vec<u8>,
    pub(super) report: Vec<u8>,
    marks: Vec<Mark>,
}

/// Returns the captured length of the record at this offset, below 65,536 octets.
fn captured_length(octets: &[u8], at: usize) -> usize {
    let low = octets.get(at.saturating_add(8)).unwrap_or(&0);
    let high = octets.get(at.saturating_add(9)).unwrap_or(&0);
    usize::from(*low) + 256 * usize::from(*high)
}

/// Returns the offset after `records` records from offset `at` on.
fn after_records(octets: &[u8], at: usize, records: u32) -> usize {
    let mut at = at;
    for _ in 0..records {
        at = at
            .saturating_add(16)
            .saturating_add(captured_length(octets, at));
    }
    at
}

/// Returns the number of frames in a line of the report: `4 in pass 1 @1` has one.
fn frames_in(line: &str) -> Result<u32, Fail> {
    let word = line.split_whitespace().nth(3).unwrap_or("");
    Ok(word.parse()?)
}

/// Appends the marks after each record to the first two. A line that begins with `/` is one of the
/// second engine; with two engines only the frames of the second are written.
fn add_marks(marks: &mut Vec<Mark>, file: &[u8], capture: &[u8], report: &str) -> Result<(), Fail> {
    let mut lines = report.split_inclusive('\n');
    let first = lines.next().unwrap_or("");
    let both = first.contains("both");
    let mut mark = Mark {
        taken: 0,
        written: 0,
        told: first.len(),
    };
    marks.push(mark)?;
    mark.taken = 24;
    mark.written = 24;
    marks.push(mark)?;
    for line in lines {
        if line.starts_with("end") {
            return Ok(());
        }
        let second = line.starts_with("/");
        if second {
            marks.pop();
        } else {
            mark.taken = after_records(file, mark.taken, 1);
        }
        if second == both {
            mark.written = after_records(capture, mark.written, frames_in(line)?);
        }
        mark.told = mark.told.saturating_add(line.len());
        marks.push(mark)?;
    }
    Err(Fail::new("the report has no last line"))
}

/// Returns the marks of a run.
fn marks_of(alloc: Global, file: &[u8], capture: &[u8], report: &[u8]) -> Result<Vec<Mark>, Fail> {
    let report = str::from_utf8(report).ok().ok_or("the report is not text")?;
    let mut marks = Vec::new(alloc);
    add_marks(&mut marks, file, capture, report)?;
    Ok(marks)
}

/// Returns the undisturbed run of a case.
pub(super) fn undisturbed_run(alloc: Global, case: &Case) -> Result<Undisturbed, Fail> {
    let words = words_of(alloc, case.options, "")?;
    let words = line(alloc, &words)?;
    let file = capture_of(alloc, case.packets)?;
    let (capture, report) = outputs_of(alloc, &words, &file)?;
    let marks = marks_of(alloc, &file, &capture, &report)?;
    Ok(Undisturbed {
        words,
        file,
        capture,
        report,
        marks,
    })
}

/// Returns what a run over a file writes to its capture and to its report.
fn outputs_of(alloc: Global, words: &[String], file: &[u8]) -> Result<(Vec<u8>, Vec<u8>), Fail> {
    let mut source = source_of(alloc, file, 65536, 0)?;
    let mut capture = sink_of(alloc, 131_072, 0)?;
    let mut report = sink_of(alloc, 4096, 0)?;
    status_of(alloc, words, &mut source, &mut capture, &mut report);
    let capture = Vec::from_slice(alloc, capture.held())?;
    Ok((capture, Vec::from_slice(alloc, report.held())?))
}

/// The expected end of a run: its status, the octets taken from the source and held by the sinks,
/// and the kind and the offset of its `stop` line. The report has the first `told` octets of the
/// undisturbed one, and then the `stop` line.
#[derive(Clone, Copy)]
pub(super) struct Expected {
    pub(super) status: u8,
    pub(super) mark: Mark,
    pub(super) stop: Option<(&'static str, usize)>,
}

impl Undisturbed {
    /// Returns the last mark at which an object of the run has at most `octets`, and the next one.
    fn around(&self, end: End, octets: usize) -> (Mark, Mark) {
        let mut last = Mark {
            taken: 0,
            written: 0,
            told: 0,
        };
        for mark in &self.marks {
            if mark.at(end) > octets {
                return (last, *mark);
            }
            last = *mark;
        }
        (last, self.whole())
    }

    /// Returns the mark after the whole run.
    fn whole(&self) -> Mark {
        Mark {
            taken: self.file.len(),
            written: self.capture.len(),
            told: self.report.len(),
        }
    }

    /// Returns the end of a run whose source fails after `taken` octets.
    fn at_source(&self, taken: usize) -> Expected {
        let (last, _) = self.around(End::Source, taken);
        Expected {
            status: 5,
            mark: Mark { taken, ..last },
            stop: Some(("read", last.taken)),
        }
    }

    /// Returns the end of a run whose capture sink fails when it holds `written` octets.
    pub(super) fn at_capture(&self, written: usize) -> Expected {
        let (last, next) = self.around(End::Capture, written);
        Expected {
            status: 6,
            mark: Mark {
                taken: next.taken,
                written,
                told: last.told,
            },
            stop: Some(("capture", last.taken)),
        }
    }

    /// Returns the end of a run whose report sink fails when it holds `told` octets.
    fn at_report(&self, told: usize) -> Expected {
        let (_, next) = self.around(End::Report, told);
        Expected {
            status: 7,
            mark: Mark { told, ..next },
            stop: None,
        }
    }

    /// Returns the end of a run whose object `end` fails at this number of octets.
    pub(super) fn at(&self, end: End, octets: usize) -> Expected {
        match end {
            End::Source => self.at_source(octets),
            End::Capture => self.at_capture(octets),
            End::Report => self.at_report(octets),
        }
    }

    /// Returns the end of the undisturbed run.
    pub(super) fn at_end(&self) -> Expected {
        Expected {
            status: 0,
            mark: self.whole(),
            stop: None,
        }
    }
}
