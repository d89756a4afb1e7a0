//! Runs over a source that may wait: the capture and then the report are flushed before each
//! record, and such a flush may fail.
use super::WORDS;
use crate::runs::{capture_file, line, source_of};
use bridge_run::run;
use edge_io::{Failed, MemSource, Sink, Source};
use std::alloc::{AllocError, Global};
use std::test::Fail;

/// Octets in memory; each call may wait.
#[derive(Drop)]
struct Arriving {
    octets: MemSource,
}

impl Source for Arriving {
    ghost use Rattle.std.specs.Prelude.{Some};

    ghost left = { λ s. Some s.octets.left };

    ghost fault_count = { λ s. s.octets.faults };

    fn fetch(&mut self, buf: &mut [u8]) -> Result<usize, Failed> {
        self.octets.fetch(buf)
    }

    fn faults(&self) -> u64 {
        self.octets.faults()
    }

    fn may_wait(&self) -> bool {
        true
    }
}

/// A sink; one flush of it fails, counted from 1, or none if that is 0.
#[derive(Drop)]
struct Buffering {
    octets: Vec<u8>,
    flushes: u32,
    failing: u32,
    faults: u64,
}

impl Buffering {
    fn new(alloc: Global, failing: u32) -> Buffering {
        Buffering {
            octets: Vec::new(alloc),
            flushes: 0,
            failing,
            faults: 0,
        }
    }
}

impl Sink for Buffering {
    ghost use Rattle.std.specs.Prelude.{None};

    ghost held = { λ s. None };

    ghost fault_count = { λ s. s.faults };

    fn put(&mut self, bytes: &[u8]) -> Result<(), Failed> {
        if self.octets.extend_from_slice(bytes).is_err() {
            self.faults = self.faults.saturating_add(1);
            return Err(Failed);
        }
        Ok(())
    }

    fn flush(&mut self) -> Result<(), Failed> {
        self.flushes = self.flushes.saturating_add(1);
        if self.flushes == self.failing {
            self.faults = self.faults.saturating_add(1);
            return Err(Failed);
        }
        Ok(())
    }

    fn faults(&self) -> u64 {
        self.faults
    }
}

/// A test case over a capture of two records: the flush that fails of the capture and of the
/// report, 0 for none. Its result: the status, the report, and the number of octets given to the
/// capture.
struct Flushes {
    failing: (u32, u32),
    status: u8,
    report: &'static str,
    written: usize,
}

// The flushes are those before the first record, before the second, before the end of the source,
// and at the end.
#[rattlefmt::skip]
const WAITING: &[Flushes] = &[
    Flushes { failing: (0, 0), status: 0, report: "norm 2\n1 in pass 1\n2 in pass 1\nend 2 2\n", written: 116 },
    Flushes { failing: (1, 0), status: 6, report: "norm 2\nstop capture 24\n", written: 24 },
    Flushes { failing: (2, 0), status: 6, report: "norm 2\n1 in pass 1\nstop capture 70\n", written: 70 },
    Flushes { failing: (3, 0), status: 6, report: "norm 2\n1 in pass 1\n2 in pass 1\nstop capture 116\n", written: 116 },
    Flushes { failing: (4, 0), status: 6, report: "norm 2\n1 in pass 1\n2 in pass 1\nstop capture 116\n", written: 116 },
    Flushes { failing: (5, 0), status: 0, report: "norm 2\n1 in pass 1\n2 in pass 1\nend 2 2\n", written: 116 },
    Flushes { failing: (0, 1), status: 7, report: "norm 2\n", written: 24 },
    Flushes { failing: (0, 2), status: 7, report: "norm 2\n1 in pass 1\n", written: 70 },
    Flushes { failing: (0, 3), status: 7, report: "norm 2\n1 in pass 1\n2 in pass 1\n", written: 116 },
    Flushes { failing: (0, 4), status: 7, report: "norm 2\n1 in pass 1\n2 in pass 1\nend 2 2\n", written: 116 },
];

// Octets in memory never wait, so the only flush is that at the end.
#[rattlefmt::skip]
const READY: &[Flushes] = &[
    Flushes { failing: (1, 0), status: 6, report: "norm 2\n1 in pass 1\n2 in pass 1\nstop capture 116\n", written: 116 },
    Flushes { failing: (2, 2), status: 0, report: "norm 2\n1 in pass 1\n2 in pass 1\nend 2 2\n", written: 116 },
];

/// Returns whether a run over this source ends as expected.
fn ends_so<S: Source>(alloc: Global, words: &[String], source: &mut S, row: &Flushes) -> bool {
    let mut capture = Buffering::new(alloc, row.failing.0);
    let mut report = Buffering::new(alloc, row.failing.1);
    let status = run(alloc, words, source, &mut capture, &mut report);
    let same = status == row.status && capture.octets.len() == row.written;
    same && report.octets.as_slice() == row.report.as_bytes()
}

/// Returns the index of the first case with another outcome over a source that may wait.
fn first_other(alloc: Global, rows: &[Flushes]) -> Result<Option<usize>, Fail> {
    let words = line(alloc, WORDS)?;
    let file = capture_file(alloc, "", 2, "")?;
    for (index, row) in rows.iter().enumerate() {
        let mut source = Arriving {
            octets: source_of(alloc, &file, 65536, 0)?,
        };
        if !ends_so(alloc, &words, &mut source, row) {
            return Ok(Some(index));
        }
    }
    Ok(None)
}

/// Returns the index of the first case with another outcome over octets in memory.
fn first_other_ready(alloc: Global, rows: &[Flushes]) -> Result<Option<usize>, Fail> {
    let words = line(alloc, WORDS)?;
    let file = capture_file(alloc, "", 2, "")?;
    for (index, row) in rows.iter().enumerate() {
        let mut source = source_of(alloc, &file, 65536, 0)?;
        if !ends_so(alloc, &words, &mut source, row) {
            return Ok(Some(index));
        }
    }
    Ok(None)
}

#[test]
fn outputs_are_flushed_before_each_record_that_may_wait(rt: HostRuntime) -> Result<(), Fail> {
    assert_eq!(rt; first_other(rt.alloc(), WAITING)?, None);
    Ok(())
}

#[test]
fn octets_in_memory_are_flushed_at_the_end(rt: HostRuntime) -> Result<(), Fail> {
    assert_eq!(rt; first_other_ready(rt.alloc(), READY)?, None);
    Ok(())
}
