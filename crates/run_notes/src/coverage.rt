//! Which offsets of a stream a capture has.

use edge_io::NoMemory;
use std::alloc::Global;

/// The offsets from `start` to below `stop`.
#[derive(Clone, Copy, Debug, Default, PartialEq, Eq)]
pub(crate) struct Run {
    pub(crate) start: u64,
    pub(crate) stop: u64,
}

/// The offsets that segments cover.
#[derive(Drop)]
pub(crate) struct Coverage {
    /// All runs but the last, in ascending order; no two runs overlap or touch.
    earlier: Vec<Run>,
    /// The last run, which nearly always is the one that grows.
    last: Run,
}

impl Run {
    // Returns how many of the offsets are below a limit.
    fn count_below(self, limit: u64) -> u64 {
        self.stop.min(limit).saturating_sub(self.start)
    }

    // Returns the run from the lower start to the higher stop.
    fn joined(self, other: Run) -> Run {
        Run {
            start: self.start.min(other.start),
            stop: self.stop.max(other.stop),
        }
    }
}

impl Coverage {
    /// Returns that nothing is covered.
    pub(crate) fn new(alloc: Global) -> Coverage {
        Coverage {
            earlier: Vec::new(alloc),
            last: Run::default(),
        }
    }

    /// Covers a run.
    pub(crate) fn cover(&mut self, run: Run) -> Result<(), NoMemory> {
        if run.start >= run.stop {
            return Ok(());
        }
        if run.start > self.last.stop {
            self.earlier.push(self.last)?;
            self.last = run;
            return Ok(());
        }
        if run.stop < self.last.start {
            return self.cover_earlier(run);
        }
        let grows_down = run.start < self.last.start;
        self.last = self.last.joined(run);
        if grows_down {
            self.join_last();
        }
        Ok(())
    }

    /// Returns how many offsets below a limit are not covered.
    pub(crate) fn missing_below(&self, limit: u64) -> u64 {
        let mut covered = self.last.count_below(limit);
        for run in &self.earlier {
            covered = covered.saturating_add(run.count_below(limit));
        }
        limit.saturating_sub(covered)
    }

    // Joins the last run with the earlier ones that it overlaps or touches.
    fn join_last(&mut self) {
        let start = self.last.start;
        let first = self.earlier.partition_point(|run| run.stop < start);
        if let Some(run) = self.earlier.get(first) {
            self.last = self.last.joined(*run);
        }
        self.earlier.truncate(first);
    }

    // Covers a run that ends before the last one begins.
    fn cover_earlier(&mut self, run: Run) -> Result<(), NoMemory> {
        let first = self.earlier.partition_point(|other| other.stop < run.start);
        let after = self
            .earlier
            .partition_point(|other| other.start <= run.stop);
        if after <= first {
            self.earlier.insert(first, run)?;
            return Ok(());
        }
        let joined = run
            .joined(self.earlier[first])
            .joined(self.earlier[after - 1]);
        self.earlier[first] = joined;
        self.earlier.drain(first + 1..after);
        Ok(())
    }
}
