//! A source and a sink in memory, which fail at the calls that a list names.
ghost use Rattle.std.specs.Prelude.{◌≡◌, ◌+◌, ◌-◌, ◌<◌, ◌≤◌, ◌↔◌, ◌⊎◌, [], ◌++◌, None, Some, length, take, drop, vec_len, vec_capacity, IfOk, OnOk, OnErr, IsOk, IsErr, IsTrue};
ghost use Rattle.edge_io.specs.FaultCounts.{HasCause, next_count};
ghost use Rattle.edge_io.specs.KnownOctets.{Fetches, Puts};
ghost use Rattle.edge_io.specs.MemoryEnds.{MemorySource, MemorySink, IsListed, given_count};

use crate::{Failed, NoMemory, Sink, Source};
use std::alloc::Global;
use std::marker::Model;

// Returns whether the list names the call that follows this number of calls.
fn is_listed(failing: &[u32], calls: u64) -> bool
    ensures { IsTrue result ↔ IsListed failing.now calls }
{
    let call = calls.saturating_add(1);
    failing.iter().any(|number| u64::from(*number) == call)
}

/// Octets in memory; one call returns at most `piece` of them.
#[derive(Drop)]
pub struct MemSource {
    bytes: Vec<u8>,
    at: usize,
    piece: usize,
    failing: Vec<u32>,
    calls: u64,
    faults: u64,
}

impl Model for MemSource {
    ghost Value = { MemorySource };

    ghost view = { λ s. record {
      left = drop s.at s.bytes.items;
      piece = s.piece;
      failing = s.failing.items;
      calls = s.calls;
      faults = s.faults;
    } };

    ghost invariant = { λ s. (s.at ≤ vec_len s.bytes) × (0 < s.piece) };
}

impl MemSource {
    /// Returns a source of these octets. It fails at the calls whose numbers, counted from 1, are
    /// in `fails`. Calls with an empty buffer count.
    pub fn new(bytes: Vec<u8>, piece: usize, fails: Vec<u32>) -> MemSource
        requires { 0 < piece }
        ensures { result ≡ record {
          left = bytes.items;
          piece = piece;
          failing = fails.items;
          calls = 0;
          faults = 0;
        } }
    {
        MemSource {
            bytes,
            at: 0,
            piece,
            failing: fails,
            calls: 0,
            faults: 0,
        }
    }
}

impl Source for MemSource {
    ghost left = { λ s. Some s.left };

    ghost fault_count = { λ s. s.faults };

    fn fetch(&mut self, buf: &mut [u8]) -> Result<usize, Failed>
        ensures octets { Fetches (Some self.old.left) (Some self.new.left) result buf.new }
        ensures cause { HasCause self.old.faults self.new.faults result }

        // It fails exactly at the listed calls; these move nothing.
        ensures listed { IsErr result ↔ IsListed self.old.failing self.old.calls }
        ensures failed { OnErr result (self.new ≡ record self.old {
          calls = next_count self.old.calls;
          faults = next_count self.old.faults;
        }) }
        ensures untouched { OnErr result (buf.new ≡ buf.old) }

        // Each other call moves as many octets as it can to the front of the buffer.
        ensures given { IfOk result (λ n. n ≡ given_count self.old (length buf.old)) }
        ensures front { IfOk result (λ n. buf.new ≡ take n self.old.left ++ drop n buf.old) }
        ensures moved { IfOk result (λ n. self.new ≡ record self.old {
          left = drop n self.old.left;
          calls = next_count self.old.calls;
        }) }
    {
        let listed = is_listed(&self.failing, self.calls);
        self.calls = self.calls.saturating_add(1);
        if listed {
            self.faults = self.faults.saturating_add(1);
            return Err(Failed);
        }
        let count = self.piece.min(buf.len()).min(self.bytes.len() - self.at);
        buf[..count].copy_from_slice(&self.bytes[self.at..self.at + count]);
        self.at += count;
        Ok(count)
    }

    fn faults(&self) -> u64 {
        self.faults
    }
}

/// A sink in memory, of fixed capacity.
#[derive(Drop)]
pub struct MemSink {
    held: Vec<u8>,
    room: usize,
    failing: Vec<u32>,
    calls: u64,
    faults: u64,
}

impl Model for MemSink {
    ghost Value = { MemorySink };

    ghost view = { λ s. record {
      held = s.held.items;
      room = s.room;
      failing = s.failing.items;
      calls = s.calls;
      faults = s.faults;
    } };

    ghost invariant = { λ s. (vec_len s.held ≤ s.room) × (s.room ≤ vec_capacity s.held) };
}

impl MemSink {
    /// Returns a sink for at most `room` octets. It fails at the puts whose numbers, counted from
    /// 1, are in `fails`. Such a put appends nothing. One that does not fit fails, too, and appends
    /// what fits. A flush never fails.
    pub fn new(alloc: Global, room: usize, fails: Vec<u32>) -> Result<MemSink, NoMemory>
        ensures { IfOk result (λ sink. sink ≡ record {
          held = [];
          room = room;
          failing = fails.items;
          calls = 0;
          faults = 0;
        }) }
    {
        let held = Vec::with_capacity(alloc, room)?;
        Ok(MemSink {
            held,
            room,
            failing: fails,
            calls: 0,
            faults: 0,
        })
    }

    /// Returns the octets held.
    pub fn held(&self) -> &[u8]
        ensures { result.now ≡ self.now.held }
    {
        &self.held
    }
}

impl Sink for MemSink {
    ghost held = { λ s. Some s.held };

    ghost fault_count = { λ s. s.faults };

    fn put(&mut self, bytes: &[u8]) -> Result<(), Failed>
        ensures octets { Puts (Some self.old.held) (Some self.new.held) result bytes.now }
        ensures cause { HasCause self.old.faults self.new.faults result }

        // It fails exactly at the listed calls and if the octets do not fit.
        ensures failed { IsErr result ↔ (IsListed self.old.failing self.old.calls
            ⊎ (self.old.room < length self.old.held + length bytes.now)) }

        // A listed call appends nothing.
        ensures listed { IsListed self.old.failing self.old.calls → self.new ≡ record self.old {
          calls = next_count self.old.calls;
          faults = next_count self.old.faults;
        } }

        // Of octets that do not fit, the prefix that fits is appended.
        ensures full { OnErr result (¬ IsListed self.old.failing self.old.calls → self.new ≡ record self.old {
          held = self.old.held ++ take (self.old.room - length self.old.held) bytes.now;
          calls = next_count self.old.calls;
          faults = next_count self.old.faults;
        }) }

        ensures fits { OnOk result (self.new ≡ record self.old {
          held = self.old.held ++ bytes.now;
          calls = next_count self.old.calls;
        }) }
    {
        let listed = is_listed(&self.failing, self.calls);
        self.calls = self.calls.saturating_add(1);
        if listed {
            self.faults = self.faults.saturating_add(1);
            return Err(Failed);
        }
        let count = bytes.len().min(self.room - self.held.len());
        let kept = self.held.extend_from_slice(&bytes[..count]).is_ok();
        if kept && count == bytes.len() {
            return Ok(());
        }
        self.faults = self.faults.saturating_add(1);
        Err(Failed)
    }

    /// Does nothing, since the sink buffers nothing.
    fn flush(&mut self) -> Result<(), Failed>
        ensures ok { IsOk result }
        ensures stays { self.new ≡ self.old }
    {
        Ok(())
    }

    fn faults(&self) -> u64 {
        self.faults
    }
}
