//! The first octets of a stream, by their offsets. No octet is forgotten.
ghost use Rattle.std.specs.Prelude.{◌≡◌, ℕ, ◌+◌, ◌%◌, ◌==◌, ◌^◌, ◌<◌, ◌≤◌, ◌||◌, not, length, IsTrue, Option, Some, None, IfOk, if◌then◌else◌};
ghost use Rattle.run_audit.specs.FrameFaults.{is_other};
ghost use Rattle.run_audit.specs.working.KeptOctets.{is_at_end, some_stray};

use crate::offset::Offset;
use edge_io::NoMemory;
use std::alloc::Global;
use std::boxed::Box;
use std::cmp::Reverse;
use std::collections::BTreeMap;

/// The number of offsets in a block.
const BLOCK: u64 = 256;

/// The octets at 256 consecutive offsets. An offset may have none: then `held` is false there.
#[derive(Drop)]
struct Block {
    held: [bool; 256],
    first: [u8; 256],
}

impl Block {
    ghost use Rattle.run_audit.specs.working.KeptOctets.{kept_with, octet_in, some_stray};

    // Returns a block without octets.
    fn new() -> Block
        ensures { (index : ℕ) → octet_in result index ≡ None }
    {
        Block {
            held: [false; 256],
            first: [0; 256],
        }
    }

    // Stores octets from an index on. Returns whether each is the first at its index or equals the
    // one before.
    fn put_run(&mut self, index: usize, octets: &[u8]) -> bool
        requires { index + length octets.now ≤ 256 }
        ensures right { result ≡ not (some_stray (octet_in self.old) None index octets.now) }
        ensures kept { IsTrue result → (at : ℕ) → octet_in self.new at ≡ kept_with (octet_in self.old) index octets.now at }
    {
        let mut right = true;
        for (count, octet) in octets.iter().enumerate() {
            right &= self.put(index + count, *octet);
        }
        right
    }

    // Stores an octet at an index. Returns whether it is the first there or equals the one before.
    fn put(&mut self, index: usize, octet: u8) -> bool
        requires { index < 256 }
        ensures same { result ≡ not (is_other (octet_in self.old index) octet) }
        ensures kept { (at : ℕ) → octet_in self.new at ≡ (if index == at then Some octet else octet_in self.old at) }
    {
        // Both are read before the test, so that the loop over a run has no branches.
        let held = self.held[index];
        let first = self.first[index];
        self.held[index] = true;
        self.first[index] = octet;
        !held || first == octet
    }
}

/// The first octets at their offsets, in blocks. The number of a block is an offset in it plus
/// 2^31, divided by 256.
#[derive(Drop)]
pub(crate) struct Octets {
    alloc: Global,
    // The numbers descend, so that a look-up compares the last block first, to which most octets
    // go.
    blocks: BTreeMap<Reverse<u64>, Box<Block>>,
}

impl Octets {
    ghost use Rattle.run_audit.specs.working.KeptOctets.{AreKeptWith, kept_at, octet_in, some_stray};

    /// Returns a stream without octets.
    pub(crate) fn new(alloc: Global) -> Octets
        ensures { (raised : ℕ) → kept_at result raised ≡ None }
    {
        Octets {
            alloc,
            blocks: BTreeMap::new(alloc),
        }
    }

    /// Adds octets from an offset on. Returns whether none of them strays: none differs from the
    /// first one at its offset, and none is at or past the end.
    pub(crate) fn add(
        &mut self,
        place: Offset,
        octets: &[u8],
        end: Option<Offset>,
    ) -> Result<bool, NoMemory>
        requires { place.raised + length octets.now < 2 ^ 64 }
        ensures stray { IfOk result (λ right. right ≡ not (some_stray (kept_at self.old) end place.raised octets.now)) }
        ensures kept { IfOk result (λ right. IsTrue right → AreKeptWith self.old self.new place.raised octets.now) }
    {
        if reaches(end, place, octets) {
            return Ok(false);
        }
        self.add_all(place, octets)
    }

    // Adds octets from an offset on. Returns whether each is the first at its offset or equals the
    // one before.
    fn add_all(&mut self, place: Offset, octets: &[u8]) -> Result<bool, NoMemory>
        requires { place.raised + length octets.now < 2 ^ 64 }
        ensures right { IfOk result (λ right. right ≡ not (some_stray (kept_at self.old) None place.raised octets.now)) }
        ensures kept { IfOk result (λ right. IsTrue right → AreKeptWith self.old self.new place.raised octets.now) }
    {
        let mut start = place;
        let mut rest = octets;
        while !rest.is_empty() {
            let room = (BLOCK - start.raised % BLOCK) as usize;
            let (run, behind) = rest.split_at(rest.len().min(room));
            if !self.add_run(start, run)? {
                return Ok(false);
            }
            start = start.after(run.len());
            rest = behind;
        }
        Ok(true)
    }

    // Adds octets of one block. Returns whether each is the first at its offset or equals the one
    // before.
    fn add_run(&mut self, place: Offset, octets: &[u8]) -> Result<bool, NoMemory>
        requires { place.raised % 256 + length octets.now ≤ 256 }
        ensures right { IfOk result (λ right. right ≡ not (some_stray (kept_at self.old) None place.raised octets.now)) }
        ensures kept { IfOk result (λ right. IsTrue right → AreKeptWith self.old self.new place.raised octets.now) }
    {
        let number = Reverse(place.raised / BLOCK);
        let index = (place.raised % BLOCK) as usize;
        match self.blocks.get_mut(&number) {
            Some(block) => Ok(block.put_run(index, octets)),
            None => {
                let mut block = Box::new(self.alloc, Block::new())?;
                let right = block.put_run(index, octets);
                self.blocks.insert(number, block)?;
                Ok(right)
            }
        }
    }
}

// Returns whether one of the octets from an offset on is at or past the end, if there is one.
fn reaches(end: Option<Offset>, place: Offset, octets: &[u8]) -> bool
    requires { place.raised + length octets.now < 2 ^ 64 }
    ensures { (kept : ℕ → Option ℕ) → some_stray kept end place.raised octets.now ≡ (result || some_stray kept None place.raised octets.now) }
{
    match octets.len().checked_sub(1) {
        Some(last) => is_past(end, place.after(last)),
        None => false,
    }
}

// Returns whether the offset is at or past the end, if there is one.
fn is_past(end: Option<Offset>, offset: Offset) -> bool
    ensures { result ≡ is_at_end end offset.raised }
{
    match end {
        Some(end) => end.raised <= offset.raised,
        None => false,
    }
}
