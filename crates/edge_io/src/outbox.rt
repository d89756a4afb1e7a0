//! The frames of one record, collected until they are written.
use crate::NoMemory;
use std::alloc::Global;
use std::marker::Model;

/// Length of the longest frame in octets: an Ethernet header (14) and a packet of 65,535 (RFC 791
/// section 3.1).
pub const MAX_FRAME: usize = 65_549;

/// At most two frames of at most 65,549 octets each. Its value is the list of their octets, in the
/// order in which the frames were begun. It allocates all its memory when it is opened.
#[derive(Drop)]
pub struct Outbox {
    first: Vec<u8>,
    second: Vec<u8>,
    begun: usize,
}

impl Model for Outbox {
    ghost use Rattle.std.specs.Prelude.{◌≤◌, ℕ, List, [], ◌∷◌, take, vec_len, vec_capacity};
    ghost use Rattle.edge_io.specs.declared.outbox.TheConstants.{MAX_FRAME};

    ghost Value = { List (List ℕ) };

    ghost view = { λ o. take o.begun (o.first.items ∷ o.second.items ∷ []) };

    ghost invariant = { λ o. (o.begun ≤ 2)
        × (vec_len o.first ≤ MAX_FRAME) × (MAX_FRAME ≤ vec_capacity o.first)
        × (vec_len o.second ≤ MAX_FRAME) × (MAX_FRAME ≤ vec_capacity o.second) };
}

impl Outbox {
    ghost use Rattle.std.specs.Prelude.{◌≡◌, ◌+◌, ◌<◌, ◌≤◌, All, [], ◌∷◌, ◌++◌, Some, length, slice_get, IfOk};
    ghost use Rattle.edge_io.specs.Outboxes.{last_frame, extended};
    ghost use Rattle.edge_io.specs.declared.outbox.TheConstants.{MAX_FRAME};

    /// Returns an outbox without frames, with memory for two.
    pub fn open(alloc: Global) -> Result<Outbox, NoMemory>
        ensures { IfOk result (λ outbox. outbox ≡ []) }
    {
        let first = Vec::with_capacity(alloc, MAX_FRAME)?;
        let second = Vec::with_capacity(alloc, MAX_FRAME)?;
        Ok(Outbox {
            first,
            second,
            begun: 0,
        })
    }

    /// Removes all frames.
    pub fn clear(&mut self)
        ensures { self.new ≡ [] }
    {
        self.begun = 0;
    }

    /// Appends an empty frame.
    pub fn begin(&mut self)
        requires { length self.old < 2 }
        ensures { self.new ≡ self.old ++ [] ∷ [] }
    {
        if self.begun == 0 {
            self.first.clear();
        } else {
            self.second.clear();
        }
        self.begun += 1;
    }

    /// Appends octets to the last frame.
    pub fn append(&mut self, bytes: &[u8])
        requires begun { 0 < length self.old }
        requires room { length (last_frame self.old) + length bytes.now ≤ MAX_FRAME }
        ensures { self.new ≡ extended self.old bytes.now }
    {
        if self.begun == 1 {
            extend_within(&mut self.first, bytes);
        } else {
            extend_within(&mut self.second, bytes);
        }
    }

    /// Returns the number of frames.
    pub fn frames(&self) -> usize
        ensures count { result ≡ length self.now }
        ensures few { result ≤ 2 }
    {
        self.begun
    }

    /// Returns the octets of the frame at this index, counted from 0.
    pub fn frame(&self, index: usize) -> &[u8]
        requires { index < length self.now }
        ensures octets { slice_get self.now index ≡ Some result.now }
        ensures short { length result.now ≤ MAX_FRAME }
    {
        if index == 0 {
            &self.first
        } else {
            &self.second
        }
    }
}

ghost use Rattle.std.specs.Prelude.{◌≡◌, ◌+◌, ◌≤◌, ◌++◌, length, vec_len, vec_capacity};

// Appends octets to a frame that has the capacity for them.
fn extend_within(frame: &mut Vec<u8>, bytes: &[u8])
    requires { vec_len frame.old + length bytes.now ≤ vec_capacity frame.old }
    ensures octets { frame.new.items ≡ frame.old.items ++ bytes.now }
    ensures room { vec_capacity frame.old ≤ vec_capacity frame.new }
{
    if frame.extend_from_slice(bytes).is_err() {
        unreachable!()
    }
}
