//! One receiver of the family, with one of the four policies.
ghost use Rattle.std.specs.Prelude.{◌≡◌, ℕ, List, ◌∷◌, ◌++◌, [], ◌+◌, ◌<◌, ◌^◌, pos, None, length, IfOk, OnOk, OnErr};
ghost use Rattle.wire_base.specs.Ipv4 as ip;
ghost use Rattle.wire_base.specs.Plain.{Plain};
ghost use Rattle.wire_base.specs.Segments.{segment_of, fields_of};
ghost use Rattle.receiver_model.specs.Delivery.{Extends};
ghost use Rattle.receiver_model.specs.working.StreamMarks.{gone_back, mark_of};
ghost use Rattle.receiver_model.specs.Policies.{Taken, octet_after, waiting_after};
ghost use Rattle.receiver_model.specs.Streams.{fresh, next_of, taken_of, AddsFrame, Chooses, IsSameStream, StandsFor, StepsWith};
ghost use Rattle.receiver_model.specs.working.StreamSteps.{Takes};

use crate::mark::Mark;
use crate::piece::{HALF, Piece, raised_offset};
use crate::policy::{Policy, Waiting};
use crate::segment::read_plain;
use edge_io::NoMemory;
use std::alloc::Global;
use std::marker::Model;
use wire_base::sequence_plus;

/// Receiver of one connection's octets. `base` is the sequence number of the octet at offset 0, and
/// the stream begins at the offset `start`. Waiting octets are never removed, so each look-up reads
/// all segments that were taken.
#[derive(Drop)]
pub struct Stream {
    alloc: Global,
    policy: Policy,
    base: u32,
    start: u32,
    pieces: Vec<Piece>,
    octets: Vec<u8>,
    fin: Option<u64>,
    ended: bool,
}

impl Model for Stream {
    ghost use Rattle.receiver_model.specs.Streams.{StreamState};

    ghost Value = { StreamState };

    ghost view = { λ s.
        record {
          policy = s.policy;
          base = s.base;
          start = s.start;
          taken = s.pieces.items;
          octets = s.octets.items;
          fin = s.fin;
          ended = s.ended;
        } };
}

// Returns the waiting octet at an offset after these segments.
fn waiting_in(policy: Policy, base: u32, pieces: &[Piece], offset: u64) -> Option<Waiting>
    ensures { result ≡ waiting_after policy base pieces.now (pos offset) }
{
    pieces.iter().fold(None, |waiting, piece| {
        policy.choose(waiting, piece.waiting_at(base, offset))
    })
}

// Returns the same after one more segment.
fn waiting_with(
    policy: Policy,
    base: u32,
    pieces: &[Piece],
    new: &Piece,
    offset: u64,
) -> Option<Waiting>
    ensures { result ≡ waiting_after policy base (pieces.now ++ new.now ∷ []) (pos offset) }
{
    policy.choose(
        waiting_in(policy, base, pieces, offset),
        new.waiting_at(base, offset),
    )
}

// Appends the octets that wait next, as far as they do.
fn extend(
    octets: &mut Vec<u8>,
    start: u32,
    policy: Policy,
    base: u32,
    pieces: &[Piece],
    new: &Piece,
) -> Result<(), NoMemory>
    ensures extended { OnOk result (Extends (octet_after policy base (pieces.now ++ new.now ∷ [])) start octets.old.items octets.new.items) }
    ensures far { let next = pos (start + length octets.new.items) in
        OnOk result (waiting_after policy base (pieces.now ++ new.now ∷ []) next ≡ None) }
    ensures err { OnErr result (octets.new.items ≡ octets.old.items) }
{
    let before = octets.len();
    let mut next = u64::from(start) + before as u64;
    while let Some(waiting) = waiting_with(policy, base, pieces, new, next) {
        if octets.push(waiting.octet).is_err() {
            octets.truncate(before);
            return Err(NoMemory);
        }
        next += 1;
    }
    Ok(())
}

impl Stream {
    /// Creates a receiver without segments. Its first octet has the offset `start`; `base` is the
    /// sequence number of offset 0.
    pub fn open(alloc: Global, policy: Policy, base: u32, start: u32) -> Result<Stream, NoMemory>
        ensures fresh { IfOk result (λ s. s ≡ fresh policy base start) }
        ensures stands { IfOk result (λ s. (distance : ℕ) → StandsFor distance s []) }
    {
        Ok(Stream {
            alloc,
            policy,
            base,
            start,
            pieces: Vec::new(alloc),
            octets: Vec::new(alloc),
            fin: None,
            ended: false,
        })
    }

    /// Takes a packet: its octets are set if none waits or the policy replaces the waiting one, the
    /// offset of the first FIN is kept, and the stream is extended as far as octets wait. It may
    /// continue past its end, if octets wait there. A sequence number is read as an offset from
    /// 2^31 before the next one to below 2^31 past it. If memory cannot be allocated, the stream is
    /// unchanged.
    pub fn take(&mut self, bytes: &[u8]) -> Result<(), NoMemory>
        requires plain { Plain 0 bytes.now }
        requires tcp { ip.protocol bytes.now ≡ 6 }
        ensures same { OnOk result (IsSameStream self.old self.new) }
        ensures step { OnOk result (StepsWith (segment_of bytes.now) self.old self.new) }
        ensures choice { OnOk result (Chooses (fields_of bytes.now) self.old self.new) }
        ensures taken { OnOk result (self.new.taken ≡ self.old.taken ++ taken_of (next_of self.old) (fields_of bytes.now) ∷ []) }
        ensures stands { OnOk result (AddsFrame bytes.now self.old self.new) }
        ensures err { OnErr result (self.new ≡ self.old) }
    {
        let segment = read_plain(bytes);
        self.put(segment.seq, segment.flags.fin(), &bytes[segment.start..])
    }

    fn put(&mut self, sequence: u32, has_fin: bool, payload: &[u8]) -> Result<(), NoMemory>
        requires { length payload.now < 2 ^ 32 }
        ensures taken { let taken : Taken = record { next = next_of self.old; sequence = sequence; octets = payload.now } in
            OnOk result (Takes taken has_fin self.old self.new) }
        ensures err { OnErr result (self.new ≡ self.old) }
    {
        let octets = Vec::from_slice(self.alloc, payload)?;
        let next = u64::from(self.start) + self.octets.len() as u64;
        let piece = Piece {
            next,
            sequence,
            octets,
        };
        self.pieces.reserve(1)?;
        extend(
            &mut self.octets,
            self.start,
            self.policy,
            self.base,
            self.pieces.as_slice(),
            &piece,
        )?;
        self.pieces.push_reserved(piece);
        let end = sequence_plus(sequence, payload.len() as u64);
        let place = raised_offset(self.base, next, end);
        self.fin = self.fin.or(has_fin.then_some(place));
        let behind = u64::from(self.start) + self.octets.len() as u64;
        self.ended = self.ended || self.fin == Some(behind + HALF);
        Ok(())
    }

    /// Returns the octets given to the reader, from the offset `start` on.
    pub fn octets(&self) -> &[u8]
        ensures { result.now ≡ self.now.octets }
    {
        self.octets.as_slice()
    }

    /// Returns whether the stream has reached the offset of its FIN.
    pub fn ended(&self) -> bool
        ensures { result ≡ self.now.ended }
    {
        self.ended
    }

    /// Returns the mark of the present state.
    pub(crate) fn mark(&self) -> Mark
        ensures { result ≡ mark_of self.now }
    {
        Mark {
            taken: self.pieces.len(),
            octets: self.octets.len(),
            fin: self.fin,
            ended: self.ended,
        }
    }

    /// Removes what was taken after a mark.
    pub(crate) fn go_back(&mut self, mark: &Mark)
        ensures { self.new ≡ gone_back self.old mark.now }
    {
        self.pieces.truncate(mark.taken);
        self.octets.truncate(mark.octets);
        self.fin = mark.fin;
        self.ended = mark.ended;
    }
}
