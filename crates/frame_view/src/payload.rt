//! What differs between two payloads.
ghost use Rattle.std.specs.Prelude.{◌≡◌, ◌+◌, ◌^◌, ◌<◌, ◌≤◌, min, false, [], ◌∷◌, ◌++◌, length, drop, map, option_to_list, IfOk, OnOk};
ghost use Rattle.frame_view.specs.Changes.{cut_at_front, plain_payload, plain_replaced};
ghost use Rattle.frame_view.specs.Changes as spec;
ghost use Rattle.frame_view.specs.FrameParts as parts;
ghost use Rattle.frame_view.specs.Readings.{reading};
ghost use Rattle.frame_view.specs.declared.field.Field.{Field};

use crate::change::{PayloadChange, Replaced};
use crate::parts::{packet_of, payload_of, segment_in};
use edge_io::NoMemory;
use std::alloc::Global;
use wire_base::{Link, sequence_distance, u32_at};

// Returns the end of the octets that differ from an offset on.
fn end_of_run(from: &[u8], to: &[u8], at: usize) -> usize
    requires { at ≤ min (length from.now) (length to.now) }
    ensures count { result ≡ at + spec.differing (drop at from.now) (drop at to.now) }
    ensures inside { result ≤ min (length from.now) (length to.now) }
{
    let end = from.len().min(to.len());
    let mut past = at;
    'octets: while past < end && from[past] != to[past] {
        past += 1;
    }
    past
}

// Returns how many octets differ from an offset on.
fn differing(from: &[u8], to: &[u8], at: usize) -> usize
    requires { at ≤ min (length from.now) (length to.now) }
    ensures count { result ≡ spec.differing (drop at from.now) (drop at to.now) }
    ensures inside { at + result ≤ min (length from.now) (length to.now) }
{
    end_of_run(from, to, at) - at
}

// Adds a run of octets that were replaced.
fn add_run(
    alloc: Global,
    at: usize,
    from: &[u8],
    to: &[u8],
    runs: &mut Vec<Replaced>,
) -> Result<(), NoMemory>
    ensures { OnOk result (map plain_replaced runs.new.items ≡ map plain_replaced runs.old.items
        ++ record { at = at; from = from.now; to = to.now } ∷ []) }
{
    let from = Vec::from_slice(alloc, from)?;
    let to = Vec::from_slice(alloc, to)?;
    runs.push(Replaced { at, from, to })?;
    Ok(())
}

// Returns the runs of octets that differ; `at` is the offset of both fronts.
fn runs(alloc: Global, at: usize, from: &[u8], to: &[u8]) -> Result<Vec<Replaced>, NoMemory>
    requires { at + length from.now < 2 ^ 64 }
    ensures { IfOk result (λ runs. map plain_replaced runs.items ≡ spec.runs false at from.now to.now) }
{
    let mut runs = Vec::new(alloc);
    let end = from.len().min(to.len());
    let mut next = 0;
    'octets: while next < end {
        let count = differing(from, to, next);
        if count == 0 {
            next += 1;
            continue;
        }
        let past = next + count;
        add_run(
            alloc,
            at + next,
            &from[next..past],
            &to[next..past],
            &mut runs,
        )?;
        next = past;
    }
    Ok(runs)
}

// Returns the sequence number of a frame, where it has one.
fn sequence_of(link: Link, frame: &[u8]) -> Option<u32>
    ensures { option_to_list result ≡ reading link Field.Sequence frame.now }
{
    let packet = packet_of(link, frame)?;
    let segment = segment_in(packet)?;
    Some(u32_at(segment, 4))
}

// Returns how many octets are cut off at the front of a record's payload.
fn cut_at_front(link: Link, octets: &[u8], frame: &[u8]) -> usize
    ensures cut { result ≡ cut_at_front link octets.now frame.now }
    ensures inside { result ≤ length (parts.payload_of link octets.now) }
{
    let (Some(first), Some(second)) = (sequence_of(link, octets), sequence_of(link, frame)) else {
        return 0;
    };
    let ahead = sequence_distance(first, second) as usize;
    if ahead <= payload_of(link, octets).len() {
        ahead
    } else {
        0
    }
}

/// Returns what differs between the payloads of a record and a frame.
pub(crate) fn payload_change(
    alloc: Global,
    link: Link,
    octets: &[u8],
    frame: &[u8],
) -> Result<PayloadChange, NoMemory>
    ensures { IfOk result (λ change. plain_payload change ≡ spec.payload_change (cut_at_front link octets.now frame.now) (parts.payload_of link octets.now) (parts.payload_of link frame.now)) }
{
    let front = cut_at_front(link, octets, frame);
    let (cut, from) = payload_of(link, octets).split_at(front);
    let to = payload_of(link, frame);
    let same = from.len().min(to.len());
    Ok(PayloadChange {
        front: Vec::from_slice(alloc, cut)?,
        end: Vec::from_slice(alloc, &from[same..])?,
        longer: Vec::from_slice(alloc, &to[same..])?,
        replaced: runs(alloc, front, from, to)?,
    })
}
