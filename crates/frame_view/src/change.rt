//! What differs between a record and a frame that was written for it.
ghost use Rattle.std.specs.Prelude.{◌≡◌, ◌++◌, ◌∷◌, [], map, OnOk, IfOk};
ghost use Rattle.frame_view.specs.Changes.{changes_of, made_of, plain, plain_said};
ghost use Rattle.frame_view.specs.Changes as spec;
ghost use Rattle.frame_view.specs.Readings.{reading};
ghost use Rattle.frame_view.specs.working.ReadingShapes.{AreAlike, FitsField, plain_reading};
ghost use Rattle.std.specs.Str.{bytes_eq};

use crate::field::FIELDS;
use crate::payload::payload_change;
use crate::reading::{Reading, read_field};
use crate::{Field, Flow, flow_of, length_of};
use edge_io::NoMemory;
use std::alloc::Global;
use wire_base::Link;

/// What a frame says in a field.
#[derive(Debug, Drop)]
pub enum Said {
    /// The frame has no such field, or no octets in it.
    Nothing,
    Number(u32),
    Octets(Vec<u8>),
}

/// A run of octets that were replaced by as many others.
#[derive(Debug, Drop)]
pub struct Replaced {
    /// The offset of the first octet in the record's payload.
    pub at: usize,
    /// The octets of the record.
    pub from: Vec<u8>,
    /// The octets of the frame.
    pub to: Vec<u8>,
}

/// What differs in a payload.
#[derive(Debug, Drop)]
pub struct PayloadChange {
    /// The octets of the record that are cut off at the front.
    pub front: Vec<u8>,
    /// The octets of the record that are cut off at the end.
    pub end: Vec<u8>,
    /// The octets of the frame after the end of the record's payload.
    pub longer: Vec<u8>,
    pub replaced: Vec<Replaced>,
}

/// The kinds of frames that norm makes itself, which are not compared with a record.
#[derive(Clone, Copy, Debug, PartialEq, Eq)]
pub enum Made {
    /// A keep-alive, written instead of the record or after a RST.
    Probe,
    /// A datagram that fragments were reassembled into, or a part of it.
    Datagram,
}

/// What differs in one field, or what a frame is that norm made itself; `frame` is the number of
/// the frame, from 1.
#[derive(Debug, Drop)]
pub enum Change {
    /// What the record and the frame say in a field.
    InField {
        frame: u32,
        field: Field,
        from: Said,
        to: Said,
    },
    /// The payload differs.
    InPayload {
        frame: u32,
        payload: PayloadChange,
    },
    /// norm made the frame itself: what its headers say, None where no IPv4 header can be read, and
    /// the number of octets after the last header that can be read.
    Made {
        frame: u32,
        kind: Made,
        flow: Option<Flow>,
        length: u64,
    },
}

// Returns whether two readings are the same.
fn same(one: Reading<'_>, other: Reading<'_>) -> bool
    requires { AreAlike one other }
    ensures { result ≡ bytes_eq (plain_reading one.entry) (plain_reading other.entry) }
{
    match (one, other) {
        (Reading::Number(one), Reading::Number(other)) => one == other,
        (Reading::Octets(one), Reading::Octets(other)) => one == other,
        (Reading::Absent, Reading::Absent) => true,
        (Reading::Absent, Reading::Octets(octets)) | (Reading::Octets(octets), Reading::Absent) =>
            octets.is_empty(),
        _ => false,
    }
}

// Returns what a frame says in a field, in its own memory.
fn owned(alloc: Global, field: Field, reading: Reading<'_>) -> Result<Said, NoMemory>
    requires { FitsField field reading }
    ensures { IfOk result (λ said. plain_said said ≡ spec.said field (plain_reading reading.entry)) }
{
    let _field = field;
    match reading {
        Reading::Number(number) => Ok(Said::Number(number)),
        Reading::Octets(octets) if !octets.is_empty() => Ok(Said::Octets(Vec::from_slice(
            alloc, octets,
        )?)),
        _ => Ok(Said::Nothing),
    }
}

// A record and a frame with this number that was written for it.
#[derive(Clone, Copy)]
struct Pair<'a> {
    link: Link,
    octets: &'a [u8],
    frame: &'a [u8],
    number: u32,
}

// Returns what differs in a field.
fn change_in(alloc: Global, pair: &Pair<'_>, field: Field) -> Result<Change, NoMemory>
    ensures { IfOk result (λ change. plain change ≡ spec.change_in pair.now.link pair.now.number pair.now.octets.now pair.now.frame.now field) }
{
    let frame = pair.number;
    match field {
        Field::Payload => Ok(Change::InPayload {
            frame,
            payload: payload_change(alloc, pair.link, pair.octets, pair.frame)?,
        }),
        _ => Ok(Change::InField {
            frame,
            field,
            from: owned(alloc, field, read_field(pair.link, field, pair.octets))?,
            to: owned(alloc, field, read_field(pair.link, field, pair.frame))?,
        }),
    }
}

// Returns whether a record and a frame say the same in a field.
fn say_the_same(pair: &Pair<'_>, field: Field) -> bool
    ensures { result ≡ bytes_eq (reading pair.now.link field pair.now.octets.now) (reading pair.now.link field pair.now.frame.now) }
{
    let one = read_field(pair.link, field, pair.octets);
    let other = read_field(pair.link, field, pair.frame);
    same(one, other)
}

// Adds what differs in a field, where something does.
fn add_change(
    alloc: Global,
    pair: &Pair<'_>,
    field: Field,
    changes: &mut Vec<Change>,
) -> Result<(), NoMemory>
    ensures { OnOk result (map plain changes.new.items ≡ map plain changes.old.items
        ++ spec.changes_in pair.now.link pair.now.number pair.now.octets.now pair.now.frame.now field) }
{
    if say_the_same(pair, field) {
        return Ok(());
    }
    let change = change_in(alloc, pair, field)?;
    changes.push(change)?;
    Ok(())
}

/// Adds what differs between a record and the frame of this number, field by field.
pub fn add_changes(
    alloc: Global,
    link: Link,
    octets: &[u8],
    frame: &[u8],
    number: u32,
    changes: &mut Vec<Change>,
) -> Result<(), NoMemory>
    ensures { OnOk result (map plain changes.new.items ≡ map plain changes.old.items ++ changes_of link number octets.now frame.now) }
{
    let pair = Pair {
        link,
        octets,
        frame,
        number,
    };
    for field in FIELDS {
        add_change(alloc, &pair, field, changes)?;
    }
    Ok(())
}

/// Adds what the headers of a frame say that norm made itself, with its number and kind.
pub fn add_made(
    link: Link,
    frame: &[u8],
    number: u32,
    kind: Made,
    changes: &mut Vec<Change>,
) -> Result<(), NoMemory>
    ensures { OnOk result (map plain changes.new.items ≡ map plain changes.old.items ++ (made_of link number frame.now kind ∷ [])) }
{
    let made = Change::Made {
        frame: number,
        kind,
        flow: flow_of(link, frame),
        length: length_of(link, frame),
    };
    changes.push(made)?;
    Ok(())
}
