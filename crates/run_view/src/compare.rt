//! What the headers of records and frames say, and what differs between them.
ghost use Rattle.std.specs.Prelude.{◌≡◌, ◌++◌, true, map, OnOk};
ghost use Rattle.frame_view.specs.Changes.{changes_of, plain};
ghost use Rattle.run_view.specs.Items as spec;
ghost use Rattle.wire_base.specs.declared.address.Link.TheVariants.{Ethernet};

use crate::judged::{Kinds, made_at};
use edge_io::NoMemory;
use frame_view::laws::fields_determine_frames;
use frame_view::{Change, Flow, add_changes, add_made, flow_of, length_of};
use std::alloc::Global;
use wire_base::{Link, u16_at};

/// Returns what the headers of a record or frame say, where an IPv4 header can be read.
#[tactic(auto, unfolding(crate::specs::Items::flow_at))]
pub(crate) fn flow_at(link: Link, octets: &[u8]) -> Option<Flow>
    ensures { result ≡ spec.flow_at link octets.now }
{
    flow_of(link, octets)
}

/// Returns the type field of the link header where that is present and no IPv4 header can be read.
pub(crate) fn type_without(flow: Option<Flow>, link: Link, octets: &[u8]) -> Option<u16>
    ensures { result ≡ spec.type_without flow link octets.now }
{
    match (flow, link) {
        (None, Link::Ethernet) => type_in(octets),
        _ => None,
    }
}

// Returns the type field of an Ethernet header where that is present.
fn type_in(octets: &[u8]) -> Option<u16>
    ensures { result ≡ spec.type_in Ethernet octets.now }
{
    if octets.len() < 14 {
        return None;
    }
    Some(u16_at(octets, 12))
}

/// Returns how many octets its payload has.
#[tactic(auto, unfolding(crate::specs::Items::length_at))]
pub(crate) fn length_at(link: Link, octets: &[u8]) -> u64
    ensures { result ≡ spec.length_at link octets.now }
{
    length_of(link, octets)
}

/// A record as it is compared with the frames of a line.
#[derive(Clone, Copy)]
pub(crate) struct Original<'a> {
    pub(crate) link: Link,
    /// Which of the frames norm made itself.
    pub(crate) kinds: Kinds,
    /// The line says that its one frame is a copy of the record.
    pub(crate) passed: bool,
    /// The number of the record.
    pub(crate) number: u32,
    pub(crate) seconds: u32,
    pub(crate) fraction: u32,
    pub(crate) octets: &'a [u8],
}

/// Adds what differs between a record and the frame of this number; nothing if they are the same
/// octets. Of a frame that norm made itself it adds that.
#[tactic(auto, unfolding(crate::specs::Items::changes_at))]
pub(crate) fn add_changes_at(
    alloc: Global,
    original: Original<'_>,
    frame: &[u8],
    number: u32,
    same: bool,
    changes: &mut Vec<Change>,
) -> Result<(), NoMemory>
    requires same { same ≡ true → frame.now ≡ original.octets.now }
    ensures { OnOk result (map plain changes.new.items ≡ map plain changes.old.items
        ++ spec.changes_at original.entry.link original.entry.kinds number original.entry.octets.now frame.now) }
{
    match made_at(original.kinds, number) {
        Some(kind) => add_made(original.link, frame, number, kind, changes),
        None if same => {
            fields_determine_frames();
            Ok(())
        }
        None => add_changes(
            alloc,
            original.link,
            original.octets,
            frame,
            number,
            changes,
        ),
    }
}
