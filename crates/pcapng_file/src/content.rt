//! The content of a block, by its fixed fields.
ghost use Rattle.std.specs.Prelude.{◌≡◌, ◌+◌, ◌*◌, ◌≤◌, ◌^◌, length, slice_get, option_map};
ghost use Rattle.pcapng_file.specs.BlockContents as contents;
ghost use Rattle.pcapng_file.specs.working.ContentFaults as contents_working;
ghost use Rattle.pcapng_file.specs.InterfaceOptions.{padded};
ghost use Rattle.pcapng_file.specs.SectionState.{known};
ghost use Rattle.pcap_file.specs.FileHead as heads;
ghost use Rattle.pcap_file.specs.FileNumbers.{u32_at};

use crate::NgFault;
use crate::interface::Interface;
use crate::numbers::{u16_at, u32_at};
use crate::standing::Standing;
use pcap_file::Order;
use wire_base::{Link, MAX_CAPTURED, Side};

/// The fields of a packet block.
#[derive(Clone, Copy, Debug, PartialEq, Eq)]
pub struct Stamp {
    /// Seconds since 1970, and nanoseconds.
    pub seconds: u32,
    pub fraction: u32,
    /// The length of the frame on the link, in octets.
    pub original: u32,
    /// The number of captured octets, and their offset in the block.
    pub size: u32,
    pub place: u32,
    pub side: Option<Side>,
}

/// The content of a block by its fixed fields.
#[derive(Clone, Copy, Debug, PartialEq, Eq)]
pub enum Content {
    Fails(NgFault),
    Passed,
    Section,
    /// An interface of this link and snap length; its options are not yet read.
    Interface(Link, u32),
    Packet(Stamp),
}

/// The content of a block.
#[derive(Clone, Copy, Debug, PartialEq, Eq)]
pub enum Found {
    Fails(NgFault),
    Passed,
    Section,
    Interface(Link, Interface),
    Packet(Stamp),
}

pub(crate) const SECTION: u32 = 0x0a0d_0d0a;

pub(crate) const INTERFACE: u32 = 1;

pub(crate) const OLD_PACKET: u32 = 2;

pub(crate) const SIMPLE: u32 = 3;

pub(crate) const ENHANCED: u32 = 6;

const MAX_INTERFACES: usize = 64;

// Returns the length with the padding to a multiple of four octets.
pub(crate) fn padded(size: u32) -> u64
    ensures { result ≡ padded size }
{
    (u64::from(size) + 3) / 4 * 4
}

/// Returns the number of octets of fixed fields after the first twelve octets of a block.
pub(crate) fn more_of(kind: u32, size: u32) -> usize
    ensures value { result ≡ contents_working.more_of kind size }
    ensures within { result ≤ 16 }
{
    match kind {
        SECTION if size >= 28 => 4,
        INTERFACE if size >= 20 => 4,
        ENHANCED if size >= 32 => 16,
        _ => 0,
    }
}

// Returns the content of a section block.
fn section_says(order: Order, size: u32, fixed: &[u8]) -> Content
    requires { 28 ≤ size → 16 ≤ length fixed.now }
    ensures { result ≡ contents.section_says order size fixed.now }
{
    if size < 28 {
        return Content::Fails(NgFault::Block);
    }
    if u16_at(order, fixed, 12) != 1 {
        return Content::Fails(NgFault::Version);
    }
    Content::Section
}

// Returns the link of a network number.
fn link_of(network: u16) -> Option<Link>
    ensures { result ≡ heads.link_of network }
{
    match network {
        1 => Some(Link::Ethernet),
        101 => Some(Link::Raw),
        _ => None,
    }
}

// Returns whether an interface may have this link: that of the file's first interface, if there was
// one.
fn is_link(first: Option<Link>, link: Link) -> bool
    ensures { result ≡ contents.is_link first link }
{
    match (first, link) {
        (None, _) => true,
        (Some(Link::Ethernet), Link::Ethernet) | (Some(Link::Raw), Link::Raw) => true,
        _ => false,
    }
}

// Returns the content of an interface block.
fn interface_says(standing: &Standing, order: Order, size: u32, fixed: &[u8]) -> Content
    requires { 20 ≤ size → 16 ≤ length fixed.now }
    ensures { result ≡ contents.interface_says (known standing.now) order size fixed.now }
{
    if size < 20 {
        return Content::Fails(NgFault::Block);
    }
    let Some(link) = link_of(u16_at(order, fixed, 8)) else {
        return Content::Fails(NgFault::Link);
    };
    let snap = u32_at(order, fixed, 12);
    if !is_link(standing.link, link) {
        return Content::Fails(NgFault::Link);
    }
    if standing.interfaces.len() >= MAX_INTERFACES {
        return Content::Fails(NgFault::Block);
    }
    Content::Interface(link, snap)
}

// Returns the side of a record: outward if its interface has the name `inside`, inward if not, None
// if no name is given.
fn side_by(inside: Option<&[u8]>, named: bool) -> Option<Side>
    ensures { result ≡ contents.side_by (option_map (λ name. name.now) inside.entry) named }
{
    match (inside, named) {
        (None, _) => None,
        (Some(_), true) => Some(Side::Outward),
        (Some(_), false) => Some(Side::Inward),
    }
}

// Returns the content of an enhanced packet block of this interface at `time`, in the interface's
// units.
fn timed_says(
    inside: Option<&[u8]>,
    interface: Interface,
    time: u64,
    original: u32,
    size: u32,
) -> Content
    ensures { result ≡ contents.timed_says (option_map (λ name. name.now) inside.entry) interface time original size }
{
    let side = side_by(inside, interface.named);
    let per_second = if interface.nano {
        1_000_000_000
    } else {
        1_000_000
    };
    let each = if interface.nano { 1 } else { 1_000 };
    let seconds = time / per_second;
    if seconds > u64::from(u32::MAX) {
        return Content::Fails(NgFault::Block);
    }
    Content::Packet(Stamp {
        seconds: seconds as u32,
        fraction: (time % per_second * each) as u32,
        original,
        size,
        place: 28,
        side,
    })
}

// Returns the time of an enhanced packet block, in the units of its interface.
fn time_at(order: Order, fixed: &[u8]) -> u64
    requires { 28 ≤ length fixed.now }
    ensures { result ≡ u32_at order fixed.now 12 * 2 ^ 32 + u32_at order fixed.now 16 }
{
    let high = u32_at(order, fixed, 12);
    let low = u32_at(order, fixed, 16);
    u64::from(high) * 4_294_967_296 + u64::from(low)
}

// Returns the content of an enhanced packet block of this interface.
fn enhanced_of(
    inside: Option<&[u8]>,
    interface: Interface,
    order: Order,
    size: u32,
    fixed: &[u8],
) -> Content
    requires { 28 ≤ length fixed.now }
    ensures { result ≡ contents.enhanced_of (option_map (λ name. name.now) inside.entry) (Some interface) order size fixed.now }
{
    let captured = u32_at(order, fixed, 20);
    if captured > MAX_CAPTURED {
        return Content::Fails(NgFault::Long);
    }
    if u64::from(size) < 32 + padded(captured) {
        return Content::Fails(NgFault::Block);
    }
    let time = time_at(order, fixed);
    let original = u32_at(order, fixed, 24);
    timed_says(inside, interface, time, original, captured)
}

// Returns the section's interface with this number, if it has one.
fn interface_at(standing: &Standing, number: u32) -> Option<Interface>
    ensures { result ≡ slice_get standing.now.interfaces.items number }
{
    standing.interfaces.get(number as usize).copied()
}

// Returns the content of an enhanced packet block.
fn enhanced_says(
    standing: &Standing,
    inside: Option<&[u8]>,
    order: Order,
    size: u32,
    fixed: &[u8],
) -> Content
    requires { 32 ≤ size → 28 ≤ length fixed.now }
    ensures { result ≡ contents.enhanced_says (option_map (λ name. name.now) inside.entry) (known standing.now) order size fixed.now }
{
    if size < 32 {
        return Content::Fails(NgFault::Block);
    }
    let Some(interface) = interface_at(standing, u32_at(order, fixed, 8)) else {
        return Content::Fails(NgFault::Block);
    };
    enhanced_of(inside, interface, order, size, fixed)
}

// Returns the content of a simple packet block.
fn simple_says(
    standing: &Standing,
    inside: Option<&[u8]>,
    order: Order,
    size: u32,
    fixed: &[u8],
) -> Content
    requires { 12 ≤ length fixed.now }
    ensures { result ≡ contents.simple_says (option_map (λ name. name.now) inside.entry) (known standing.now) order size fixed.now }
{
    if size < 16 {
        return Content::Fails(NgFault::Block);
    }
    let Some(interface) = interface_at(standing, 0) else {
        return Content::Fails(NgFault::Block);
    };
    let original = u32_at(order, fixed, 8);
    let captured = clipped(interface.snap, original);
    if captured > MAX_CAPTURED {
        return Content::Fails(NgFault::Long);
    }
    if u64::from(size) < 16 + padded(captured) {
        return Content::Fails(NgFault::Block);
    }
    let side = side_by(inside, interface.named);
    Content::Packet(Stamp {
        seconds: standing.seconds,
        fraction: standing.fraction,
        original,
        size: captured,
        place: 12,
        side,
    })
}

// Returns the captured length of a simple packet block.
fn clipped(snap: u32, original: u32) -> u32
    ensures { result ≡ contents.clipped snap original }
{
    if snap == 0 {
        original
    } else {
        original.min(snap)
    }
}

/// Returns the content of a block of this type and size by its fixed fields.
#[tactic(auto, unfolding(crate::specs::BlockContents::content_of))]
pub(crate) fn content_of(
    standing: &Standing,
    inside: Option<&[u8]>,
    order: Order,
    kind: u32,
    size: u32,
    fixed: &[u8],
) -> Content
    requires { length fixed.now ≡ 12 + contents_working.more_of kind size }
    ensures { result ≡ contents.content_of (option_map (λ name. name.now) inside.entry) (known standing.now) order kind size fixed.now }
{
    match kind {
        SECTION => section_says(order, size, fixed),
        INTERFACE => interface_says(standing, order, size, fixed),
        ENHANCED => enhanced_says(standing, inside, order, size, fixed),
        SIMPLE => simple_says(standing, inside, order, size, fixed),
        OLD_PACKET => Content::Fails(NgFault::Block),
        _ => Content::Passed,
    }
}
