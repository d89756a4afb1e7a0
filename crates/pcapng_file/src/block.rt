//! Parsing of one block.
ghost use Rattle.std.specs.Prelude.{◌≡◌, ◌++◌, ◌≤◌, ◌<◌, length, true, false, option_map, IfSome};
ghost use Rattle.std.specs.Io.KnownBytes.{prepend_known};
ghost use Rattle.edge_io.specs.FaultCounts.{Rose};
ghost use Rattle.pcapng_file.specs.SectionState.{known};
ghost use Rattle.pcapng_file.specs.ReadFaults.{is_read_fault};
ghost use Rattle.pcapng_file.specs.working.BlockFronts.{bare, IsFront};
ghost use Rattle.pcapng_file.specs.working.BlockReading.{HasRoom, ReadsBody, ReadsRest, ReadsBlock};
ghost use Rattle.wire_base.specs.declared.limits.TheConstants.{MAX_CAPTURED};

use crate::NgFault;
use crate::ahead::read_behind;
use crate::content::{
    Content, ENHANCED, Found, INTERFACE, OLD_PACKET, SECTION, SIMPLE, content_of, more_of,
};
use crate::front::{Front, front_of};
use crate::interface::read_options;
use crate::numbers::u32_at;
use crate::standing::Standing;
use crate::take::{closes, pass, read_exact};
use edge_io::Source;
use pcap_file::Order;

/// A block that was read: its byte order, its size in octets and its content.
#[derive(Clone, Copy, Debug, PartialEq, Eq)]
pub struct Block {
    pub order: Order,
    pub size: u32,
    pub found: Found,
}

// Reads the octets between the fixed fields of a block and its last four octets, the captured
// octets of a packet block into the buffer.
fn read_body<S: Source>(
    source: &mut S,
    buf: &mut [u8],
    inside: Option<&[u8]>,
    order: Order,
    content: Content,
    room: u32,
) -> Result<Found, NgFault>
    requires room { HasRoom content room (length buf.old) }
    requires small { IfSome inside (λ name. length name.now ≤ 64) }
    ensures octets { ReadsBody (option_map (λ name. name.now) inside.entry) (S.left source.old) (S.left source.new) order content room buf.new result }
    ensures later { S.fault_count source.old ≤ S.fault_count source.new }
    ensures kept { is_read_fault result ≡ false → S.fault_count source.new ≡ S.fault_count source.old }
    ensures cause { is_read_fault result ≡ true → Rose (S.fault_count source.old) (S.fault_count source.new) }
{
    match content {
        Content::Fails(fault) => {
            pass(source, room)?;
            Ok(Found::Fails(fault))
        }
        Content::Passed => {
            pass(source, room)?;
            Ok(Found::Passed)
        }
        Content::Section => {
            pass(source, room)?;
            Ok(Found::Section)
        }
        Content::Interface(link, snap) => {
            match read_options(source, order, inside, snap, room)? {
                Some(interface) => Ok(Found::Interface(link, interface)),
                None => Ok(Found::Fails(NgFault::Block)),
            }
        }
        Content::Packet(stamp) => {
            read_exact(source, &mut buf[..stamp.size as usize])?;
            pass(source, room - stamp.size)?;
            Ok(Found::Packet(stamp))
        }
    }
}

// Returns the content of a block of twelve octets, which has no fixed field but its type.
fn bare(kind: u32) -> Found
    ensures { result ≡ bare kind }
{
    match kind {
        SECTION | INTERFACE | ENHANCED | SIMPLE | OLD_PACKET => Found::Fails(NgFault::Block),
        _ => Found::Passed,
    }
}

// Returns the first twelve octets of a block and the sixteen after them in one array.
fn joined(head: &[u8; 12], behind: &[u8; 16]) -> [u8; 28]
    ensures { result ≡ head.now ++ behind.now }
{
    let mut fixed = [0u8; 28];
    fixed[..12].copy_from_slice(head);
    fixed[12..].copy_from_slice(behind);
    fixed
}

// Reads the rest of a block after its first twelve octets.
fn read_rest<S: Source>(
    source: &mut S,
    buf: &mut [u8],
    standing: &Standing,
    inside: Option<&[u8]>,
    front: Front,
    head: [u8; 12],
) -> Result<Found, NgFault>
    requires begins { IsFront head front }
    requires room { 0 < length standing.now.interfaces.items → MAX_CAPTURED ≤ length buf.old }
    requires small { IfSome inside (λ name. length name.now ≤ 64) }
    ensures octets { ReadsRest (option_map (λ name. name.now) inside.entry) (known standing.now) (S.left source.old) (S.left source.new) front head buf.new result }
    ensures later { S.fault_count source.old ≤ S.fault_count source.new }
    ensures kept { is_read_fault result ≡ false → S.fault_count source.new ≡ S.fault_count source.old }
    ensures cause { is_read_fault result ≡ true → Rose (S.fault_count source.old) (S.fault_count source.new) }
{
    if front.size == 12 {
        let last = u32_at(front.order, &head, 8);
        if last != 12 {
            return Ok(Found::Fails(NgFault::Block));
        }
        return Ok(bare(front.kind));
    }
    let more = more_of(front.kind, front.size);
    let mut behind = [0u8; 16];
    read_exact(source, &mut behind[..more])?;
    let fixed = joined(&head, &behind);
    let fields = &fixed[..12 + more];
    let content = content_of(
        standing,
        inside,
        front.order,
        front.kind,
        front.size,
        fields,
    );
    let found = read_body(
        source,
        buf,
        inside,
        front.order,
        content,
        front.size - 16 - more as u32,
    )?;
    let closed = closes(source, front.order, front.size)?;
    if !closed {
        return Ok(Found::Fails(NgFault::Block));
    }
    Ok(found)
}

/// Reads the next block, or returns None at the end of the file. The octets `first` of the block
/// were read before. The captured octets of a packet block are read into the buffer.
pub(crate) fn read_block<S: Source>(
    first: &[u8],
    source: &mut S,
    buf: &mut [u8],
    standing: &Standing,
    inside: Option<&[u8]>,
) -> Result<Option<Block>, NgFault>
    requires few { length first.now ≤ 12 }
    requires room { 0 < length standing.now.interfaces.items → MAX_CAPTURED ≤ length buf.old }
    requires small { IfSome inside (λ name. length name.now ≤ 64) }
    ensures octets { ReadsBlock (option_map (λ name. name.now) inside.entry) (known standing.now) (prepend_known first.now (S.left source.old)) (S.left source.new) buf.new result }
    ensures later { S.fault_count source.old ≤ S.fault_count source.new }
    ensures kept { is_read_fault result ≡ false → S.fault_count source.new ≡ S.fault_count source.old }
    ensures cause { is_read_fault result ≡ true → Rose (S.fault_count source.old) (S.fault_count source.new) }
{
    let mut head = [0u8; 12];
    let count = read_behind(first, source, &mut head)?;
    if count == 0 {
        return match standing.link {
            Some(_) => Ok(None),
            None => Err(NgFault::Cut),
        };
    }
    if count < 12 {
        return Err(NgFault::Cut);
    }
    if standing.blocks == u32::MAX {
        return Err(NgFault::Many);
    }
    let front = front_of(standing.order, &head)?;
    let found = read_rest(source, buf, standing, inside, front, head)?;
    Ok(Some(Block {
        order: front.order,
        size: front.size,
        found,
    }))
}
