//! A reader of the records of a pcapng file, one by one.
ghost use Rattle.std.specs.Prelude.{◌≡◌, ◌≤◌, ◌<◌, length, true, false, option_map, IfOk, IfSome, Some, None, []};
ghost use Rattle.std.specs.Io.KnownBytes.{prepend_known};
ghost use Rattle.edge_io.specs.FaultCounts.{Rose};
ghost use Rattle.pcapng_file.specs.ReadFaults.{is_read_fault};
ghost use Rattle.pcapng_file.specs.working.BlockReading.{Looks, LooksAhead, Finds, IsSmall};
ghost use Rattle.pcapng_file.specs.RecordReading.{Reads, Opens, OpensBehind, only_fault, IfPacket};
ghost use Rattle.pcapng_file.specs.ReaderState.{written_head};
ghost use Rattle.wire_base.specs.declared.limits.TheConstants.{MAX_CAPTURED};

use crate::block::read_block;
use crate::content::{Found, Stamp};
use crate::standing::Standing;
use crate::{NgFault, OpenFault};
use arrayvec::ArrayVec;
use edge_io::Source;
use pcap_file::{Head, Order, Record};
use std::marker::Model;
use wire_base::Link;

/// A reader of a pcapng file: its state after the blocks read so far.
#[derive(Debug, Drop)]
pub struct NgReader {
    inside: Option<ArrayVec<u8, 64>>,
    standing: Standing,
    place: u64,
    asked: u64,
    going: bool,
}

impl Model for NgReader {
    ghost use Rattle.std.specs.Prelude.{◌≤◌, ◌*◌, option_map};
    ghost use Rattle.pcapng_file.specs.SectionState.{known};
    ghost use Rattle.pcapng_file.specs.ReaderState.{NgReading};
    ghost use Rattle.pcapng_file.specs.working.SectionLinks.{IsUnlinked};

    ghost Value = { NgReading };

    ghost view = { λ r. record {
      inside = option_map (λ name. name.items) r.inside;
      sections = known r.standing;
      place = r.place;
      asked = r.asked;
      is_open = r.going;
    } };

    ghost invariant = { λ r. (r.place ≤ 4294967295 * r.standing.blocks) × IsUnlinked r.standing.link r.standing.interfaces.items };
}

impl NgReader {
    /// Reads to the end of the first interface block. `inside` is the name of the interface whose
    /// packets are outbound; offsets count from the first octet left in the source.
    pub fn open<S: Source>(inside: Option<&[u8]>, source: &mut S) -> Result<NgReader, NgFault>
        requires { IfSome inside (λ name. length name.now ≤ 64) }
        ensures octets { Opens (option_map (λ name. name.now) inside.entry) (S.left source.old) (S.left source.new) result }
        ensures later { S.fault_count source.old ≤ S.fault_count source.new }
        ensures kept { is_read_fault result ≡ false → S.fault_count source.new ≡ S.fault_count source.old }
        ensures cause { is_read_fault result ≡ true → Rose (S.fault_count source.old) (S.fault_count source.new) }
    {
        match NgReader::open_behind(inside, &[], source) {
            Ok(reader) => Ok(reader),
            Err(stop) => Err(stop.fault),
        }
    }

    /// Does the same for a file whose first octets, at most 12, were read before; a fault is
    /// returned with the offset of its block.
    pub fn open_behind<S: Source>(
        inside: Option<&[u8]>,
        first: &[u8],
        source: &mut S,
    ) -> Result<NgReader, OpenFault>
        requires small { IfSome inside (λ name. length name.now ≤ 64) }
        requires few { length first.now ≤ 12 }
        ensures octets { OpensBehind (option_map (λ name. name.now) inside.entry) (prepend_known first.now (S.left source.old)) (S.left source.new) result }
        ensures later { S.fault_count source.old ≤ S.fault_count source.new }
        ensures kept { is_read_fault (only_fault result) ≡ false → S.fault_count source.new ≡ S.fault_count source.old }
        ensures cause { is_read_fault (only_fault result) ≡ true → Rose (S.fault_count source.old) (S.fault_count source.new) }
    {
        let mut reader = NgReader {
            inside: copied_name(inside),
            standing: Standing::new(),
            place: 0,
            asked: 0,
            going: true,
        };
        reader.look_ahead(first, source)?;
        while reader.standing.link.is_none() {
            reader.look_ahead(&[], source)?;
        }
        Ok(reader)
    }

    /// Returns the head of a classic file for these records: least significant octet first,
    /// nanoseconds, the link of the first interface.
    pub fn head(&self) -> Head
        ensures { result ≡ written_head self.now.sections.link }
    {
        Head {
            order: Order::Little,
            nano: true,
            link: self.standing.link.unwrap_or(Link::Raw),
        }
    }

    /// Returns whether `next` may be called.
    pub fn is_open(&self) -> bool
        ensures { result ≡ self.now.is_open }
    {
        self.going
    }

    /// Returns the offset of the block read last, in octets from the start of the file.
    pub fn offset(&self) -> u64
        ensures { result ≡ self.now.asked }
    {
        self.asked
    }

    /// Returns the offset of the next block, in octets from the start of the file.
    pub fn place(&self) -> u64
        ensures { result ≡ self.now.place }
    {
        self.place
    }

    // Reads the next block before the first interface; its octets `first` were read before.
    fn look_ahead<S: Source>(&mut self, first: &[u8], source: &mut S) -> Result<(), OpenFault>
        requires few { length first.now ≤ 12 }
        requires unlinked { self.old.sections.link ≡ None }
        ensures octets { LooksAhead self.old self.new (prepend_known first.now (S.left source.old)) (S.left source.new) result }
        ensures later { S.fault_count source.old ≤ S.fault_count source.new }
        ensures kept { is_read_fault (only_fault result) ≡ false → S.fault_count source.new ≡ S.fault_count source.old }
        ensures cause { is_read_fault (only_fault result) ≡ true → Rose (S.fault_count source.old) (S.fault_count source.new) }
    {
        let offset = self.place;
        match self.look(first, source, &mut []) {
            Ok(_) => Ok(()),
            Err(fault) => Err(OpenFault { fault, offset }),
        }
    }

    // Reads the next block, or returns None at the end of the file; the octets `first` of the block
    // were read before.
    fn look<S: Source>(
        &mut self,
        first: &[u8],
        source: &mut S,
        buf: &mut [u8],
    ) -> Result<Option<Found>, NgFault>
        requires few { length first.now ≤ 12 }
        requires room { 0 < length self.old.sections.interfaces → MAX_CAPTURED ≤ length buf.old }
        ensures octets { Looks self.old self.new (prepend_known first.now (S.left source.old)) (S.left source.new) buf.new result }
        ensures later { S.fault_count source.old ≤ S.fault_count source.new }
        ensures kept { is_read_fault result ≡ false → S.fault_count source.new ≡ S.fault_count source.old }
        ensures cause { is_read_fault result ≡ true → Rose (S.fault_count source.old) (S.fault_count source.new) }
    {
        self.going = false;
        self.asked = self.place;
        let inside = octets_of(&self.inside);
        let Some(block) = read_block(first, source, buf, &self.standing, inside)? else {
            return Ok(None);
        };
        if let Found::Fails(fault) = block.found {
            return Err(fault);
        }
        self.standing.settle(block.order, block.found);
        self.place += u64::from(block.size);
        self.going = true;
        Ok(Some(block.found))
    }

    // Skips blocks up to the next packet block, and reads it.
    fn next_stamp<S: Source>(
        &mut self,
        source: &mut S,
        buf: &mut [u8],
    ) -> Result<Option<Stamp>, NgFault>
        requires { MAX_CAPTURED ≤ length buf.old }
        ensures small { IsSmall result }
        ensures octets { Finds self.old self.new (S.left source.old) (S.left source.new) buf.new result }
        ensures later { S.fault_count source.old ≤ S.fault_count source.new }
        ensures kept { is_read_fault result ≡ false → S.fault_count source.new ≡ S.fault_count source.old }
        ensures cause { is_read_fault result ≡ true → Rose (S.fault_count source.old) (S.fault_count source.new) }
    {
        while let Some(found) = self.look(&[], source, buf)? {
            if let Found::Packet(stamp) = found {
                return Ok(Some(stamp));
            }
        }
        Ok(None)
    }

    /// Returns the next record, with its octets in the buffer. Its fraction counts nanoseconds, its
    /// offset is that of its block, and it has the side of its interface if the name of the inside
    /// interface is given. Returns None exactly if no octet is left after the blocks that are
    /// skipped. After None or an error the reader is closed.
    pub fn next<'a, S: Source>(
        &mut self,
        source: &mut S,
        buf: &'a mut [u8],
    ) -> Result<Option<Record<'a>>, NgFault>
        requires open { self.old.is_open ≡ true }
        requires room { MAX_CAPTURED ≤ length buf.old }
        ensures octets { Reads self.old self.new (S.left source.old) (S.left source.new) result }
        ensures later { S.fault_count source.old ≤ S.fault_count source.new }
        ensures kept { is_read_fault result ≡ false → S.fault_count source.new ≡ S.fault_count source.old }
        ensures cause { is_read_fault result ≡ true → Rose (S.fault_count source.old) (S.fault_count source.new) }
        ensures offset { IfPacket result (λ given. given.offset ≡ self.new.asked) }
    {
        let Some(stamp) = self.next_stamp(source, buf)? else {
            return Ok(None);
        };
        let bytes = &buf[..stamp.size as usize];
        Ok(Some(Record {
            seconds: stamp.seconds,
            fraction: stamp.fraction,
            original: stamp.original,
            offset: self.asked,
            side: stamp.side,
            bytes,
        }))
    }
}

// Returns the octets of a name.
fn octets_of(name: &Option<ArrayVec<u8, 64>>) -> Option<&[u8]>
    ensures value { option_map (λ octets. octets.now) result ≡ option_map (λ octets. octets.items) name.now }
    ensures small { IfSome result (λ octets. length octets.now ≤ 64) }
{
    match name {
        Some(octets) => Some(octets.as_slice()),
        None => None,
    }
}

// Returns a copy of a name.
fn copied_name(name: Option<&[u8]>) -> Option<ArrayVec<u8, 64>>
    requires { IfSome name (λ octets. length octets.now ≤ 64) }
    ensures { option_map (λ octets. octets.items) result ≡ option_map (λ octets. octets.now) name.entry }
{
    let Some(name) = name else {
        return None;
    };
    let mut copy = ArrayVec::new();
    copy.try_extend_from_slice(name).unwrap();
    Some(copy)
}
