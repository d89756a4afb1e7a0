//! Reads the records of a capture file one by one.
ghost use Rattle.std.specs.Prelude.{◌≡◌, ◌≤◌, length, true, IsErrOf};
ghost use Rattle.edge_io.specs.FaultCounts.{Rose};
ghost use Rattle.pcap_file.specs.RecordReading.{Reads, KeepsCount, is_record, IfRecord, IfNoRecord, Advances, Stays};
ghost use Rattle.wire_base.specs.declared.limits.TheConstants.{MAX_CAPTURED};

use crate::{Head, Record};
use edge_io::{Failed, Source, read_full};
use std::marker::Model;
use thiserror::Error;
use wire_base::MAX_CAPTURED;

/// The reason why no record was read. The head of the record is tested first. `Cut`: from 1 to 15
/// octets are left, or fewer than the captured length after the record's head. `Long`: the captured
/// length is above 262,144 octets. `TooMany`: 2^32 - 1 records were returned before. `ReadFault`:
/// the source failed.
#[derive(Clone, Copy, Debug, PartialEq, Eq, Error)]
pub enum RecordFault {
    #[error("the octets end inside the record")]
    Cut,
    #[error("a captured length above 262144")]
    Long,
    #[error("more than 4294967295 records")]
    TooMany,
    #[error("the source failed")]
    ReadFault,
}

impl From<Failed> for RecordFault {
    ghost use Rattle.std.specs.Prelude.{◌≡◌};
    ghost use Rattle.pcap_file.specs.declared.reader.RecordFault.TheVariants.{ReadFault};

    ghost from_gives = { λ _ fault. fault ≡ ReadFault };

    fn from(_: Failed) -> Self {
        RecordFault::ReadFault
    }
}

/// The position of a reader in a capture file.
#[derive(Debug, Drop)]
pub struct Reader {
    head: Head,
    place: u64,
    asked: u64,
    given: u32,
    going: bool,
}

impl Model for Reader {
    ghost use Rattle.std.specs.Prelude.{◌≤◌, ◌+◌, ◌*◌};
    ghost use Rattle.pcap_file.specs.ReaderState.{Reading};
    ghost use Rattle.wire_base.specs.declared.limits.TheConstants.{MAX_CAPTURED};

    ghost Value = { Reading };

    ghost view = { λ r. record { head = r.head; place = r.place; asked = r.asked; given = r.given; is_open = r.going } };

    ghost invariant = { λ r. r.place ≤ 24 + (16 + MAX_CAPTURED) * r.given };
}

impl Reader {
    /// Returns a reader that has read the head.
    pub fn new(head: Head) -> Reader
        ensures { result ≡ record { head = head; place = 24; asked = 24; given = 0; is_open = true } }
    {
        Reader {
            head,
            place: 24,
            asked: 24,
            given: 0,
            going: true,
        }
    }

    /// Returns whether `next` may be called.
    pub fn is_open(&self) -> bool
        ensures { result ≡ self.now.is_open }
    {
        self.going
    }

    /// Returns the offset of the record that the last call of `next` asked for, in octets from the
    /// start of the file.
    pub fn offset(&self) -> u64
        ensures { result ≡ self.now.asked }
    {
        self.asked
    }

    /// Returns the offset of the next record, in octets from the start of the file.
    pub fn place(&self) -> u64
        ensures { result ≡ self.now.place }
    {
        self.place
    }

    /// Reads the next record, with its octets in the buffer. Returns None at the end of the file.
    /// After a record exactly its octets were taken; None takes none, and an error at most those of
    /// this record. After None or an error the reader is closed.
    pub fn next<'a, S: Source>(
        &mut self,
        source: &mut S,
        buf: &'a mut [u8],
    ) -> Result<Option<Record<'a>>, RecordFault>
        requires open { self.old.is_open ≡ true }
        requires room { MAX_CAPTURED ≤ length buf.old }
        ensures octets { Reads self.old.head.order self.old.given (S.left source.old) (S.left source.new) result }
        ensures later { S.fault_count source.old ≤ S.fault_count source.new }
        ensures kept { KeepsCount result (S.fault_count source.old) (S.fault_count source.new) }
        ensures cause { IsErrOf result RecordFault.ReadFault → Rose (S.fault_count source.old) (S.fault_count source.new) }
        ensures head { self.new.head ≡ self.old.head }
        ensures asked { self.new.asked ≡ self.old.place }
        ensures offset { IfRecord result (λ r. r.offset ≡ self.old.place) }
        ensures sideless { IfRecord result (λ r. r.side ≡ None) }
        ensures goes_on { self.new.is_open ≡ is_record result }
        ensures advances { IfRecord result (λ r. Advances self.old self.new (length r.bytes.now)) }
        ensures stays { IfNoRecord result (Stays self.old self.new) }
    {
        self.going = false;
        self.asked = self.place;
        let order = self.head.order;
        let mut head = [0u8; 16];
        let count = read_full(source, &mut head)?;
        if count == 0 {
            return Ok(None);
        }
        if count < 16 {
            return Err(RecordFault::Cut);
        }
        let size = order.u32_at(&head, 8);
        if size > MAX_CAPTURED {
            return Err(RecordFault::Long);
        }
        if self.given == u32::MAX {
            return Err(RecordFault::TooMany);
        }
        let body = &mut buf[..size as usize];
        let got = read_full(source, body)?;
        if got < size as usize {
            return Err(RecordFault::Cut);
        }
        self.place += 16 + u64::from(size);
        self.given += 1;
        self.going = true;
        let seconds = order.u32_at(&head, 0);
        let fraction = order.u32_at(&head, 4);
        let original = order.u32_at(&head, 12);
        Ok(Some(Record::new(seconds, fraction, original, self.asked, body)))
    }
}
