//! A reader of the records of a capture, one by one.
ghost use Rattle.std.specs.Prelude.{◌≡◌, ◌≤◌, ℕ, List, length, true, false, None, option_map, IfOk, IfSome};
ghost use Rattle.std.specs.declared.option.Option.{Option};
ghost use Rattle.edge_io.specs.FaultCounts.{Rose};
ghost use Rattle.capture_input.specs.Faults.{has_read_fault, only_fault};
ghost use Rattle.capture_input.specs.Inputs.{Walk};
ghost use Rattle.capture_input.specs.ReaderState.{head_in, asked_in, place_in, is_open_in, Behind};
ghost use Rattle.capture_input.specs.RecordReading.{Opens, Reads};
ghost use Rattle.wire_base.specs.declared.limits.TheConstants.{MAX_CAPTURED};

use crate::opening::{open_classic, open_sections};
use crate::{InputFault, OpenFault};
use edge_io::{Source, read_full};
use pcap_file::{Head, Reader, Record};
use pcapng_file::NgReader;

// The type of a section block, the first octets of a pcapng file.
const SECTION: [u8; 4] = [0x0a, 0x0d, 0x0d, 0x0a];

/// A reader of a capture of either kind.
#[derive(Debug, Drop)]
pub enum Input {
    Classic(Head, Reader),
    Sections(NgReader),
}

impl Input {
    /// Reads the head: of a classic file its 24 octets, of a pcapng file all octets up to the end
    /// of the first interface block. Fails for a classic file if the name of the inside interface
    /// is given, since such a file has no interfaces.
    pub fn open<S: Source>(inside: Option<&[u8]>, source: &mut S) -> Result<Input, OpenFault>
        requires { IfSome inside (λ name. length name.now ≤ 64) }
        ensures octets { Opens (option_map (λ name. name.now) inside.entry) (S.left source.old) (S.left source.new) result }
        ensures later { S.fault_count source.old ≤ S.fault_count source.new }
        ensures kept { has_read_fault (only_fault result) ≡ false → S.fault_count source.new ≡ S.fault_count source.old }
        ensures cause { has_read_fault (only_fault result) ≡ true → Rose (S.fault_count source.old) (S.fault_count source.new) }
    {
        let mut first = [0u8; 4];
        let count = read_full(source, &mut first)?;
        if first[..count] == SECTION[..] {
            return open_sections(inside, &first, source);
        }
        open_classic(inside, &first[..count], source)
    }

    /// Returns the head of the file that is written from these records: a classic file's own; for a
    /// pcapng file least significant octet first, nanoseconds, the link of the first interface.
    pub fn head(&self) -> Head
        ensures { result ≡ head_in self.now }
    {
        match self {
            Input::Classic(head, _) => *head,
            Input::Sections(reader) => reader.head(),
        }
    }

    /// Returns whether `next` may be called.
    pub fn is_open(&self) -> bool
        ensures { result ≡ is_open_in self.now }
    {
        match self {
            Input::Classic(_, reader) => reader.is_open(),
            Input::Sections(reader) => reader.is_open(),
        }
    }

    /// Returns the offset of the record or block read last, in octets from the start of the
    /// capture.
    pub fn offset(&self) -> u64
        ensures { result ≡ asked_in self.now }
    {
        match self {
            Input::Classic(_, reader) => reader.offset(),
            Input::Sections(reader) => reader.offset(),
        }
    }

    /// Returns the offset of the next record or block, in octets from the start of the capture.
    pub fn place(&self) -> u64
        ensures { result ≡ place_in self.now }
    {
        match self {
            Input::Classic(_, reader) => reader.place(),
            Input::Sections(reader) => reader.place(),
        }
    }

    /// Returns the next record, with its octets in the buffer, and the offset of its record or
    /// block. It has its own side only if the name of the inside interface is given.
    pub fn next<'a, S: Source>(
        &mut self,
        source: &mut S,
        buf: &'a mut [u8],
    ) -> Result<Option<Record<'a>>, InputFault>
        requires open { is_open_in self.old ≡ true }
        requires room { MAX_CAPTURED ≤ length buf.old }
        ensures octets { (inside : Option (List ℕ)) (walk : Walk) → Behind self.old inside walk
            → Reads self.old self.new inside walk (S.left source.old) (S.left source.new) result }
        ensures sideless { (walk : Walk) → Behind self.old None walk → IfOk result (λ given. IfSome given (λ r. r.side ≡ None)) }
        ensures later { S.fault_count source.old ≤ S.fault_count source.new }
        ensures kept { has_read_fault result ≡ false → S.fault_count source.new ≡ S.fault_count source.old }
        ensures cause { has_read_fault result ≡ true → Rose (S.fault_count source.old) (S.fault_count source.new) }
    {
        match self {
            Input::Classic(_, reader) => Ok(reader.next(source, buf)?),
            Input::Sections(reader) => Ok(reader.next(source, buf)?),
        }
    }
}
