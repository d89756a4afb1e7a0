//! A record of a capture file, and the byte order of the numbers in the file.
ghost use Rattle.std.specs.Prelude.{◌≡◌, None, ◌+◌, ◌≤◌, length};
ghost use Rattle.pcap_file.specs.FileNumbers as numbers;

use byteorder::{BigEndian, ByteOrder, LittleEndian};
use wire_base::Side;

/// A record, whose octets are in the caller's buffer.
#[derive(Clone, Copy, Debug)]
pub struct Record<'a> {
    /// Seconds since 1970.
    pub seconds: u32,
    /// Microseconds or nanoseconds, by the head; not checked.
    pub fraction: u32,
    /// Length of the frame on the link, in octets.
    pub original: u32,
    /// Offset of the record, in octets from the start of the file.
    pub offset: u64,
    /// The captured octets, at most 262,144 if a reader made the record.
    pub bytes: &'a [u8],
    /// The direction of the packet, if its capture names one; a classic capture file never does.
    pub side: Option<Side>,
}

impl<'a> Record<'a> {
    ghost use Rattle.pcap_file.specs.RecordReading.{shown};

    /// Returns a record of these octets, without a side.
    pub fn new(
        seconds: u32,
        fraction: u32,
        original: u32,
        offset: u64,
        bytes: &'a [u8],
    ) -> Record<'a>
        ensures fields { shown result ≡ record { seconds = seconds; fraction = fraction; original = original; side = None; octets = bytes.now } }
        ensures offset { result.offset ≡ offset }
    {
        Record {
            seconds,
            fraction,
            original,
            offset,
            side: None,
            bytes,
        }
    }
}

/// The byte order of each number in a file: least significant octet first, or most significant.
#[derive(Clone, Copy, Debug, PartialEq, Eq)]
pub enum Order {
    Little,
    Big,
}

impl Order {
    /// Returns the 16-bit number at offset `at`.
    pub(crate) fn u16_at(self, bytes: &[u8], at: usize) -> u16
        requires { at + 2 ≤ length bytes.now }
        ensures { result ≡ numbers.u16_at self bytes.now at }
    {
        match self {
            Order::Little => LittleEndian::read_u16(&bytes[at..]),
            Order::Big => BigEndian::read_u16(&bytes[at..]),
        }
    }

    /// Returns the 32-bit number at offset `at`.
    pub(crate) fn u32_at(self, bytes: &[u8], at: usize) -> u32
        requires { at + 4 ≤ length bytes.now }
        ensures { result ≡ numbers.u32_at self bytes.now at }
    {
        match self {
            Order::Little => LittleEndian::read_u32(&bytes[at..]),
            Order::Big => BigEndian::read_u32(&bytes[at..]),
        }
    }

    /// Returns the two octets of a number.
    pub(crate) fn u16_octets(self, number: u16) -> [u8; 2]
        ensures { result ≡ numbers.u16_octets self number }
    {
        match self {
            Order::Little => number.to_le_bytes(),
            Order::Big => number.to_be_bytes(),
        }
    }

    /// Returns the four octets of a number.
    pub(crate) fn u32_octets(self, number: u32) -> [u8; 4]
        ensures { result ≡ numbers.u32_octets self number }
    {
        // The match chooses between numbers and not between arrays, so that the octets are one
        // store.
        let stored = match self {
            Order::Little => number,
            Order::Big => number.swap_bytes(),
        };
        stored.to_le_bytes()
    }
}
