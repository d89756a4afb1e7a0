//! Fragments of datagrams, and the answers to them.
ghost use Rattle.std.specs.Prelude.{◌≡◌, ◌≤◌, ◌<◌, length};
ghost use Rattle.reassembly.specs.DatagramFragments.{fragment_of, end_of, IsPiece};

use crate::id::DatagramId;
use rule_book::Rule;
use wire_base::Addr;

/// Fragment of a datagram (RFC 791 section 3.2).
#[derive(Clone, Copy)]
pub struct Piece<'a> {
    pub src: Addr,
    pub dst: Addr,
    pub protocol: u8,
    pub ident: u16,
    /// Offset of its octets in the datagram, in octets.
    pub offset: u32,
    /// Whether further octets follow in the datagram.
    pub more: bool,
    pub df: bool,
    pub tos: u8,
    pub ttl: u8,
    /// Its octets, after the header.
    pub bytes: &'a [u8],
}

/// Complete datagram: the number of octets after its header, and the header fields from the
/// fragment at offset 0.
#[derive(Clone, Copy, Debug, PartialEq, Eq)]
pub struct Whole {
    pub len: usize,
    pub tos: u8,
    pub ttl: u8,
    pub df: bool,
}

/// Answer to a fragment.
#[derive(Clone, Copy, Debug, PartialEq, Eq)]
pub enum Offered {
    /// It is held, and its datagram is not complete.
    Held,
    /// It completes its datagram.
    Done(Whole),
    /// It is dropped under this rule.
    Drop(Rule),
}

/// Header fields that a complete datagram takes from its fragment at offset 0.
#[derive(Clone, Copy)]
pub struct Front {
    pub tos: u8,
    pub ttl: u8,
    pub df: bool,
}

impl<'a> Piece<'a> {
    /// Returns the fields that the fragment has in common with the others of its datagram.
    pub(crate) fn id(&self) -> DatagramId
        ensures { result ≡ (fragment_of self.now).id }
    {
        DatagramId {
            src: self.src,
            dst: self.dst,
            protocol: self.protocol,
            ident: self.ident,
        }
    }

    /// Returns the number of its octets.
    pub(crate) fn len(&self) -> u32
        requires { IsPiece (fragment_of self.now) }
        ensures { result ≡ length (fragment_of self.now).octets }
    {
        self.bytes.len() as u32
    }

    /// Returns the offset after its last octet.
    pub(crate) fn end(&self) -> u32
        requires { IsPiece (fragment_of self.now) }
        ensures { result ≡ end_of (fragment_of self.now) }
    {
        self.offset + self.len()
    }
}
