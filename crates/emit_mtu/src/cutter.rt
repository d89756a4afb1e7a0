//! Cutting of a frame, segment by segment.
ghost use Rattle.std.specs.Prelude.{◌≡◌, ◌≤◌, [], ◌∷◌, length, take, drop, IfSome, IfNone};
ghost use Rattle.emit_mtu.specs.declared.long.LongKind.TheVariants as kinds;
ghost use Rattle.emit_mtu.specs.FrameParts.{IsSent};
ghost use Rattle.emit_mtu.specs.LongFrames.{long_kind};
ghost use Rattle.emit_mtu.specs.Segments.{segments};
ghost use Rattle.wire_base.specs.declared.limits.TheConstants.{MAX_FRAME};

use crate::parts::{HEADER, Parts, parts_of};
use crate::piece::write_segment;
use std::marker::Model;
use wire_base::Link;

/// The segments of a frame that are still to be written; it represents the list of their frames. It
/// allocates no memory.
#[derive(Drop)]
pub struct Cutter<'a> {
    parts: Parts<'a>,
    // Number of payload octets of each segment except the last.
    room: usize,
    // Number of segments written.
    index: u16,
}

impl<'a> Model for Cutter<'a> {
    ghost use Rattle.std.specs.Prelude.{ℕ, List};
    ghost use Rattle.emit_mtu.specs.working.CutterState.{IsCutting};
    ghost use Rattle.emit_mtu.specs.Segments.{segments_from};

    ghost Value = { List (List ℕ) };

    ghost view = { λ c. segments_from c.index c.room c.parts };

    ghost invariant = { λ c. IsCutting c.index c.room c.parts };
}

impl<'a> Cutter<'a> {
    /// Returns the segments of a frame that is to be cut, for packets of at most `mtu` octets.
    pub fn new(link: Link, mtu: u16, frame: &'a [u8]) -> Cutter<'a>
        requires sent { IsSent link frame.now }
        requires cut { long_kind link mtu frame.now ≡ kinds.Cut }
        requires least { 576 ≤ mtu }
        ensures { result ≡ segments link mtu frame.now }
    {
        let parts = parts_of(link, frame);
        let room = usize::from(mtu) - HEADER - parts.tcp.len();
        Cutter {
            parts,
            room,
            index: 0,
        }
    }

    /// Writes the frame of the next segment at the front of the buffer, and returns its length in
    /// octets; None after the last.
    pub fn next(&mut self, buf: &mut [u8]) -> Option<usize>
        requires room { MAX_FRAME ≤ length buf.old }
        ensures next { IfSome result (λ size. self.old ≡ take size buf.new ∷ self.new) }
        ensures behind { IfSome result (λ size. drop size buf.new ≡ drop size buf.old) }
        ensures most { IfSome result (λ size. size ≤ MAX_FRAME) }
        ensures last { IfNone result (self.old ≡ []) }
        ensures stays { IfNone result (self.new ≡ []) }
        ensures unwritten { IfNone result (buf.new ≡ buf.old) }
    {
        if self.parts.payload_size() <= self.room * usize::from(self.index) {
            return None;
        }
        let size = write_segment(&self.parts, self.room, self.index, buf);
        self.index += 1;
        Some(size)
    }

    /// Returns the number of segments that are still to be written.
    pub fn left(&self) -> usize
        ensures { result ≡ length self.now }
    {
        self.parts.payload_size().div_ceil(self.room) - usize::from(self.index)
    }

    /// Skips the next `count` segments.
    pub fn skip(&mut self, count: u16)
        requires { count ≤ length self.old }
        ensures { self.new ≡ drop count self.old }
    {
        self.index += count;
    }
}
