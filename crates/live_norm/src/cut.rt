//! What is written for the frames of one record with the MTU of the next link.
ghost use Rattle.std.specs.Prelude.{◌≡◌, ◌≤◌, ◌<◌, ℕ, None, true, false, [], All, Some, length, take, slice_get};
ghost use Rattle.std.specs.List.{flat_map};
ghost use Rattle.rule_book.specs.Entries.{plain};
ghost use Rattle.norm_engine.specs.EngineState.{frames_given};
ghost use Rattle.norm_engine.specs.WrittenTrace.{entry_written, frames_written};
ghost use Rattle.norm_engine.specs.working.FrameReports.{CanWrite, TellsAll, TellsOne};
ghost use Rattle.emit_mtu.specs.FrameParts.{IsSent};
ghost use Rattle.emit_mtu.specs.CutStreams.{frames_for};
ghost use Rattle.emit_mtu.specs.LongFrames.{long_kind};
ghost use Rattle.emit_mtu.specs.Segments.{segments};
ghost use Rattle.emit_mtu.specs.declared.long.LongKind.TheVariants as kinds;
ghost use Rattle.wire_base.specs.declared.limits.TheConstants.{MAX_FRAME};
ghost use Rattle.rule_book.specs.declared.entry.TheConstants.{MAX_NAMED};

use edge_io::{MAX_FRAME, Outbox};
use emit_mtu::laws::segments_fit;
use emit_mtu::{Cutter, LongKind, long_kind};
use ip_rules::write::put_read;
use norm_engine::written::{Emitted, have_octets, joined, tell_cut};
use rule_book::Entry;
use wire_base::Link;

/// Enters in an entry what the MTU changes, if there is one. Returns true only if the record is
/// still written as it was read; otherwise its frames are in the outbox, before they are cut.
pub(crate) fn cut_by(
    as_read: bool,
    mtu: Option<u16>,
    link: Link,
    frame: &[u8],
    out: &mut Outbox,
    entry: &mut Entry,
) -> bool
    requires ready { CanWrite mtu link (frames_given as_read frame.now out.old) }
    requires named { length entry.old.rules.items ≤ MAX_NAMED }
    requires empty { as_read ≡ true → out.old ≡ [] }
    requires short { as_read ≡ true → length frame.now ≤ MAX_FRAME }
    ensures frames { frames_given result frame.now (frames_written mtu link out.new) ≡
        frames_written mtu link (frames_given as_read frame.now out.old) }
    ensures entry { plain entry.new ≡ entry_written mtu link (frames_given as_read frame.now out.old) (plain entry.old) }
    ensures empty { result ≡ true → out.new ≡ [] }
    ensures ready { CanWrite mtu link out.new }
{
    match mtu {
        None => as_read,
        Some(mtu) => cut_item(as_read, mtu, link, frame, out, entry),
    }
}

// The same with an MTU.
fn cut_item(
    as_read: bool,
    mtu: u16,
    link: Link,
    frame: &[u8],
    out: &mut Outbox,
    entry: &mut Entry,
) -> bool
    requires ready { CanWrite (Some mtu) link (frames_given as_read frame.now out.old) }
    requires named { length entry.old.rules.items ≤ MAX_NAMED }
    requires empty { as_read ≡ true → out.old ≡ [] }
    requires short { as_read ≡ true → length frame.now ≤ MAX_FRAME }
    ensures frames { frames_given result frame.now (frames_written (Some mtu) link out.new) ≡
        frames_written (Some mtu) link (frames_given as_read frame.now out.old) }
    ensures entry { plain entry.new ≡ entry_written (Some mtu) link (frames_given as_read frame.now out.old) (plain entry.old) }
    ensures empty { result ≡ true → out.new ≡ [] }
    ensures ready { CanWrite (Some mtu) link out.new }
{
    if as_read {
        if fits(link, frame, mtu) {
            tell_cut(whole(), entry);
            return true;
        }
        put_read(frame, out);
    }
    let emitted = emitted_of(out, link, mtu);
    tell_cut(emitted, entry);
    false
}

// Returns whether a frame is written as it is.
fn fits(link: Link, frame: &[u8], mtu: u16) -> bool
    requires { IsSent link frame.now }
    ensures { result ≡ true → long_kind link mtu frame.now ≡ kinds.Fits }
{
    long_kind(link, frame, mtu) == LongKind::Fits
}

// Returns the report on one frame that is written as it is.
fn whole() -> Emitted
    ensures { result ≡ record { packets = 1; cut = false; kept_back = false } }
{
    Emitted {
        packets: 1,
        cut: false,
        kept_back: false,
    }
}

/// Returns the report on what is written for the frames of an outbox.
pub(crate) fn emitted_of(out: &Outbox, link: Link, mtu: u16) -> Emitted
    requires { CanWrite (Some mtu) link out.now }
    ensures { TellsAll mtu link out.now result }
{
    let mut emitted = Emitted {
        packets: 0,
        cut: false,
        kept_back: false,
    };
    for index in 0..out.frames() {
        let one = emitted_for(out.frame(index), link, mtu);
        emitted = joined(emitted, one);
    }
    emitted
}

// Returns the report on what is written for a frame.
fn emitted_for(frame: &[u8], link: Link, mtu: u16) -> Emitted
    requires sent { IsSent link frame.now }
    requires least { 576 ≤ mtu }
    ensures { TellsOne mtu link frame.now result }
{
    match long_kind(link, frame, mtu) {
        LongKind::Fits => whole(),
        LongKind::Cut => {
            segments_fit();
            have_octets(frame);
            let count = Cutter::new(link, mtu, frame).left();
            Emitted {
                packets: count as u8,
                cut: true,
                kept_back: false,
            }
        }
        LongKind::Drop => Emitted {
            packets: 0,
            cut: false,
            kept_back: true,
        },
    }
}

/// Writes, at the front of the buffer, the frame at this index of those that are written for the
/// frames of an outbox, and returns its length in octets.
pub(crate) fn write_frame(out: &Outbox, link: Link, mtu: u16, index: usize, buf: &mut [u8]) -> usize
    requires ready { CanWrite (Some mtu) link out.now }
    requires index { index < length (frames_written (Some mtu) link out.now) }
    requires room { MAX_FRAME ≤ length buf.old }
    ensures octets { slice_get (frames_written (Some mtu) link out.now) index ≡ Some (take result buf.new) }
    ensures short { result ≤ MAX_FRAME }
{
    let frame = out.frame(0);
    let count = out.frames();
    if count == 1 {
        return write_piece(frame, link, mtu, index, buf);
    }
    let first = usize::from(emitted_for(frame, link, mtu).packets);
    if index < first {
        write_piece(frame, link, mtu, index, buf)
    } else {
        let second = out.frame(1);
        write_piece(second, link, mtu, index - first, buf)
    }
}

// Writes the frame at this index of those that are written for one frame.
fn write_piece(frame: &[u8], link: Link, mtu: u16, index: usize, buf: &mut [u8]) -> usize
    requires sent { IsSent link frame.now }
    requires least { 576 ≤ mtu }
    requires index { index < length (frames_for link mtu frame.now) }
    requires short { length frame.now ≤ MAX_FRAME }
    requires room { MAX_FRAME ≤ length buf.old }
    ensures octets { slice_get (frames_for link mtu frame.now) index ≡ Some (take result buf.new) }
    ensures short { result ≤ MAX_FRAME }
{
    match long_kind(link, frame, mtu) {
        LongKind::Fits => copy(frame, buf),
        LongKind::Cut => write_segment(frame, link, mtu, index, buf),
        LongKind::Drop => unreachable!(),
    }
}

// Writes the segment at this index of a frame that is cut.
fn write_segment(frame: &[u8], link: Link, mtu: u16, index: usize, buf: &mut [u8]) -> usize
    requires sent { IsSent link frame.now }
    requires cut { long_kind link mtu frame.now ≡ kinds.Cut }
    requires least { 576 ≤ mtu }
    requires index { index < length (segments link mtu frame.now) }
    requires room { MAX_FRAME ≤ length buf.old }
    ensures octets { slice_get (segments link mtu frame.now) index ≡ Some (take result buf.new) }
    ensures short { result ≤ MAX_FRAME }
{
    segments_fit();
    have_octets(frame);
    let mut cutter = Cutter::new(link, mtu, frame);
    cutter.skip(index as u16);
    match cutter.next(buf) {
        Some(size) => size,
        None => unreachable!(),
    }
}

/// Copies a frame to the front of a buffer, and returns its length.
pub(crate) fn copy(frame: &[u8], buf: &mut [u8]) -> usize
    requires { length frame.now ≤ length buf.old }
    ensures octets { take result buf.new ≡ frame.now }
    ensures size { result ≡ length frame.now }
{
    let size = frame.len();
    buf[..size].copy_from_slice(frame);
    size
}
