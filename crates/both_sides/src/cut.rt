//! What is written for the frames of a record: each is written as it is, cut if it is longer than
//! the MTU of the next link, or dropped.
ghost use Rattle.std.specs.Prelude.{◌≡◌, ◌≤◌, ◌<◌, true, [], ◌∷◌, All, Some, length, IfOk, IfSome, OnOk, OnErr};
ghost use Rattle.edge_io.specs.FaultCounts.{HasCause};
ghost use Rattle.edge_io.specs.KnownOctets.{Puts};
ghost use Rattle.pcap_file.specs.RecordReading.{shown};
ghost use Rattle.rule_book.specs.Entries.{plain};
ghost use Rattle.norm_engine.specs.EngineState.{frames_given};
ghost use Rattle.emit_mtu.specs.FrameParts.{IsSent};
ghost use Rattle.emit_mtu.specs.LongFrames.{long_kind};
ghost use Rattle.emit_mtu.specs.Segments.{segments};
ghost use Rattle.emit_mtu.specs.CutStreams.{frames_for};
ghost use Rattle.emit_mtu.specs.declared.long.LongKind.TheVariants as kinds;
ghost use Rattle.both_sides.specs.Frames.{frame_octets};
ghost use Rattle.norm_engine.specs.WrittenTrace as spec;
ghost use Rattle.norm_engine.specs.working.FrameReports as working;
ghost use Rattle.wire_base.specs.declared.limits.TheConstants.{MAX_FRAME};
ghost use Rattle.rule_book.specs.declared.entry.TheConstants.{MAX_NAMED};

use crate::room::Room;
use edge_io::{MAX_FRAME, Outbox, Sink};
use emit_mtu::laws::segments_fit;
use emit_mtu::{Cutter, LongKind, long_kind};
use ip_rules::write::put_read;
use norm_engine::written::{Emitted, have_octets, joined, tell_cut};
use pcap_file::{Head, Record, WriteFault, write_record};

/// Writes the record if it is written as it was read, and otherwise the frames of the outbox, each
/// with the record's time. Reports cuts and drops in its entry.
pub fn write_item<K: Sink>(
    as_read: bool,
    room: &mut Room,
    head: &Head,
    input: &Record<'_>,
    capture: &mut K,
) -> Result<(), WriteFault>
    requires ready { working.CanWrite room.old.mtu head.now.link (frames_given as_read input.now.bytes.now room.old.out) }
    requires named { length room.old.entry.rules.items ≤ MAX_NAMED }
    requires empty { as_read ≡ true → room.old.out ≡ [] }
    requires short { as_read ≡ true → length input.now.bytes.now ≤ MAX_FRAME }
    ensures octets { Puts (K.held capture.old) (K.held capture.new) result
        (frame_octets head.now.order (shown input.now) (spec.frames_written room.old.mtu head.now.link (frames_given as_read input.now.bytes.now room.old.out))) }
    ensures cause { HasCause (K.fault_count capture.old) (K.fault_count capture.new) result }
    ensures some { OnErr result (0 < length (spec.frames_written room.old.mtu head.now.link (frames_given as_read input.now.bytes.now room.old.out))) }
    ensures entry { OnOk result (plain room.new.entry ≡ spec.entry_written room.old.mtu head.now.link (frames_given as_read input.now.bytes.now room.old.out) (plain room.old.entry)) }
    ensures mtu { room.new.mtu ≡ room.old.mtu }
{
    let Some(mtu) = room.mtu else {
        return write_whole(as_read, &room.out, head, input, capture);
    };
    put_if(as_read, input.bytes, &mut room.out);
    let emitted = write_cut(&room.out, head, mtu, input, &mut room.segment, capture)?;
    tell_cut(emitted, &mut room.entry);
    Ok(())
}

// Puts a frame that is written as it was read into the outbox, which is empty in that case.
fn put_if(as_read: bool, frame: &[u8], out: &mut Outbox)
    requires empty { as_read ≡ true → out.old ≡ [] }
    requires short { as_read ≡ true → length frame.now ≤ MAX_FRAME }
    ensures { out.new ≡ frames_given as_read frame.now out.old }
{
    if as_read {
        put_read(frame, out);
    }
}

// Writes a record as it was read, or the frames of the outbox as they are.
fn write_whole<K: Sink>(
    as_read: bool,
    out: &Outbox,
    head: &Head,
    input: &Record<'_>,
    capture: &mut K,
) -> Result<(), WriteFault>
    requires { as_read ≡ true → length input.now.bytes.now ≤ MAX_FRAME }
    ensures octets { Puts (K.held capture.old) (K.held capture.new) result
        (frame_octets head.now.order (shown input.now) (frames_given as_read input.now.bytes.now out.now)) }
    ensures cause { HasCause (K.fault_count capture.old) (K.fault_count capture.new) result }
    ensures some { OnErr result (0 < length (frames_given as_read input.now.bytes.now out.now)) }
{
    if as_read {
        return write_read(head, input, capture);
    }
    write_frames(out, head, input, capture)
}

// Writes a record as it was read.
fn write_read<K: Sink>(head: &Head, input: &Record<'_>, capture: &mut K) -> Result<(), WriteFault>
    requires { length input.now.bytes.now ≤ MAX_FRAME }
    ensures octets { Puts (K.held capture.old) (K.held capture.new) result
        (frame_octets head.now.order (shown input.now) (input.now.bytes.now ∷ [])) }
    ensures cause { HasCause (K.fault_count capture.old) (K.fault_count capture.new) result }
{
    write_record(capture, head, input.seconds, input.fraction, input.bytes)
}

/// Writes the frames of a record as they are.
#[inline(always)]
pub fn write_frames<K: Sink>(
    out: &Outbox,
    head: &Head,
    input: &Record<'_>,
    capture: &mut K,
) -> Result<(), WriteFault>
    ensures octets { Puts (K.held capture.old) (K.held capture.new) result
        (frame_octets head.now.order (shown input.now) out.now) }
    ensures cause { HasCause (K.fault_count capture.old) (K.fault_count capture.new) result }
    ensures some { OnErr result (0 < length out.now) }
{
    for index in 0..out.frames() {
        let frame = out.frame(index);
        write_record(capture, head, input.seconds, input.fraction, frame)?;
    }
    Ok(())
}

// Writes what is written for the frames of a record with an MTU, and returns a report on them.
fn write_cut<K: Sink>(
    out: &Outbox,
    head: &Head,
    mtu: u16,
    input: &Record<'_>,
    segment: &mut [u8; MAX_FRAME],
    capture: &mut K,
) -> Result<Emitted, WriteFault>
    requires sent { All (IsSent head.now.link) out.now }
    requires least { 576 ≤ mtu }
    requires few { length (spec.frames_written (Some mtu) head.now.link out.now) < 256 }
    ensures octets { Puts (K.held capture.old) (K.held capture.new) result
        (frame_octets head.now.order (shown input.now) (spec.frames_written (Some mtu) head.now.link out.now)) }
    ensures cause { HasCause (K.fault_count capture.old) (K.fault_count capture.new) result }
    ensures some { OnErr result (0 < length (spec.frames_written (Some mtu) head.now.link out.now)) }
    ensures tells { IfOk result (working.TellsAll mtu head.now.link out.now) }
{
    let mut emitted = Emitted {
        packets: 0,
        cut: false,
        kept_back: false,
    };
    for index in 0..out.frames() {
        let frame = out.frame(index);
        let one = write_one(frame, head, mtu, input, segment, capture)?;
        emitted = joined(emitted, one);
    }
    Ok(emitted)
}

// Writes what is written for a frame with an MTU, and returns a report on it.
fn write_one<K: Sink>(
    frame: &[u8],
    head: &Head,
    mtu: u16,
    input: &Record<'_>,
    segment: &mut [u8; MAX_FRAME],
    capture: &mut K,
) -> Result<Emitted, WriteFault>
    requires sent { IsSent head.now.link frame.now }
    requires short { length frame.now ≤ MAX_FRAME }
    requires least { 576 ≤ mtu }
    ensures octets { Puts (K.held capture.old) (K.held capture.new) result
        (frame_octets head.now.order (shown input.now) (frames_for head.now.link mtu frame.now)) }
    ensures cause { HasCause (K.fault_count capture.old) (K.fault_count capture.new) result }
    ensures some { OnErr result (0 < length (frames_for head.now.link mtu frame.now)) }
    ensures tells { IfOk result (working.TellsOne mtu head.now.link frame.now) }
{
    match long_kind(head.link, frame, mtu) {
        LongKind::Fits => {
            write_record(capture, head, input.seconds, input.fraction, frame)?;
            Ok(Emitted {
                packets: 1,
                cut: false,
                kept_back: false,
            })
        }
        LongKind::Cut => {
            let packets = write_segments(frame, head, mtu, input, segment, capture)?;
            Ok(Emitted {
                packets,
                cut: true,
                kept_back: false,
            })
        }
        LongKind::Drop => Ok(Emitted {
            packets: 0,
            cut: false,
            kept_back: true,
        }),
    }
}

// Writes the segments of a frame that is cut, and returns their number.
fn write_segments<K: Sink>(
    frame: &[u8],
    head: &Head,
    mtu: u16,
    input: &Record<'_>,
    segment: &mut [u8; MAX_FRAME],
    capture: &mut K,
) -> Result<u8, WriteFault>
    requires sent { IsSent head.now.link frame.now }
    requires cut { long_kind head.now.link mtu frame.now ≡ kinds.Cut }
    requires least { 576 ≤ mtu }
    ensures octets { Puts (K.held capture.old) (K.held capture.new) result
        (frame_octets head.now.order (shown input.now) (segments head.now.link mtu frame.now)) }
    ensures cause { HasCause (K.fault_count capture.old) (K.fault_count capture.new) result }
    ensures some { OnErr result (0 < length (segments head.now.link mtu frame.now)) }
    ensures count { IfOk result (λ count. count ≡ length (segments head.now.link mtu frame.now)) }
{
    segments_fit();
    have_octets(frame);
    let mut cutter = Cutter::new(head.link, mtu, frame);
    let mut count = 0u8;
    while let Some(size) = cutter.next(&mut segment[..]) {
        let octets = &segment[..size];
        write_record(capture, head, input.seconds, input.fraction, octets)?;
        count += 1;
    }
    Ok(count)
}
