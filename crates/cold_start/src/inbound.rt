//! An inbound segment without a live era.
ghost use Rattle.std.specs.Prelude.{◌≡◌, true};
ghost use Rattle.wire_base.specs.Tcp as tcp;
ghost use Rattle.era_state.specs.SegmentFields.{came};
ghost use Rattle.cold_start.specs.Rules.{cold_probe_of, is_asked, is_call, t_cold};
ghost use Rattle.cold_start.specs.Answers.{AnswersTo, is_begin, is_probe, is_refuse};

use era_state::{Offered, Probe, Seg};
use wire_base::sequence_before;

/// Answer to an inbound segment without a live era.
#[derive(Clone, Copy)]
pub enum ColdAnswer {
    /// It begins this era.
    Begin(Offered),
    /// This probe is sent in its place, to find out whether the host holds the connection.
    Probe(Probe),
    /// T_COLD: it is dropped.
    Refuse,
}

/// Judges an inbound segment without a live era.
pub fn cold(seg: &Seg) -> ColdAnswer
    requires legal { tcp.are_legal seg.now.flags.0 ≡ true }
    ensures begins { is_begin result ≡ is_call (came seg.now) }
    ensures asks { is_probe result ≡ is_asked (came seg.now) }
    ensures refuses { is_refuse result ≡ t_cold (came seg.now) }
    ensures fields { AnswersTo seg.now result }
{
    let flags = seg.flags;
    if flags.rst() || flags.syn() && flags.ack() {
        return ColdAnswer::Refuse;
    }
    if flags.syn() {
        return ColdAnswer::Begin(Offered::offer(seg));
    }
    ColdAnswer::Probe(cold_probe(seg))
}

/// Returns the probe of a host about an inbound segment: one below the segment's sequence number,
/// with its acknowledgment and its window.
pub fn cold_probe(seg: &Seg) -> Probe
    ensures { result ≡ cold_probe_of (came seg.now) }
{
    Probe {
        seq: sequence_before(seg.seq),
        ack: seg.ack,
        window: seg.window,
    }
}
