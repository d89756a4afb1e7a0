//! A reset of a live era, and the probe that follows it.
ghost use Rattle.std.specs.Prelude.{◌≡◌, ◌+◌, ◌%◌, ◌^◌, ◌<◌, ℕ, List, Some, true};
ghost use Rattle.wire_base.specs.Segments.{Written};
ghost use Rattle.wire_base.specs.Tcp as tcp;
ghost use Rattle.era_state.specs.Eras.{StandsFor};
ghost use Rattle.era_state.specs.SegmentFields.{came};
ghost use Rattle.era_state.specs.Offsets.{number_before};
ghost use Rattle.reset_probe.specs.Rules.{era_probe, probe_before};
ghost use Rattle.reset_probe.specs.Answers.{reset_answer};

use era_state::{Era, Probe, Seg, Warm};
use wire_base::{sequence_before, sequence_plus};

/// Answer to an inbound reset of a live era.
#[derive(Clone, Copy)]
pub enum ResetAnswer {
    /// It passes, followed by this probe, if anything was sent outwards.
    Pass(Option<Probe>),
    /// T_RST: it is dropped.
    Refuse,
}

/// Judges an inbound reset of a live era.
pub fn judge_reset(era: &Era, seg: &Seg) -> ResetAnswer
    requires legal { tcp.are_legal seg.now.flags.0 ≡ true }
    requires rst { tcp.has_rst seg.now.flags.0 ≡ true }
    ensures { (ws : List Written) → StandsFor era.now ws → result ≡ reset_answer ws (came seg.now) }
{
    if era.is_stray_reset(seg) {
        ResetAnswer::Refuse
    } else {
        ResetAnswer::Pass(probe_of(era, seg))
    }
}

/// Returns the probe of a host about a segment of a live era: one below the number that the host
/// awaits, acknowledging what it sent, with the segment's window; none if it sent nothing.
pub fn probe_of(era: &Era, seg: &Seg) -> Option<Probe>
    ensures { (ws : List Written) → StandsFor era.now ws → result ≡ era_probe ws (came seg.now) }
{
    match era {
        Era::Called(era) => Some(before(seg.seq, era.out, seg)),
        Era::Offered(era) => match era.out {
            None => None,
            Some(out) => Some(before(era.base, out, seg)),
        },
        Era::Warm(era) => Some(warm_probe(era, seg)),
        Era::Closed(era) => Some(warm_probe(&era.last, seg)),
    }
}

// Returns the probe of an era in which an offset is acknowledged.
fn warm_probe(era: &Warm, seg: &Seg) -> Probe
    ensures { result ≡ probe_before (era.now.base + era.now.acked) era.now.out (came seg.now) }
{
    before(sequence_plus(era.base, era.acked), era.out, seg)
}

// Returns the probe one below a number.
fn before(number: u32, ack: u32, seg: &Seg) -> Probe
    ensures { result ≡ probe_before number ack (came seg.now) }
{
    Probe {
        seq: sequence_before(number),
        ack,
        window: seg.window,
    }
}
