//! Segments without a live era, and their answers, computed by hand.
ghost use Rattle.std.specs.Prelude.{◌≡◌, true};
ghost use Rattle.wire_base.specs.Tcp as tcp;

use cold_start::{ColdAnswer, cold, warm_from};
use era_state::{Seg, Warm};
use std::alloc::{AllocError, Global};
use std::test::Fail;
use wire_base::Flags;

/// Flags of a segment; the last three include a flag that no rule reads.
#[derive(Clone, Copy)]
enum Kind {
    Syn,
    SynAck,
    Ack,
    FinAck,
    Rst,
    RstAck,
    SynCwrEce,
    PshAck,
    UrgAck,
}

use Kind::{Ack, FinAck, PshAck, Rst, RstAck, Syn, SynAck, SynCwrEce, UrgAck};

fn flags_of(kind: Kind) -> u8
    ensures { tcp.are_legal result ≡ true }
{
    match kind {
        Kind::Syn => 2,
        Kind::SynAck => 18,
        Kind::Ack => 16,
        Kind::FinAck => 17,
        Kind::Rst => 4,
        Kind::RstAck => 20,
        Kind::SynCwrEce => 194,
        Kind::PshAck => 24,
        Kind::UrgAck => 48,
    }
}

/// Segment's flags, sequence number, acknowledgment and number of octets, with a window of 8192;
/// and its answer.
struct Row {
    kind: Kind,
    seq: u32,
    ack: u32,
    len: u32,
    says: &'static str,
}

#[rattlefmt::skip]
const INBOUND: &[Row] = &[
    Row { kind: Syn, seq: 999, ack: 0, len: 0, says: "begin 1000" },
    Row { kind: SynCwrEce, seq: 999, ack: 0, len: 0, says: "begin 1000" },
    Row { kind: Syn, seq: 4_294_967_295, ack: 0, len: 0, says: "begin 0" },
    Row { kind: Syn, seq: 999, ack: 0, len: 4, says: "begin 1000" },
    Row { kind: SynAck, seq: 999, ack: 5001, len: 0, says: "refuse" },
    Row { kind: Rst, seq: 999, ack: 0, len: 0, says: "refuse" },
    Row { kind: RstAck, seq: 999, ack: 5001, len: 0, says: "refuse" },
    Row { kind: PshAck, seq: 1000, ack: 5001, len: 4, says: "probe 999 5001 8192" },
    Row { kind: Ack, seq: 1000, ack: 5001, len: 0, says: "probe 999 5001 8192" },
    Row { kind: FinAck, seq: 1000, ack: 5001, len: 0, says: "probe 999 5001 8192" },
    Row { kind: UrgAck, seq: 1, ack: 4_294_967_295, len: 1, says: "probe 0 4294967295 8192" },
    Row { kind: Ack, seq: 0, ack: 0, len: 0, says: "probe 4294967295 0 8192" },
];

// A window of 8192 allows 8,192 octets after the acknowledgment of a SYN, and 134,217,728 after
// that of another segment, at the greatest scale.
#[rattlefmt::skip]
const OUTBOUND: &[Row] = &[
    Row { kind: SynAck, seq: 5000, ack: 1000, len: 0, says: "base 1000 out 5001 edge 8192" },
    Row { kind: Ack, seq: 5001, ack: 1000, len: 0, says: "base 1000 out 5001 edge 134217728" },
    Row { kind: PshAck, seq: 5001, ack: 1000, len: 3, says: "base 1000 out 5004 edge 134217728" },
    Row { kind: FinAck, seq: 5001, ack: 1000, len: 3, says: "base 1000 out 5005 edge 134217728 fin" },
    Row { kind: Ack, seq: 4_294_967_295, ack: 0, len: 1, says: "base 0 out 0 edge 134217728" },
    Row { kind: Syn, seq: 5000, ack: 0, len: 0, says: "none" },
    Row { kind: Rst, seq: 5001, ack: 0, len: 0, says: "none" },
    Row { kind: RstAck, seq: 5001, ack: 1000, len: 0, says: "none" },
];

fn segment_of(row: &Row) -> Seg
    ensures { tcp.are_legal result.flags.0 ≡ true }
{
    Seg {
        seq: row.seq,
        ack: row.ack,
        len: row.len,
        window: 8192,
        flags: Flags(flags_of(row.kind)),
        scale: None,
    }
}

fn answer_text(alloc: Global, answer: ColdAnswer) -> Result<String, AllocError> {
    match answer {
        ColdAnswer::Begin(era) => format!(in alloc; "begin {}", era.base),
        ColdAnswer::Probe(probe) => {
            format!(in alloc; "probe {} {} {}", probe.seq, probe.ack, probe.window)
        }
        ColdAnswer::Refuse => String::from_str(alloc, "refuse"),
    }
}

fn era_text(alloc: Global, era: Option<Warm>) -> Result<String, AllocError> {
    let Some(era) = era else {
        return String::from_str(alloc, "none");
    };
    let fin = if era.out_fin { " fin" } else { "" };
    format!(in alloc; "base {} out {} edge {}{fin}", era.base, era.out, era.edge)
}

#[test]
fn an_unknown_inbound_segment_begins_an_era_is_asked_about_or_is_refused(
    rt: HostRuntime,
) -> Result<(), Fail> {
    for (number, row) in INBOUND.iter().enumerate() {
        let text = answer_text(rt.alloc(), cold(&segment_of(row)))?;
        assert_eq!(rt; text.as_str(), row.says, "row {number}");
    }
    Ok(())
}

#[test]
fn an_unknown_outbound_segment_begins_an_era_where_it_acknowledges(
    rt: HostRuntime,
) -> Result<(), Fail> {
    for (number, row) in OUTBOUND.iter().enumerate() {
        let text = era_text(rt.alloc(), warm_from(&segment_of(row)))?;
        assert_eq!(rt; text.as_str(), row.says, "row {number}");
    }
    Ok(())
}
