//! Resets and probes computed by hand.
ghost use Rattle.std.specs.Prelude.{◌≡◌, true, false};
ghost use Rattle.wire_base.specs.Tcp as tcp;

use era_state::{Called, Era, Moved, Offered, Probe, Seg, Warm};
use ipv4_codec::Ipv4;
use reset_probe::{ResetAnswer, judge_reset, probe_of, write_probe};
use std::alloc::{AllocError, Global};
use std::process::Abort;
use std::test::Fail;
use wire_base::{Addr, Flags, protocol, u32_at};

const SYN: u8 = 2;

const SYN_ACK: u8 = 18;

const ACK: u8 = 16;

const FIN_ACK: u8 = 17;

const PSH_ACK: u8 = 24;

/// Segments written of an era.
#[derive(Clone, Copy)]
enum History {
    /// SYN 5000 outwards.
    Called,
    /// The same, and SYN 999 inwards with ACK of 5001.
    Answered,
    /// SYN 999 inwards.
    Offered,
    /// The same, and SYN 5000 outwards with ACK of 1000.
    Open,
    /// The same, and `abcd` at 1000 inwards.
    Sent,
    /// The same, and ACK of 1004 outwards.
    Acked,
    /// As `Open`, with both FINs, and ACK of 1001 outwards.
    Closed,
    /// As `Open`, and ACKs of 2147484647, 998 and 1001 outwards: 2^32 + 1 octets are acknowledged.
    Turned,
}

use History::{Acked, Answered, Closed, Open, Sent, Turned};

/// Reset of an era, without ACK or with ACK of a number, and its answer.
struct Row {
    history: History,
    seq: u32,
    ack: Option<u32>,
    says: &'static str,
}

#[rattlefmt::skip]
const RESETS: &[Row] = &[
    Row { history: History::Called, seq: 0, ack: Some(5001), says: "pass, probe 4294967295 5001 8192" },
    Row { history: History::Called, seq: 7, ack: Some(5000), says: "refuse" },
    Row { history: History::Called, seq: 7, ack: Some(5002), says: "refuse" },
    Row { history: History::Called, seq: 7, ack: None, says: "refuse" },
    Row { history: Answered, seq: 1000, ack: None, says: "pass, probe 999 5001 8192" },
    Row { history: Answered, seq: 7, ack: Some(5001), says: "refuse" },
    Row { history: History::Offered, seq: 1000, ack: None, says: "pass" },
    Row { history: History::Offered, seq: 999, ack: None, says: "refuse" },
    Row { history: History::Offered, seq: 1001, ack: None, says: "refuse" },
    Row { history: Open, seq: 1000, ack: None, says: "pass, probe 999 5001 8192" },
    Row { history: Open, seq: 1001, ack: None, says: "refuse" },
    Row { history: Sent, seq: 999, ack: None, says: "refuse" },
    Row { history: Sent, seq: 1000, ack: None, says: "pass, probe 999 5001 8192" },
    Row { history: Sent, seq: 1004, ack: Some(5001), says: "pass, probe 999 5001 8192" },
    Row { history: Sent, seq: 1005, ack: None, says: "refuse" },
    Row { history: Acked, seq: 1003, ack: None, says: "refuse" },
    Row { history: Acked, seq: 1004, ack: None, says: "pass, probe 1003 5001 8192" },
    Row { history: Acked, seq: 1005, ack: None, says: "refuse" },
    Row { history: Closed, seq: 1000, ack: None, says: "refuse" },
    Row { history: Closed, seq: 1001, ack: None, says: "pass, probe 1000 5002 8192" },
    Row { history: Turned, seq: 1000, ack: None, says: "refuse" },
    Row { history: Turned, seq: 1001, ack: None, says: "pass, probe 1000 5001 8192" },
    Row { history: Turned, seq: 1002, ack: None, says: "refuse" },
];

// Returns a segment with a window of 8192 and no window scale.
fn segment(flags: u8, seq: u32, ack: u32, len: u32) -> Seg
    ensures { result.flags.0 ≡ flags }
{
    Seg {
        seq,
        ack,
        len,
        window: 8192,
        flags: Flags(flags),
        scale: None,
    }
}

fn reset_of(row: &Row) -> Seg
    ensures legal { tcp.are_legal result.flags.0 ≡ true }
    ensures rst { tcp.has_rst result.flags.0 ≡ true }
{
    match row.ack {
        None => segment(4, row.seq, 0, 0),
        Some(ack) => segment(20, row.seq, ack, 0),
    }
}

// Returns the era after an outbound segment, and checks that it continues.
fn goes_out(rt: &impl Abort, era: Era, seg: &Seg) -> Era
    requires { tcp.are_legal seg.now.flags.0 ≡ true }
{
    assert!(rt; era.acknowledged() < 1 << 63, "too long");
    match era.outbound(seg) {
        Moved::Next(next) => next,
        _ => {
            assert!(rt; false, "the era does not go on");
            offered()
        }
    }
}

// Returns the era after an inbound segment that is forwarded.
fn comes_in(rt: &impl Abort, era: Era, seg: &Seg) -> Era
    requires legal { tcp.are_legal seg.now.flags.0 ≡ true }
    requires no_syn { tcp.has_syn seg.now.flags.0 ≡ false }
    requires no_rst { tcp.has_rst seg.now.flags.0 ≡ false }
{
    match era {
        Era::Warm(warm) => forwarded(rt, warm, seg),
        _ => {
            assert!(rt; false, "not warm");
            offered()
        }
    }
}

fn forwarded(rt: &impl Abort, warm: Warm, seg: &Seg) -> Era
    requires legal { tcp.are_legal seg.now.flags.0 ≡ true }
    requires no_syn { tcp.has_syn seg.now.flags.0 ≡ false }
    requires no_rst { tcp.has_rst seg.now.flags.0 ≡ false }
{
    let kept = warm.interval(seg);
    let fresh = (kept.hi - kept.lo) as u32;
    assert!(rt; warm.octets < 1 << 63, "too many");
    Era::settled(warm.forwarded(&kept, fresh))
}

fn called() -> Era {
    Era::Called(Called::call(&segment(SYN, 5000, 0, 0)))
}

fn offered() -> Era {
    Era::Offered(Offered::offer(&segment(SYN, 999, 0, 0)))
}

fn opened(rt: &impl Abort) -> Era {
    goes_out(rt, offered(), &segment(SYN_ACK, 5000, 1000, 0))
}

fn sent(rt: &impl Abort) -> Era {
    comes_in(rt, opened(rt), &segment(PSH_ACK, 1000, 5001, 4))
}

fn closed(rt: &impl Abort) -> Era {
    let era = goes_out(rt, opened(rt), &segment(FIN_ACK, 5001, 1000, 0));
    let era = comes_in(rt, era, &segment(FIN_ACK, 1000, 5002, 0));
    goes_out(rt, era, &segment(ACK, 5002, 1001, 0))
}

fn turned(rt: &impl Abort) -> Era {
    let era = goes_out(rt, opened(rt), &segment(ACK, 5001, 2147484647, 0));
    let era = goes_out(rt, era, &segment(ACK, 5001, 998, 0));
    goes_out(rt, era, &segment(ACK, 5001, 1001, 0))
}

fn era_of(rt: &impl Abort, history: History) -> Era {
    match history {
        History::Called => called(),
        History::Answered => called().seen_syn(&segment(SYN_ACK, 999, 5001, 0)),
        History::Offered => offered(),
        History::Open => opened(rt),
        History::Sent => sent(rt),
        History::Acked => goes_out(rt, sent(rt), &segment(ACK, 5001, 1004, 0)),
        History::Closed => closed(rt),
        History::Turned => turned(rt),
    }
}

fn answer_of(rt: &impl Abort, row: &Row) -> ResetAnswer {
    let era = era_of(rt, row.history);
    judge_reset(&era, &reset_of(row))
}

fn answer_text(alloc: Global, answer: ResetAnswer) -> Result<String, AllocError> {
    match answer {
        ResetAnswer::Pass(None) => String::from_str(alloc, "pass"),
        ResetAnswer::Pass(Some(probe)) => {
            format!(in alloc; "pass, probe {} {} {}", probe.seq, probe.ack, probe.window)
        }
        ResetAnswer::Refuse => String::from_str(alloc, "refuse"),
    }
}

#[test]
fn a_reset_passes_with_its_probe_or_is_refused(rt: HostRuntime) -> Result<(), Fail> {
    for (number, row) in RESETS.iter().enumerate() {
        let text = answer_text(rt.alloc(), answer_of(&rt, row))?;
        assert_eq!(rt; text.as_str(), row.says, "row {number}");
    }
    Ok(())
}

// Another SYN from outside causes a probe of the host, and that probe is written; octets after it
// in the buffer stay.
#[test]
fn another_call_is_asked_about(rt: HostRuntime) {
    let head = Ipv4 {
        header: 60,
        tos: 0,
        total: 60000,
        ident: 1,
        reserved: true,
        df: false,
        more: true,
        offset: 800,
        ttl: 64,
        protocol: protocol::TCP,
        sum: 0xabcd,
        src: Addr(0xc633_6407),
        dst: Addr(0x0a00_0001),
    };
    let call = segment(SYN, 7000, 0, 0);
    let probe = Probe {
        seq: 999,
        ack: 5001,
        window: 8192,
    };
    assert!(rt; probe_of(&opened(&rt), &call) == Some(probe));
    let mut buf = [0xee; 44];
    assert_eq!(rt; write_probe(&head, 40000, 80, &probe, &mut buf), 40);
    let words = [
        0x4500_0028,
        0x0001_0000,
        0x4006_4694,
        0xc633_6407,
        0x0a00_0001,
        0x9c40_0050,
        0x0000_03e7,
        0x0000_1389,
        0x5010_2000,
        0xa798_0000,
        0xeeee_eeee,
    ];
    for (i, word) in words.iter().enumerate() {
        assert_eq!(rt; u32_at(&buf, 4 * i), *word, "word {i}");
    }
}
