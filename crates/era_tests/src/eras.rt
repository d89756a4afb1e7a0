//! Connections whose quantities were computed by hand.
ghost use Rattle.std.specs.Prelude.{◌≡◌, true, false};
ghost use Rattle.wire_base.specs.Tcp as tcp;

use era_state::{Called, Era, Interval, Moved, Offered, Seg, SynAnswer, Warm};
use std::process::Abort;
use wire_base::Flags;

const FIN_ACK: u8 = 17;

const SYN: u8 = 2;

const SYN_ACK: u8 = 18;

const ACK: u8 = 16;

const PSH_ACK: u8 = 24;

const RST: u8 = 4;

// Returns a segment with a window of 8192 and no window scale.
fn segment(flags: u8, seq: u32, ack: u32, len: u32) -> Seg
    ensures { result.flags.0 ≡ flags }
{
    Seg {
        seq,
        ack,
        len,
        window: 8192,
        flags: Flags(flags),
        scale: None,
    }
}

// Returns the transition of an outbound segment, and checks that the stream is not too long.
fn moved(rt: &impl Abort, era: &Era, seg: &Seg) -> Moved
    requires { tcp.are_legal seg.now.flags.0 ≡ true }
{
    assert!(rt; era.acknowledged() < 1 << 63, "too long");
    (*era).outbound(seg)
}

// Returns the era after an outbound segment, and checks that it continues.
fn goes_out(rt: &impl Abort, era: Era, seg: &Seg) -> Era
    requires { tcp.are_legal seg.now.flags.0 ≡ true }
{
    match moved(rt, &era, seg) {
        Moved::Next(next) => next,
        _ => {
            assert!(rt; false, "the era does not go on");
            era
        }
    }
}

// Interval of a segment that is not forwarded at all.
const NOTHING: Interval = Interval {
    lo: 0,
    hi: 0,
    fin: false,
    below: false,
    window: false,
    end: false,
};

// Forwards an inbound segment; `old` of its offsets had an octet before. Returns its interval, the
// sequence number of its frame, and the era after it.
fn comes_again(rt: &impl Abort, era: Era, seg: &Seg, old: u32) -> (Interval, u32, Era)
    requires legal { tcp.are_legal seg.now.flags.0 ≡ true }
    requires no_syn { tcp.has_syn seg.now.flags.0 ≡ false }
    requires no_rst { tcp.has_rst seg.now.flags.0 ≡ false }
{
    match warm_of(&era) {
        Some(warm) => forwarded(rt, warm, seg, old),
        None => {
            assert!(rt; false, "not warm");
            (NOTHING, seg.seq, era)
        }
    }
}

fn forwarded(rt: &impl Abort, warm: Warm, seg: &Seg, old: u32) -> (Interval, u32, Era)
    requires legal { tcp.are_legal seg.now.flags.0 ≡ true }
    requires no_syn { tcp.has_syn seg.now.flags.0 ≡ false }
    requires no_rst { tcp.has_rst seg.now.flags.0 ≡ false }
{
    let kept = warm.interval(seg);
    let number = warm.frame_sequence(seg, &kept);
    let fresh = ((kept.hi - kept.lo) as u32).saturating_sub(old);
    assert!(rt; warm.octets < 1 << 63, "too many");
    (kept, number, Era::settled(warm.forwarded(&kept, fresh)))
}

// Forwards an inbound segment at offsets without octets.
fn comes_in(rt: &impl Abort, era: Era, seg: &Seg) -> (Interval, u32, Era)
    requires legal { tcp.are_legal seg.now.flags.0 ≡ true }
    requires no_syn { tcp.has_syn seg.now.flags.0 ≡ false }
    requires no_rst { tcp.has_rst seg.now.flags.0 ≡ false }
{
    comes_again(rt, era, seg, 0)
}

fn warm_of(era: &Era) -> Option<Warm> {
    match era {
        Era::Warm(warm) => Some(*warm),
        Era::Closed(closed) => Some(closed.last),
        _ => None,
    }
}

// Returns Edge.
fn edge_of(era: &Era) -> Option<u64> {
    match warm_of(era) {
        Some(warm) => Some(warm.edge),
        None => None,
    }
}

// Returns the number after the last outbound segment.
fn out_of(era: &Era) -> Option<u32> {
    match warm_of(era) {
        Some(warm) => Some(warm.out),
        None => None,
    }
}

// Returns the connection of SYN 999 from outside, SYN ACK 5000 with this window, and ACK 5001.
fn opened(rt: &impl Abort, window: u16) -> Era {
    let era = Era::Offered(Offered::offer(&segment(SYN, 999, 0, 0)));
    let answer = Seg {
        window,
        ..segment(SYN_ACK, 5000, 1000, 0)
    };
    let era = goes_out(rt, era, &answer);
    let (_, _, era) = comes_in(rt, era, &segment(ACK, 1000, 5001, 0));
    era
}

// Ten segments with a window scale of 7 on both sides, up to both FINs; then another SYN.
#[test]
fn closes_and_reopens(rt: HostRuntime) {
    let call = Seg {
        scale: Some(7),
        ..segment(SYN, 999, 0, 0)
    };
    let answer = Seg {
        scale: Some(7),
        ..segment(SYN_ACK, 5000, 1000, 0)
    };
    let era = goes_out(&rt, Era::Offered(Offered::offer(&call)), &answer);
    assert!(rt;
        edge_of(&era) == Some(8192),
        "the window of a SYN is not scaled"
    );
    let (_, _, era) = comes_in(&rt, era, &segment(ACK, 1000, 5001, 0));
    let (request, _, era) = comes_in(&rt, era, &segment(PSH_ACK, 1000, 5001, 18));
    assert!(rt; request.lo == 0 && request.hi == 18);
    let era = goes_out(&rt, era, &segment(ACK, 5001, 1018, 0));
    assert!(rt; edge_of(&era) == Some(18 + 8192 * 128));
    let era = goes_out(&rt, era, &segment(PSH_ACK, 5001, 1018, 19));
    let era = goes_out(&rt, era, &segment(FIN_ACK, 5020, 1018, 0));
    assert!(rt; out_of(&era) == Some(5021));
    let (last, _, era) = comes_in(&rt, era, &segment(FIN_ACK, 1018, 5021, 0));
    assert!(rt; last.fin && !last.end && last.hi == 18);
    assert!(rt; era.next_place() == Some(19));
    assert!(rt; era.octets() == 18);
    assert!(rt; !era.is_reopened_by(&segment(SYN, 70000, 0, 0)));
    let era = goes_out(&rt, era, &segment(ACK, 5021, 1019, 0));
    assert!(rt; era.is_reopened_by(&segment(SYN, 70000, 0, 0)));
    assert!(rt; matches!(era.judge_syn(&segment(SYN, 70000, 0, 0)), SynAnswer::Reopen));
    assert!(rt; !era.is_reopened_by(&call));
}

// Returns whether five of ten octets are forwarded: after the two that are acknowledged, the four
// of the window and one more.
fn is_cut(era: &Era) -> bool {
    let long = segment(PSH_ACK, 1000, 5001, 10);
    match warm_of(era) {
        Some(warm) => {
            let kept = warm.interval(&long);
            kept.lo == 2
                && kept.hi == 7
                && kept.below
                && kept.window
                && !kept.end
                && !kept.fin
                && warm.frame_sequence(&long, &kept) == 1002
                && warm.octets_before(&long, &kept) == 2
        }
        None => false,
    }
}

// A window of 4 octets: octets below it and more than one past it are cut off.
#[test]
fn cuts_to_the_window(rt: HostRuntime) {
    let (first, _, era) = comes_in(&rt, opened(&rt, 4), &segment(PSH_ACK, 1000, 5001, 2));
    assert!(rt; first.lo == 0 && first.hi == 2 && !first.below && !first.window);
    let narrow = Seg {
        window: 4,
        ..segment(ACK, 5001, 1002, 0)
    };
    let era = goes_out(&rt, era, &narrow);
    assert!(rt; is_cut(&era), "cdefg");
}

// FINs before, at and after the end of the octets received.
#[test]
fn pins_one_end(rt: HostRuntime) {
    let (_, _, era) = comes_in(&rt, opened(&rt, 8192), &segment(PSH_ACK, 1004, 5001, 4));
    let (early, number, era) = comes_in(&rt, era, &segment(FIN_ACK, 1000, 5001, 4));
    assert!(rt; early.end && !early.fin && early.lo == 0 && early.hi == 4 && number == 1000);
    let (last, number, era) = comes_in(&rt, era, &segment(FIN_ACK, 1008, 5001, 0));
    assert!(rt; !last.end && last.fin && last.lo == last.hi && number == 1008);
    let (late, number, era) = comes_in(&rt, era, &segment(FIN_ACK, 1009, 5001, 0));
    assert!(rt; late.end && !late.fin && number == 1009);
    let (past, number, era) = comes_in(&rt, era, &segment(ACK, 1008, 5001, 2));
    assert!(rt; past.end && past.lo == past.hi && number == 1008);
    assert!(rt; era.next_place() == Some(9));
}

// Sequence numbers pass 2^32, and offsets pass 2^31.
#[test]
fn wraps(rt: HostRuntime) {
    let era = Era::Offered(Offered::offer(&segment(SYN, 4294967294, 0, 0)));
    let era = goes_out(&rt, era, &segment(SYN_ACK, 5000, 4294967295, 0));
    let (first, number, era) = comes_in(&rt, era, &segment(PSH_ACK, 4294967295, 5001, 4));
    assert!(rt; first.lo == 0 && first.hi == 4 && number == 4294967295);
    let era = goes_out(&rt, era, &segment(ACK, 5001, 3, 0));
    assert!(rt; era.acknowledged() == 4);
    let era = goes_out(&rt, era, &segment(ACK, 5001, 2147483646, 0));
    let (last, number, _) = comes_in(&rt, era, &segment(PSH_ACK, 2147483646, 5001, 2));
    assert!(rt; last.lo == 2147483647 && last.hi == 2147483649 && number == 2147483646);
    assert!(rt; !last.below && !last.window);
}

// A stream passes offset 2^32: numbers are read relative to Acked, and octets and the window
// continue.
#[test]
fn passes_a_turn(rt: HostRuntime) {
    let era = goes_out(&rt, opened(&rt, 8192), &segment(ACK, 5001, 2147484647, 0));
    assert!(rt; era.acknowledged() == 2147483647);
    let era = goes_out(&rt, era, &segment(ACK, 5001, 998, 0));
    assert!(rt; era.acknowledged() == 4294967294);
    let (first, number, era) = comes_in(&rt, era, &segment(PSH_ACK, 998, 5001, 4));
    assert!(rt; first.lo == 4294967294 && first.hi == 4294967298 && number == 998);
    assert!(rt; !first.below && !first.window && !first.end);
    let era = goes_out(&rt, era, &segment(ACK, 5001, 1001, 0));
    assert!(rt; era.acknowledged() == 4294967297);
    assert!(rt; era.octets() == 4, "also those that are acknowledged");
    let (again, number, era) = comes_again(&rt, era, &segment(PSH_ACK, 1000, 5001, 4), 1);
    assert!(rt;
        again.lo == 4294967297 && again.hi == 4294967300 && number == 1001,
        "bcd"
    );
    assert!(rt; again.below && !again.window && !again.end);
    assert!(rt; era.octets() == 6, "b stands where z did");
}

// The inside opens a connection, and the outside answers.
#[test]
fn answers_the_inside(rt: HostRuntime) {
    let era = Era::Called(Called::call(&segment(SYN, 5000, 0, 0)));
    assert!(rt; era.is_early(&segment(SYN_ACK, 999, 7000, 0)));
    assert!(rt;
        matches!(
            era.judge_syn(&segment(SYN_ACK, 999, 7000, 0)),
            SynAnswer::Early
        )
    );
    let answer = segment(SYN_ACK, 999, 5001, 0);
    assert!(rt; !era.is_early(&answer) && era.next_place() == None);
    let era = era.seen_syn(&answer);
    assert!(rt; era.is_early(&segment(PSH_ACK, 1000, 5001, 4)));
    let era = goes_out(&rt, era, &segment(ACK, 5001, 1000, 0));
    assert!(rt; !era.is_early(&segment(PSH_ACK, 1000, 5001, 4)));
    let (kept, _, _) = comes_in(&rt, era, &segment(PSH_ACK, 1000, 5001, 4));
    assert!(rt; kept.lo == 0 && kept.hi == 4);
}

// Another SYN and resets of an open connection.
#[test]
fn refuses_strays(rt: HostRuntime) {
    let era = opened(&rt, 8192);
    assert!(rt;
        era.is_stray_syn(&segment(SYN, 7000, 0, 0)) && !era.is_stray_syn(&segment(SYN, 999, 0, 0))
    );
    assert!(rt; matches!(era.judge_syn(&segment(SYN, 7000, 0, 0)), SynAnswer::Stray));
    assert!(rt; matches!(era.judge_syn(&segment(SYN, 999, 0, 0)), SynAnswer::Hear));
    assert!(rt; !era.is_stray_reset(&segment(RST, 1000, 0, 0)));
    let (_, _, era) = comes_in(&rt, era, &segment(PSH_ACK, 1000, 5001, 4));
    let era = goes_out(&rt, era, &segment(ACK, 5001, 1004, 0));
    assert!(rt; era.is_stray_reset(&segment(RST, 1003, 0, 0)));
    assert!(rt; matches!(moved(&rt, &era, &segment(RST, 5001, 0, 0)), Moved::Reset));
    assert!(rt; matches!(moved(&rt, &era, &segment(SYN, 9000, 0, 0)), Moved::Reopen));
}
