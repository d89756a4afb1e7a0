//! A SYN of a live era: T_STATE or T_SYN drops it and a probe is sent, or it passes, in its era or
//! as the first segment of another.
ghost use Rattle.std.specs.Prelude.{◌≡◌, List};
ghost use Rattle.wire_base.specs.Segments.{Written};
ghost use Rattle.era_state.specs.Eras as eras;
ghost use Rattle.era_state.specs.Quantities.{octets_of};
ghost use Rattle.era_state.specs.SegmentFields.{came};
ghost use Rattle.era_state.specs.SynAnswers.{syn_answer, is_reopen};
ghost use Rattle.tcp_norm.specs.working.Rulings.{refused_by};
ghost use Rattle.tcp_norm.specs.working.EraSteps.{reopened_by};

use crate::arrival::{Arrival, are_bits, bare_seg, inward_key, options_change, rows_beside};
use crate::state::TcpNorm;
use crate::step::{Passage, Refusal, Ruling, Step};
use cold_start::cold_probe;
use edge_io::Outbox;
use era_state::{Era, Offered, Seg, SynAnswer};
use linked_table::Slot;
use reset_probe::probe_of;
use rule_book::{Entry, Rule};
use tcp_codec::laws::segments_are_read_back;

impl TcpNorm {
    ghost use Rattle.std.specs.Prelude.{◌≡◌, ◌-◌, ◌<◌, true};
    ghost use Rattle.wire_base.specs.Tcp as tcp;
    ghost use Rattle.tcp_norm.specs.working.TableChanges.{IsReady};
    ghost use Rattle.tcp_norm.specs.working.PassingRoom.{HasRoom, IsBlank};
    ghost use Rattle.tcp_norm.specs.working.Rulings.{IsLiveIn, Answers};

    // Judges a SYN, updates its era, and reports and sends what becomes of it.
    pub(super) fn judge_syn(
        &mut self,
        slot: Slot,
        arrival: &Arrival<'_>,
        out: &mut Outbox,
        entry: &mut Entry,
    ) -> bool
        requires live { IsLiveIn self.old arrival.now slot }
        requires ready { IsReady self.old arrival.now.time }
        requires syn { tcp.has_syn arrival.now.head.now.flags.0 ≡ true }
        requires empty { IsBlank out.old }
        requires ended { HasRoom entry.old }
        ensures { Answers arrival.now self.old self.new entry.old entry.new out.new result }
    {
        segments_are_read_back();
        are_bits(&arrival.packet.head, arrival.packet.payload);
        let seg = bare_seg(arrival);
        let flow = self.flow_at(slot);
        let era = &flow.era;
        let answer = era.judge_syn(&seg);
        if let Some(refusal) = refusal_of(answer, era, flow.number, &seg) {
            self.arrive(arrival.time);
            return self.carry_out(&Ruling::Drop(refusal), arrival, out, entry);
        }
        let changed = options_change(arrival);
        let rows = rows_beside(arrival, changed, false);
        let again = is_reopen(answer);
        let number = flow.number;
        if again {
            let step = reopening(era, number, self.begun + 1);
            let key = inward_key(arrival);
            self.offer(slot, key, &Offered::offer(&seg), arrival.time);
            let passage = Passage {
                step,
                rows,
                seq: arrival.head.seq,
                fin: true,
                size: 0,
                probe: None,
            };
            return self.pass(passage, arrival, out, entry);
        }
        self.hear(slot, &seg, arrival.time);
        let passage = Passage {
            step: Step::within(number),
            rows,
            seq: arrival.head.seq,
            fin: true,
            size: 0,
            probe: None,
        };
        self.pass(passage, arrival, out, entry)
    }
}

// Returns the refusal of a SYN of this era by T_STATE or T_SYN, if one of them holds.
fn refusal_of(answer: SynAnswer, era: &Era, number: u32, seg: &Seg) -> Option<Refusal>
    requires { (ws : List Written) → eras.StandsFor era.now ws → answer ≡ syn_answer ws (came seg.now) }
    ensures { (ws : List Written) → eras.StandsFor era.now ws → result ≡ refused_by ws (came seg.now) number }
{
    match answer {
        SynAnswer::Early => Some(Refusal {
            rule: Rule::TState,
            era: Some(number),
            probe: Some(cold_probe(seg)),
        }),
        SynAnswer::Stray => Some(Refusal {
            rule: Rule::TSyn,
            era: Some(number),
            probe: probe_of(era, seg),
        }),
        SynAnswer::Reopen | SynAnswer::Hear => None,
    }
}

// Returns whether a SYN ends its era and begins another.
fn is_reopen(answer: SynAnswer) -> bool
    ensures { result ≡ is_reopen answer }
{
    matches!(answer, SynAnswer::Reopen)
}

// Returns what a SYN does that ends this era and begins the one of the next number.
fn reopening(era: &Era, number: u32, next: u32) -> Step
    ensures { (ws : List Written) → eras.StandsFor era.now ws → result ≡ reopened_by number next (octets_of ws) }
{
    let count = era.octets();
    Step::reopened(next, number, count)
}
