//! A RST of a live era: T_RST drops it, or it passes and the era's probe follows it.
use crate::arrival::{Arrival, are_bits, bare_seg, options_change, rows_beside};
use crate::emit::report_dropped;
use crate::state::TcpNorm;
use crate::step::{Passage, Step};
use edge_io::Outbox;
use era_state::laws::silence_stands;
use linked_table::Slot;
use reset_probe::{ResetAnswer, judge_reset};
use rule_book::{Entry, Rule};
use tcp_codec::laws::segments_are_read_back;

impl TcpNorm {
    ghost use Rattle.std.specs.Prelude.{◌≡◌, true};
    ghost use Rattle.wire_base.specs.Tcp as tcp;
    ghost use Rattle.tcp_norm.specs.working.TableChanges.{IsReady};
    ghost use Rattle.tcp_norm.specs.working.PassingRoom.{HasRoom, IsBlank};
    ghost use Rattle.tcp_norm.specs.working.Rulings.{IsLiveIn, Answers};

    // Judges a RST, updates its era, and reports and sends what becomes of it.
    pub(super) fn judge_reset(
        &mut self,
        slot: Slot,
        arrival: &Arrival<'_>,
        out: &mut Outbox,
        entry: &mut Entry,
    ) -> bool
        requires live { IsLiveIn self.old arrival.now slot }
        requires rst { tcp.has_rst arrival.now.head.now.flags.0 ≡ true }
        requires ready { IsReady self.old arrival.now.time }
        requires empty { IsBlank out.old }
        requires ended { HasRoom entry.old }
        ensures { Answers arrival.now self.old self.new entry.old entry.new out.new result }
    {
        segments_are_read_back();
        silence_stands();
        are_bits(&arrival.packet.head, arrival.packet.payload);
        let seg = bare_seg(arrival);
        let flow = self.flow_at(slot);
        let number = flow.number;
        let answer = judge_reset(&flow.era, &seg);
        match answer {
            ResetAnswer::Refuse => {
                self.arrive(arrival.time);
                report_dropped(Rule::TRst, Some(number), 0, entry);
                false
            }
            ResetAnswer::Pass(probe) => {
                let changed = options_change(arrival);
                let rows = rows_beside(arrival, changed, probe.is_some());
                let step = Step::within(number);
                self.touch(slot, arrival.time);
                let passage = Passage {
                    step,
                    rows,
                    seq: arrival.head.seq,
                    fin: true,
                    size: 0,
                    probe,
                };
                self.pass(passage, arrival, out, entry)
            }
        }
    }
}
