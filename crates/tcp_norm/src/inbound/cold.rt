//! A segment of a connection that has no live era.
ghost use Rattle.std.specs.Prelude.{◌≡◌};
ghost use Rattle.tcp_norm.specs.working.ColdDatagrams.{are_of_call};

use crate::arrival::{Arrival, are_bits, bare_seg, options_change, rows_beside};
use crate::emit::report_dropped;
use crate::key::EraKey;
use crate::state::TcpNorm;
use crate::step::{Passage, Question, Ruling, Step};
use cold_start::{ColdAnswer, cold};
use edge_io::Outbox;
use era_state::{Era, Offered};
use linked_table::Hashed;
use rule_book::{Entry, Rule};
use tcp_codec::laws::segments_are_read_back;
use wire_base::Flags;

impl TcpNorm {
    ghost use Rattle.std.specs.Prelude.{◌≡◌, ◌<◌, true};
    ghost use Rattle.tcp_norm.specs.working.ColdDatagrams.{are_of_call};
    ghost use Rattle.tcp_norm.specs.working.TableChanges.{IsAbsent, IsReady};
    ghost use Rattle.tcp_norm.specs.working.PassingRoom.{HasRoom, IsBlank};
    ghost use Rattle.tcp_norm.specs.working.Rulings.{IsKeyed, Answers};

    // Judges a segment: it begins an era, its host is asked about it, or a rule drops it.
    pub(super) fn judge_cold(
        &mut self,
        hashed: &Hashed<EraKey>,
        arrival: &Arrival<'_>,
        out: &mut Outbox,
        entry: &mut Entry,
    ) -> bool
        requires absent { IsAbsent self.old hashed.now.key.0 }
        requires keyed { IsKeyed arrival.now hashed.now.key.0 }
        requires ready { IsReady self.old arrival.now.time }
        requires empty { IsBlank out.old }
        requires ended { HasRoom entry.old }
        ensures { Answers arrival.now self.old self.new entry.old entry.new out.new result }
    {
        if are_of_call(arrival.head.flags) {
            return self.judge_call(hashed, arrival, out, entry);
        }
        let seg = bare_seg(arrival);
        match cold(&seg) {
            ColdAnswer::Refuse => {
                self.arrive(arrival.time);
                report_dropped(Rule::TCold, None, 0, entry);
                false
            }
            ColdAnswer::Probe(probe) => {
                self.arrive(arrival.time);
                let changed = options_change(arrival);
                let rows = rows_beside(arrival, changed, true);
                let ruling = Ruling::Ask(Question { rows, probe });
                self.carry_out(&ruling, arrival, out, entry)
            }
            ColdAnswer::Begin(_) => unreachable!(),
        }
    }

    // Judges a SYN without ACK: it begins an era, or T_FULL drops it. Whether there is room is
    // asked first, since floods of SYNs find none.
    fn judge_call(
        &mut self,
        hashed: &Hashed<EraKey>,
        arrival: &Arrival<'_>,
        out: &mut Outbox,
        entry: &mut Entry,
    ) -> bool
        requires call { are_of_call arrival.now.head.now.flags.0 ≡ true }
        requires absent { IsAbsent self.old hashed.now.key.0 }
        requires keyed { IsKeyed arrival.now hashed.now.key.0 }
        requires ready { IsReady self.old arrival.now.time }
        requires empty { IsBlank out.old }
        requires ended { HasRoom entry.old }
        ensures { Answers arrival.now self.old self.new entry.old entry.new out.new result }
    {
        match self.room() {
            None => {
                self.arrive(arrival.time);
                report_dropped(Rule::TFull, None, 0, entry);
                false
            }
            Some(room) => {
                segments_are_read_back();
                are_bits(&arrival.packet.head, arrival.packet.payload);
                let seg = bare_seg(arrival);
                let era = Era::Offered(Offered::offer(&seg));
                let place = self.admit(room, hashed, &era, arrival.time);
                let changed = options_change(arrival);
                let rows = rows_beside(arrival, changed, false);
                let passage = Passage {
                    step: Step::begun(place),
                    rows,
                    seq: arrival.head.seq,
                    fin: true,
                    size: 0,
                    probe: None,
                };
                self.pass(passage, arrival, out, entry)
            }
        }
    }
}

// Returns whether these are the flags of a segment by which the outside opens a connection.
fn are_of_call(flags: Flags) -> bool
    ensures { result ≡ are_of_call flags.0 }
{
    flags.syn() & !flags.ack() & !flags.rst()
}
