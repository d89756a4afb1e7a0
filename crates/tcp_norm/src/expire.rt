//! Eras end for being idle.
use crate::key::Flow;
use crate::state::TcpNorm;
use rule_book::{Ended, Entry, Reason};

impl TcpNorm {
    ghost use Rattle.std.specs.Prelude.{◌≡◌, ◌+◌, ◌≤◌, nat_lt, ℕ, List, [], ◌∷◌};
    ghost use Rattle.wire_base.specs.Segments.{Written};
    ghost use Rattle.norm_settings.specs.SettingValues.{PlainSettings};
    ghost use Rattle.tcp_norm.specs.Calls.{Alive, Call, segments};
    ghost use Rattle.tcp_norm.specs.RuleViews.{idle_at};
    ghost use Rattle.tcp_norm.specs.working.EraSteps.{EndsIdle};
    ghost use Rattle.tcp_norm.specs.IdleEnds.{idled};
    ghost use Rattle.tcp_norm.specs.Outcomes.{expiry_of};
    ghost use Rattle.tcp_norm.specs.TableAndStore.{StandsFor};
    ghost use Rattle.tcp_norm.specs.working.TableChanges.{Holds, ChangesTables};

    /// Ends the eras, at most two, in which nothing was written for more than `idle` seconds, the
    /// least recently written first, and appends them to the entry.
    // It is inlined: few records end an era, so the step tests the oldest era without a call.
    #[inline(always)]
    pub fn expire(&mut self, now: u32, entry: &mut Entry)
        requires none { entry.old.ended.items ≡ [] }
        requires later { self.old.latest ≤ now }
        ensures stands { (settings : PlainSettings) (calls : List Call) → StandsFor settings self.old calls →
            StandsFor settings self.new (expiry_of settings calls now ∷ calls) }
        ensures entry { (settings : PlainSettings) (calls : List Call) → StandsFor settings self.old calls →
            entry.new.ended.items ≡ idled (λ number. segments number calls) (idle_at settings now calls) }
        ensures rest { entry.new ≡ record entry.old { ended = entry.new.ended } }
    {
        self.latest = now;
        let offered = self.end_idle(now);
        let Some(first) = offered else {
            return;
        };
        add_idle(entry, first);
        let offered = self.end_idle(now);
        let Some(second) = offered else {
            return;
        };
        add_idle(entry, second);
    }

    // Ends the least recently touched era, if it is idle.
    #[inline(always)]
    fn end_idle(&mut self, now: u32) -> Option<Ended>
        ensures ends { (lives : List Alive) (segments : ℕ → List Written) → Holds self.old lives segments → EndsIdle self.old self.new now lives segments result }
        ensures tables { ChangesTables self.old self.new self.old.begun }
    {
        self.entries_are_apart();
        let slot = self.table.oldest()?;
        let flow = self.flow_at(slot);
        if !self.is_idle(flow, now) {
            return None;
        }
        let number = flow.number;
        let octets = flow.era.octets();
        self.end(slot);
        Some(Ended {
            era: number,
            reason: Reason::Idle,
            octets: Some(octets),
        })
    }

    // Returns whether nothing was written in the era for more than `idle` seconds.
    fn is_idle(&self, flow: &Flow, now: u32) -> bool
        ensures { result ≡ nat_lt (flow.now.touched + self.now.limits.idle) now }
    {
        u64::from(flow.touched) + u64::from(self.limits.idle) < u64::from(now)
    }
}

// Appends an era that ended.
fn add_idle(entry: &mut Entry, ended: Ended)
    requires { HasRoom entry.old }
    ensures ended { entry.new.ended.items ≡ entry.old.ended.items ++ ended ∷ [] }
    ensures rest { entry.new ≡ record entry.old { ended = entry.new.ended } }
{
    entry.ended.push(ended);
}

ghost use Rattle.std.specs.Prelude.{◌≡◌, ◌++◌, [], ◌∷◌};
ghost use Rattle.tcp_norm.specs.working.PassingRoom.{HasRoom};
