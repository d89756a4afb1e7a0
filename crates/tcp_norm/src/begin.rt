//! Eras begin and end.
use crate::key::{EraKey, Flow};
use crate::state::TcpNorm;
use crate::step::{Place, Room};
use crate::update::list_spare;
use era_state::Era;
use linked_table::{Hashed, Slot};
use retain_store::ChainId;
use rule_book::{Ended, Reason};
use wire_base::FlowKey;

impl TcpNorm {
    ghost use Rattle.std.specs.Prelude.{◌≡◌, ◌+◌, ◌-◌, ◌<◌, ℕ, IfSome, IfNone, None, List, [], ◌∷◌, Option, Some, is_some, ◌++◌, length, if◌then◌else◌};
    ghost use Rattle.wire_base.specs.Segments.{Written};
    ghost use Rattle.norm_settings.specs.SettingValues.{PlainSettings};
    ghost use Rattle.linked_table.specs.EntryTable.{HasNone, IsIn, Wherever};
    ghost use Rattle.linked_table.specs.Listing.{first_of};
    ghost use Rattle.ip_rules.specs.Datagrams.{Datagram};
    ghost use Rattle.tcp_norm.specs.Calls.{Call, Outcome, datagram, key_of, Alive, without};
    ghost use Rattle.tcp_norm.specs.RuleViews.{view_of};
    ghost use Rattle.tcp_norm.specs.working.ColdDatagrams.{IsUnheard};
    ghost use Rattle.tcp_norm.specs.HeldOctets.{kept_at};
    ghost use Rattle.tcp_norm.specs.working.EraBounds.{IsNear};
    ghost use Rattle.tcp_norm.specs.working.EraSteps.{Does, Evicts, IsRoom, Places, began, place_in, reopened_by};
    ghost use Rattle.tcp_norm.specs.working.TableChanges.{IsAbsent, IsNew, IsReady, Holds, Begins, ChangesTables};
    ghost use Rattle.tcp_norm.specs.TableAndStore.{StandsFor};
    ghost use Rattle.tcp_norm.specs.declared.key.EraKey.{EraKey};
    ghost use Rattle.tcp_norm.specs.declared.key.Flow.{Flow};
    ghost use Rattle.tcp_norm.specs.working.Rulings.{IsCounted};
    ghost use Rattle.era_state.specs.Eras as eras;
    ghost use Rattle.linked_table.specs.EntryTable as table;

    /// Returns where an era can begin, or `None` if as many are live as may be and each of them
    /// holds octets.
    #[inline(always)]
    pub(crate) fn room(&self) -> Option<Room>
        ensures some { IfSome result (IsRoom self.now.table.entries self.now.table.max self.now.spare.slots) }
        ensures none { IfNone result ((settings : PlainSettings) (calls : List Call) (d : Datagram) → StandsFor settings self.now calls → place_in (view_of settings calls d) ≡ None) }
    {
        if self.table.len() < self.table.max() {
            return Some(Room::Free);
        }
        match self.spare.first() {
            None => None,
            Some(slot) => Some(Room::Spare(slot)),
        }
    }

    /// Begins an era there with a segment that arrives at this time.
    #[inline(always)]
    pub(crate) fn admit(
        &mut self,
        room: Room,
        hashed: &Hashed<EraKey>,
        era: &Era,
        now: u32,
    ) -> Place
        requires room { IsRoom self.old.table.entries self.old.table.max self.old.spare.slots room }
        requires absent { IsAbsent self.old hashed.now.key.0 }
        requires near { IsNear (self.old.calls + 1) era.now }
        requires ready { IsReady self.old now }
        ensures answer { (settings : PlainSettings) (calls : List Call) (d : Datagram) → StandsFor settings self.old calls → Some result ≡ place_in (view_of settings calls d) }
        ensures stands { (settings : PlainSettings) (calls : List Call) (d : Datagram) (w : Written) (o : Outcome) → StandsFor settings self.old calls →
            key_of d ≡ hashed.now.key.0 → eras.StandsFor era.now (w ∷ []) → ((offset : ℕ) → kept_at (w ∷ []) offset ≡ None) → Does d w (began result) o → StandsFor settings self.new (datagram now d o ∷ calls) }
    {
        self.calls += 1;
        self.latest = now;
        self.place(room, hashed, era, now)
    }

    // Ends the era in this slot, the least recently touched one that holds no octet.
    #[inline(always)]
    fn evict(&mut self, slot: Slot) -> Ended
        requires { Some slot ≡ first_of self.old.spare.slots }
        ensures evicts { (lives : List Alive) (segments : ℕ → List Written) → Holds self.old lives segments → Evicts self.old self.new lives segments result }
        ensures absent { (key : EraKey) → HasNone self.old.table.entries key → HasNone self.new.table.entries key }
        ensures room { length self.new.table.entries < self.new.table.max }
        ensures tables { ChangesTables self.old self.new self.old.begun }
    {
        self.entries_are_apart();
        let flow = self.flow_at(slot);
        let number = flow.number;
        let octets = flow.era.octets();
        self.end(slot);
        Ended {
            era: number,
            reason: Reason::Evicted,
            octets: Some(octets),
        }
    }

    // Begins an era of a connection that has none: in a free slot, or in the slot of one that holds
    // no octet.
    #[inline(always)]
    pub(crate) fn place(
        &mut self,
        room: Room,
        hashed: &Hashed<EraKey>,
        era: &Era,
        now: u32,
    ) -> Place
        requires room { IsRoom self.old.table.entries self.old.table.max self.old.spare.slots room }
        requires fresh { IsNew self.old hashed.now.key.0 era.now }
        ensures places { (lives : List Alive) (segments : ℕ → List Written) → Holds self.old lives segments → Places self.old self.new hashed.now.key.0 era.now now lives segments result }
        ensures tables { ChangesTables self.old self.new (self.old.begun + 1) }
    {
        match room {
            Room::Free => {
                self.begin(hashed, era, now);
                Place {
                    begun: self.begun,
                    evicted: None,
                }
            }
            Room::Spare(slot) => {
                let ended = self.evict(slot);
                self.begin(hashed, era, now);
                Place {
                    begun: self.begun,
                    evicted: Some(ended),
                }
            }
        }
    }

    // Begins an era of a connection that has none, where fewer are live than may be. It holds no
    // octet.
    pub(crate) fn begin(&mut self, hashed: &Hashed<EraKey>, era: &Era, now: u32)
        requires fresh { IsNew self.old hashed.now.key.0 era.now }
        requires room { length self.old.table.entries < self.old.table.max }
        ensures holds { (lives : List Alive) (segments later : ℕ → List Written) → Holds self.old lives segments → Begins era.now (self.old.begun + 1) segments later →
            Holds self.new (lives ++ record { number = self.old.begun + 1; key = hashed.now.key.0; touched = now } ∷ []) later }
        ensures tables { ChangesTables self.old self.new (self.old.begun + 1) }
    {
        let number = self.begun + 1;
        let flow = Flow {
            era: *era,
            number,
            touched: now,
        };
        match self.table.insert_hashed(hashed, flow) {
            Ok(slot) => list_spare(&mut self.spare, &self.store, slot),
            Err(_) => unreachable!(),
        }
        self.begun = number;
    }

    /// Ends the live era in this slot and begins another of its connection with a segment that
    /// arrives at this time.
    pub(crate) fn reopen(&mut self, slot: Slot, key: FlowKey, era: &Era, now: u32)
        requires inside { IsIn self.old.table.entries slot }
        requires keyed { Wherever self.old.table.entries slot (λ e. e.key.0 ≡ key) }
        requires near { IsNear (self.old.calls + 1) era.now }
        requires ready { IsReady self.old now }
        ensures { (settings : PlainSettings) (calls : List Call) (d : Datagram) (w : Written) (flow : Flow) (octets : ℕ) (o : Outcome) → StandsFor settings self.old calls →
            Wherever self.old.table.entries slot (λ e. e.value ≡ flow) → key ≡ key_of d → eras.StandsFor era.now (w ∷ []) → ((offset : ℕ) → kept_at (w ∷ []) offset ≡ None) →
            Does d w (reopened_by flow.number (self.old.begun + 1) octets) o → IsCounted settings calls d o now self.old self.new }
    {
        self.entries_are_apart();
        self.calls += 1;
        self.latest = now;
        self.end(slot);
        let hashed = self.table.hashed(EraKey(key));
        self.begin(&hashed, era, now);
    }

    // Ends the era in this slot: its octets and its entry are removed, and the others stay.
    pub(crate) fn end(&mut self, slot: Slot)
        requires { IsIn self.old.table.entries slot }
        ensures holds { (lives : List Alive) (segments : ℕ → List Written) (flow : Flow) → Holds self.old lives segments →
            Wherever self.old.table.entries slot (λ e. e.value ≡ flow) → Holds self.new (without (flow.number ∷ []) lives) segments }
        ensures left { self.new.table.entries ≡ table.without self.old.table.entries slot }
        ensures max { self.new.table.max ≡ self.old.table.max }
        ensures tables { ChangesTables self.old self.new self.old.begun }
    {
        self.entries_are_apart();
        self.store.forget_all(ChainId(slot.0));
        let _pair = self.table.remove(slot);
        self.spare.take_out(slot);
    }
}
