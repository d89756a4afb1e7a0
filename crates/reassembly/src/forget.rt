//! Removal of datagrams.
use crate::assembly::Assembly;
use linked_table::Slot;
use retain_store::ChainId;

impl Assembly {
    ghost use Rattle.std.specs.Prelude.{◌≡◌, ◌≤◌, ◌<◌, ℕ, List, [], ◌∷◌, length, true, false, IsTrue};
    ghost use Rattle.std.specs.List.{count_by};
    ghost use Rattle.linked_table.specs.EntryTable.{IsIn, Wherever};
    ghost use Rattle.norm_settings.specs.SettingValues.{PlainSettings};
    ghost use Rattle.reassembly.specs.declared.id.DatagramId.{DatagramId};
    ghost use Rattle.reassembly.specs.Calls.{Call, expiry, Gathered, gathered, of_others, is_old};
    ghost use Rattle.reassembly.specs.TableAndStore.{HoldsFor};
    ghost use Rattle.reassembly.specs.AssemblyState.{IsFor, KeepsFor, StandsFor, last_time};
    ghost use Rattle.reassembly.specs.working.FragmentAnswers.{begins_old, without_first};

    // Removes the datagram in this slot: its octets and its entry. The others stay.
    pub(crate) fn forget(&mut self, slot: Slot)
        requires { IsIn self.old.table.entries slot }
        ensures others { (gs : List Gathered) (id : DatagramId) → HoldsFor gs self.old.table.entries self.old.store →
            Wherever self.old.table.entries slot (λ e. e.key ≡ id) → HoldsFor (of_others id gs) self.new.table.entries self.new.store }
        ensures opened { (settings : PlainSettings) → IsFor settings self.old → IsFor settings self.new }
        ensures time { self.new.time ≡ self.old.time }
    {
        let _count = self.table.len();
        self.store.forget_all(ChainId(slot.0));
        let _pair = self.table.remove(slot);
    }

    // Returns whether the datagram that began first did so more than `time` seconds before `now`.
    fn begins_old(&self, now: u32) -> bool
        ensures { (gs : List Gathered) → HoldsFor gs self.now.table.entries self.now.store → result ≡ begins_old self.now.time now gs }
    {
        let Some(slot) = self.table.oldest() else {
            return false;
        };
        let since = self.table.at(slot).since;
        u64::from(since) + u64::from(self.time) < u64::from(now)
    }

    // Removes the datagram that began first, if there is one.
    fn forget_first(&mut self)
        ensures first { (gs : List Gathered) → HoldsFor gs self.old.table.entries self.old.store → HoldsFor (without_first gs) self.new.table.entries self.new.store }
        ensures opened { (settings : PlainSettings) → IsFor settings self.old → IsFor settings self.new }
        ensures time { self.new.time ≡ self.old.time }
    {
        let _count = self.table.len();
        if let Some(slot) = self.table.oldest() {
            let _key = self.table.key_at(slot);
            self.forget(slot);
        }
    }

    // Removes the datagrams that began too long before `now`, from the first one on, and returns
    // their number.
    #[inline(always)]
    fn forget_old(&mut self, now: u32) -> u32
        ensures number { (settings : PlainSettings) (calls : List Call) → KeepsFor settings self.old calls →
            result ≡ count_by (is_old settings.frag_time now) (gathered settings.frag_time calls) }
        ensures keeps { (settings : PlainSettings) (calls : List Call) → KeepsFor settings self.old calls → KeepsFor settings self.new (expiry now ∷ calls) }
    {
        let most = self.table.len();
        for index in 0..most {
            if !self.begins_old(now) {
                return index;
            }
            self.forget_first();
        }
        most
    }

    /// Removes each datagram whose first fragment arrived more than `time` seconds before `now`,
    /// and returns their number.
    #[inline(always)]
    pub fn expire(&mut self, now: u32) -> u32
        requires { last_time self.old ≤ now }
        ensures number { (settings : PlainSettings) (calls : List Call) → StandsFor settings self.old calls →
            result ≡ count_by (is_old settings.frag_time now) (gathered settings.frag_time calls) }
        ensures stands { (settings : PlainSettings) (calls : List Call) → StandsFor settings self.old calls → StandsFor settings self.new (expiry now ∷ calls) }
        ensures last { last_time self.new ≡ now }
    {
        let count = self.forget_old(now);
        self.last = now;
        count
    }
}
