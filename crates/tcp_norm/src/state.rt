//! The live eras of all connections, and the octets that are kept of them.
ghost use Rattle.std.specs.Prelude.{◌≡◌, ◌≤◌, length, vec_len};
ghost use Rattle.tcp_norm.specs.working.EraBounds.{AreBounded, AreNear};
ghost use Rattle.tcp_norm.specs.working.SpareSlots.{spares};
ghost use Rattle.wire_base.specs.declared.limits.TheConstants.{MAX_PAYLOAD};

use crate::key::{EraKey, Flow};
use edge_io::NoMemory;
use linked_table::{LinkedTable, Slot, SlotList};
use norm_settings::Settings;
use retain_store::Retain;
use std::alloc::Global;
use wire_base::{FlowKey, MAX_PAYLOAD};

/// The settings that segments are judged by.
#[derive(Clone, Copy)]
pub(crate) struct Limits {
    pub(crate) cells: u32,
    /// Routers behind the bridge.
    pub(crate) hops: u8,
    pub(crate) idle: u32,
    pub(crate) offload: bool,
    /// How many cells the octets of one era may take, if that is bounded.
    pub(crate) quota: Option<u32>,
}

/// Judges the segments of TCP connections, one after another. It takes all its memory when it is
/// opened.
#[derive(Drop)]
pub struct TcpNorm {
    pub(crate) table: LinkedTable<EraKey, Flow>,
    /// The octets of the era in each slot of the table, by the slot's number.
    pub(crate) store: Retain,
    /// The slots of the eras that hold no octet, least recently touched first.
    pub(crate) spare: SlotList,
    pub(crate) limits: Limits,
    /// How many eras began.
    pub(crate) begun: u32,
    /// Number of datagrams that arrived.
    pub(crate) calls: u32,
    /// The greatest time of a call, in seconds.
    pub(crate) latest: u32,
    /// Buffer for the octets of an inbound segment that a rule rewrites: those sent first.
    pub(crate) scratch: Vec<u8>,
    /// Buffer for a segment that is rewritten, or whose checksum is computed again.
    pub(crate) page: Vec<u8>,
    ghost sized: { length store.chains ≡ table.max },
    ghost spare_sized: { spare.max ≡ table.max },
    ghost spare_listed: { spare.slots ≡ spares store table.entries },
    ghost room: { vec_len scratch ≡ MAX_PAYLOAD },
    ghost page_room: { vec_len page ≡ MAX_PAYLOAD },
    ghost passes: { limits.hops ≤ 254 },
    ghost few: { begun ≤ calls },
    ghost near: { AreNear calls table.entries },
    ghost bounded: { AreBounded limits.quota store },
}

impl TcpNorm {
    ghost use Rattle.std.specs.Prelude.{ℕ, ◌≢◌, ◌*◌, ◌<◌, List, [], Some, is_some, IfOk, ◌≡◌, ◌+◌, ◌-◌, ◌≤◌, length};
    ghost use Rattle.std.specs.List.{AllByRecursion, All, AllPairs};
    ghost use Rattle.norm_settings.specs.SettingValues.{PlainSettings, plain_settings, AreInRange};
    ghost use Rattle.ip_rules.specs.Datagrams.{Datagram};
    ghost use Rattle.tcp_norm.specs.Calls.{Call, eras, live, Outcome};
    ghost use Rattle.tcp_norm.specs.HeldOctets.{held_all, held_in};
    ghost use Rattle.tcp_norm.specs.QuotaBounds.{IsAtMost};
    ghost use Rattle.tcp_norm.specs.RuleRows.{dropped_by};
    ghost use Rattle.tcp_norm.specs.RuleViews.{view_of};
    ghost use Rattle.tcp_norm.specs.working.TableChanges.{IsReady};
    ghost use Rattle.tcp_norm.specs.TableAndStore.{StandsFor};
    ghost use Rattle.linked_table.specs.EntryTable.{IsIn, Wherever};
    ghost use Rattle.tcp_norm.specs.working.ColdDatagrams.{IsUnheard};
    ghost use Rattle.tcp_norm.specs.working.Rulings.{IsCounted, IsHeld};
    ghost use Rattle.wire_base.specs.declared.address.FlowKey.{FlowKey};
    ghost use Rattle.rule_book.specs.declared.rule.Rule.TheVariants as rules;

    /// Opens the state: no era is live, and none began.
    pub fn open(alloc: Global, settings: &Settings) -> Result<TcpNorm, NoMemory>
        requires { AreInRange (plain_settings settings.now) }
        ensures { IfOk result (λ norm. StandsFor (plain_settings settings.now) norm []) }
    {
        let table = LinkedTable::open(alloc, settings.flows, settings.seed)?;
        let store = Retain::open(alloc, settings.cells, settings.flows)?;
        let spare = SlotList::open(alloc, settings.flows)?;
        let scratch = vec![in alloc; 0u8; MAX_PAYLOAD]?;
        let page = vec![in alloc; 0u8; MAX_PAYLOAD]?;
        Ok(TcpNorm {
            table,
            store,
            spare,
            limits: Limits {
                cells: settings.cells,
                hops: settings.hops,
                idle: settings.idle,
                offload: settings.offload,
                quota: settings.quota,
            },
            begun: 0,
            calls: 0,
            latest: 0,
            scratch,
            page,
        })
    }

    /// Returns whether an era of this connection is live.
    pub fn live(&self, key: &FlowKey) -> bool
        ensures { (settings : PlainSettings) (calls : List Call) → StandsFor settings self.now calls → result ≡ is_some (live calls key.now) }
    {
        self.entries_are_apart();
        self.table.find(&EraKey(*key)).is_some()
    }

    /// Returns how many eras are live.
    pub fn flows(&self) -> u32
        ensures number { (settings : PlainSettings) (calls : List Call) → StandsFor settings self.now calls → result ≡ length (eras calls) }
        ensures bounded { (settings : PlainSettings) (calls : List Call) → StandsFor settings self.now calls → result ≤ settings.flows }
    {
        self.table.len()
    }

    /// Returns how many cells hold octets. If a quota is set, no live era holds more cells than
    /// that. If there are as many cells as all eras may hold together, T_ROOM drops nothing.
    pub fn held(&self) -> u32
        ensures number { (settings : PlainSettings) (calls : List Call) → StandsFor settings self.now calls → result ≡ held_all calls }
        ensures bounded { (settings : PlainSettings) (calls : List Call) → StandsFor settings self.now calls → result ≤ settings.cells }
        ensures quota { (settings : PlainSettings) (calls : List Call) → StandsFor settings self.now calls → AllByRecursion (λ a. IsAtMost settings.quota (held_in calls a)) (eras calls) }
        ensures room { (settings : PlainSettings) (calls : List Call) (d : Datagram) (most : ℕ) → StandsFor settings self.now calls → settings.quota ≡ Some most →
            settings.flows * most ≤ settings.cells → dropped_by settings (view_of settings calls d) d ≢ Some rules.TRoom }
    {
        self.entries_are_apart();
        self.limits.cells.saturating_sub(self.store.free())
    }

    // Counts a datagram of which no era hears, at this time.
    pub(crate) fn arrive(&mut self, now: u32)
        requires ready { IsReady self.old now }
        ensures { (settings : PlainSettings) (calls : List Call) (d : Datagram) (o : Outcome) → StandsFor settings self.old calls →
            IsUnheard o → IsCounted settings calls d o now self.old self.new }
    {
        self.calls += 1;
        self.latest = now;
    }

    // States that no two entries of the table have the same slot or the same key.
    pub(crate) fn entries_are_apart(&self)
        ensures bounded { length self.now.table.entries ≤ self.now.table.max }
        ensures slots_below { All (λ e. e.slot.0 < self.now.table.max) self.now.table.entries }
        ensures slots_apart { AllPairs (λ e f. e.slot ≢ f.slot) self.now.table.entries }
        ensures keys_apart { AllPairs (λ e f. e.key ≢ f.key) self.now.table.entries }
    {
        let _count = self.table.len();
    }

    // Borrows the era in this slot.
    pub(crate) fn flow_at(&self, slot: Slot) -> &Flow
        requires { IsIn self.now.table.entries slot }
        ensures held { (key : FlowKey) → Wherever self.now.table.entries slot (λ e. e.key.0 ≡ key) → IsHeld self.now.table (record { key = key; slot = slot; flow = result.now }) }
        ensures value { Wherever self.now.table.entries slot (λ e. e.value ≡ result.now) }
    {
        self.entries_are_apart();
        self.table.at(slot)
    }
}
