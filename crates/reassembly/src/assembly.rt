//! The datagrams with held fragments.
ghost use Rattle.std.specs.Prelude.{◌≡◌, length};
ghost use Rattle.reassembly.specs.working.JoinedFragments.{Gathers};

use crate::id::DatagramId;
use crate::progress::Progress;
use edge_io::NoMemory;
use linked_table::LinkedTable;
use norm_settings::Settings;
use retain_store::Retain;
use std::alloc::Global;

/// Reassembles datagrams from their fragments. Allocates all its memory when it is opened.
#[derive(Drop)]
pub struct Assembly {
    /// Datagrams with held fragments, in order of their first fragments.
    pub(crate) table: LinkedTable<DatagramId, Progress>,
    /// Octets of the datagram in each slot of the table, by the slot's number.
    pub(crate) store: Retain,
    pub(crate) cells: u32,
    /// Seconds after which a datagram is removed.
    pub(crate) time: u32,
    /// Time of the latest call, in seconds.
    pub(crate) last: u32,
    ghost sized: { length store.chains ≡ table.max },
    ghost sound: { ∥ Gathers table.entries store ∥₁ },
}

impl Assembly {
    ghost use Rattle.std.specs.Prelude.{◌≤◌, List, [], IfOk};
    ghost use Rattle.norm_settings.specs.SettingValues.{PlainSettings, plain_settings, AreInRange};
    ghost use Rattle.reassembly.specs.Calls.{Call, gathered, cells_in};
    ghost use Rattle.reassembly.specs.AssemblyState.{StandsFor, last_time};

    /// Creates an assembly without fragments.
    pub fn open(alloc: Global, settings: &Settings) -> Result<Assembly, NoMemory>
        requires { AreInRange (plain_settings settings.now) }
        ensures stands { IfOk result (λ a. StandsFor (plain_settings settings.now) a []) }
        ensures last { IfOk result (λ a. last_time a ≡ 0) }
    {
        let table = LinkedTable::open(alloc, settings.frags, settings.seed)?;
        let store = Retain::open(alloc, settings.frag_cells, settings.frags)?;
        Ok(Assembly {
            table,
            store,
            cells: settings.frag_cells,
            time: settings.frag_time,
            last: 0,
        })
    }

    /// Returns the number of datagrams with held fragments.
    pub fn datagrams(&self) -> u32
        ensures number { (settings : PlainSettings) (calls : List Call) → StandsFor settings self.now calls → result ≡ length (gathered settings.frag_time calls) }
        ensures bounded { (settings : PlainSettings) (calls : List Call) → StandsFor settings self.now calls → result ≤ settings.frags }
    {
        self.table.len()
    }

    /// Returns the number of cells that hold octets.
    pub fn cells(&self) -> u32
        ensures number { (settings : PlainSettings) (calls : List Call) → StandsFor settings self.now calls → result ≡ cells_in (gathered settings.frag_time calls) }
        ensures bounded { (settings : PlainSettings) (calls : List Call) → StandsFor settings self.now calls → result ≤ settings.frag_cells }
    {
        // This call, and others like it, makes the facts of its contract available: here, that no
        // slot occurs twice.
        let _count = self.table.len();
        self.cells.saturating_sub(self.store.free())
    }
}
