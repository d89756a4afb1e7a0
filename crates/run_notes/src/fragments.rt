//! Fragments whose datagram was never complete, and counts by number.

use crate::line::{is_fragment, names};
use edge_io::NoMemory;
use frame_view::Flow;
use indexmap::IndexMap;
use rule_book::Rule;
use std::alloc::Global;
use wire_base::Addr;

/// What the fragments of a datagram have in common (RFC 791 section 3.2).
#[derive(Clone, Copy, Debug, PartialEq, Eq, Hash)]
pub(crate) struct DatagramKey {
    pub(crate) src: Addr,
    pub(crate) dst: Addr,
    pub(crate) protocol: u8,
    pub(crate) identification: u16,
}

/// The fragments that are held.
#[derive(Drop)]
pub(crate) struct Fragments {
    /// How many of each datagram.
    pub(crate) datagrams: IndexMap<DatagramKey, u64>,
    /// How many of all.
    pub(crate) all: u64,
}

/// How many records have this EtherType or protocol.
#[derive(Clone, Copy, Debug, PartialEq, Eq)]
pub struct NumberCount {
    pub number: u32,
    pub count: u64,
}

/// Counts by number, in the order in which they are named first.
pub(crate) type Numbered = IndexMap<u32, u64>;

impl Fragments {
    /// Returns that none is held.
    pub(crate) fn new(alloc: Global) -> Fragments {
        Fragments {
            datagrams: IndexMap::new(alloc),
            all: 0,
        }
    }

    /// Takes the packet of a line.
    pub(crate) fn take(&mut self, rules: &[Rule], flow: Flow) -> Result<(), NoMemory> {
        if !is_fragment(flow) {
            return Ok(());
        }
        if is_completing(rules) {
            return self.complete(datagram_of(flow));
        }
        if names(rules, Rule::FHeld) {
            return self.hold(datagram_of(flow));
        }
        Ok(())
    }

    // Holds one more fragment.
    fn hold(&mut self, key: DatagramKey) -> Result<(), NoMemory> {
        let held = self.held(key).saturating_add(1);
        self.datagrams.insert(key, held)?;
        self.all = self.all.saturating_add(1);
        Ok(())
    }

    // Forgets the fragments of a datagram that is complete.
    fn complete(&mut self, key: DatagramKey) -> Result<(), NoMemory> {
        let held = self.held(key);
        if held == 0 {
            return Ok(());
        }
        self.datagrams.insert(key, 0)?;
        self.all = self.all.saturating_sub(held);
        Ok(())
    }

    // Returns how many fragments of a datagram are held.
    fn held(&self, key: DatagramKey) -> u64 {
        self.datagrams.get(&key).copied().unwrap_or(0)
    }
}

/// Returns the datagram of a fragment.
pub(crate) fn datagram_of(flow: Flow) -> DatagramKey {
    DatagramKey {
        src: flow.src,
        dst: flow.dst,
        protocol: flow.protocol,
        identification: flow.identification,
    }
}

/// Returns whether the line of a fragment says that its datagram is complete.
pub(crate) fn is_completing(rules: &[Rule]) -> bool {
    match rules.first() {
        Some(rule) => rule.number() > Rule::FRoom.number() && *rule != Rule::FHeld,
        None => false,
    }
}

/// Counts one more of a number, where there is one.
pub(crate) fn count_number(counts: &mut Numbered, number: Option<u32>) -> Result<(), NoMemory> {
    let Some(number) = number else {
        return Ok(());
    };
    let count = counts.entry(number)?.or_insert(0);
    *count = count.saturating_add(1);
    Ok(())
}

/// Returns the counts as a list.
pub(crate) fn listed(alloc: Global, counts: &Numbered) -> Result<Vec<NumberCount>, NoMemory> {
    let mut list = Vec::new(alloc);
    for (number, count) in counts {
        list.push(NumberCount {
            number: *number,
            count: *count,
        })?;
    }
    Ok(list)
}
