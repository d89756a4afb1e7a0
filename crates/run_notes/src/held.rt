//! The octets that are held for datagrams in fragments, with the records that had them first.

use crate::fragments::DatagramKey;
use edge_io::NoMemory;
use indexmap::IndexMap;
use std::alloc::Global;

// The most octets that are kept: 16 MiB, as many as norm may hold. All are forgotten before there
// are more.
const MOST: usize = 1 << 24;

/// Octets of a fragment that differ from those held for its datagram.
#[derive(Debug, Drop)]
pub struct Clash {
    /// The offset of the first of them in the datagram.
    pub at: u64,
    /// The octets of the fragment.
    pub from: Vec<u8>,
    /// The octets held.
    pub to: Vec<u8>,
    /// The record that first had the octet held at this offset.
    pub first: u32,
}

/// What is held for a datagram.
#[derive(Drop)]
struct Datagram {
    octets: Vec<u8>,
    /// For each octet the record that had it first; 0 where none is held.
    records: Vec<u32>,
}

/// What is held for all datagrams.
#[derive(Drop)]
pub(crate) struct Held {
    datagrams: IndexMap<DatagramKey, Datagram>,
    /// How many octets are kept of all.
    kept: usize,
}

impl Datagram {
    // Returns the octet held at an offset, and the record that had it first, where it differs from
    // this one.
    fn other(&self, at: usize, octet: u8) -> Option<(u8, u32)> {
        match (self.octets.get(at), self.records.get(at)) {
            (Some(held), Some(record)) if *record != 0 && *held != octet => Some((*held, *record)),
            _ => None,
        }
    }

    // Returns the first octets from an offset on that differ from those held.
    fn clash(&self, alloc: Global, at: usize, octets: &[u8]) -> Result<Option<Clash>, NoMemory> {
        let mut found: Option<Clash> = None;
        for (index, octet) in octets.iter().enumerate() {
            let place = at.saturating_add(index);
            match (self.other(place, *octet), &mut found) {
                (Some((held, _)), Some(clash)) => {
                    clash.from.push(*octet)?;
                    clash.to.push(held)?;
                }
                (Some((held, first)), None) => {
                    found = Some(Clash {
                        at: place as u64,
                        from: Vec::from_slice(alloc, &[*octet])?,
                        to: Vec::from_slice(alloc, &[held])?,
                        first,
                    });
                }
                (None, Some(_)) => return Ok(found),
                (None, None) => {}
            }
        }
        Ok(found)
    }

    // Adds the octets of a record from an offset on.
    fn add(&mut self, record: u32, at: usize, octets: &[u8]) -> Result<(), NoMemory> {
        let end = at.saturating_add(octets.len());
        if self.octets.len() < end {
            self.octets.resize(end, 0)?;
            self.records.resize(end, 0)?;
        }
        for (index, octet) in octets.iter().enumerate() {
            self.place(record, at.saturating_add(index), *octet);
        }
        Ok(())
    }

    // Places an octet of a record. Where it differs from the one held, norm had forgotten the
    // datagram of that one by its time.
    fn place(&mut self, record: u32, at: usize, octet: u8) {
        if let (Some(held), Some(first)) = (self.octets.get_mut(at), self.records.get_mut(at)) {
            if *first == 0 || *held != octet {
                *held = octet;
                *first = record;
            }
        }
    }
}

impl Held {
    /// Returns that nothing is held.
    pub(crate) fn new(alloc: Global) -> Held {
        Held {
            datagrams: IndexMap::new(alloc),
            kept: 0,
        }
    }

    /// Returns the first octets of a fragment that differ from those held, where they are known.
    pub(crate) fn clash(
        &self,
        alloc: Global,
        key: DatagramKey,
        at: usize,
        octets: &[u8],
    ) -> Result<Option<Clash>, NoMemory> {
        match self.datagrams.get(&key) {
            Some(datagram) => datagram.clash(alloc, at, octets),
            None => Ok(None),
        }
    }

    /// Forgets what is held for a datagram.
    pub(crate) fn forget(&mut self, key: DatagramKey) {
        if let Some(datagram) = self.datagrams.swap_remove(&key) {
            self.kept = self.kept.saturating_sub(datagram.octets.len());
        }
    }

    /// Holds a fragment of a record.
    pub(crate) fn hold(
        &mut self,
        alloc: Global,
        key: DatagramKey,
        record: u32,
        at: usize,
        octets: &[u8],
    ) -> Result<(), NoMemory> {
        self.make_room(key, at.saturating_add(octets.len()));
        let datagram = self.datagrams.entry(key)?.or_insert_with(|| Datagram {
            octets: Vec::new(alloc),
            records: Vec::new(alloc),
        });
        datagram.add(record, at, octets)
    }

    // Counts the octets of a datagram up to this end, and forgets all where there are too many.
    fn make_room(&mut self, key: DatagramKey, end: usize) {
        let more = end.saturating_sub(self.length(key));
        self.kept = self.kept.saturating_add(more);
        if self.kept > MOST {
            self.datagrams.clear();
            self.kept = end;
        }
    }

    // Returns the number of octets that are kept of a datagram.
    fn length(&self, key: DatagramKey) -> usize {
        self.datagrams
            .get(&key)
            .map_or(0, |datagram| datagram.octets.len())
    }
}
