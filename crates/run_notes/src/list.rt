//! The notes of a run.

use crate::{BySide, EARLY_RULES, Full, Notes, RuleDrops, Tagged};
use edge_io::NoMemory;
use std::alloc::Global;

/// A note on a capture, with its counts. `of` is the number of all records.
#[derive(Clone, Copy, Debug, PartialEq, Eq)]
pub enum Note {
    /// Octets that were passed over and acknowledged, and that no record has, by side.
    Lost {
        inward: u64,
        outward: u64,
    },
    /// Gaps that were filled from the front after their acknowledgment, by side.
    Order {
        inward: u64,
        outward: u64,
    },
    /// Eras that begin without SYN, and inbound segments with payload that a probe replaces, both
    /// of four-tuples without an era before.
    Half {
        eras: u64,
        segments: u64,
    },
    /// Segments of one side, and none or few of the other.
    One {
        records: BySide,
    },
    /// Checksums that are left to the network card.
    Card {
        records: BySide,
    },
    /// Checksums that are wrong for another reason.
    Wrong {
        records: BySide,
    },
    /// Packets that equal one of the four records before them.
    Twice {
        records: u64,
    },
    /// Packets that belong to no side.
    Foreign {
        records: u64,
    },
    /// IPv4 packets after VLAN tags, in PPPoE or after MPLS labels.
    Tagged {
        records: Tagged,
        of: u64,
    },
    /// Segments and UDP datagrams in IPv6.
    Ipv6 {
        records: u64,
        of: u64,
    },
    Tunnels {
        records: u64,
        of: u64,
    },
    /// Records by the option whose table was full.
    Full {
        records: Full,
    },
    /// Records that the capture has in part.
    Cut {
        records: u64,
    },
    /// Records that were dropped before their payload was judged, by rule, most first.
    Unjudged {
        records: u64,
        of: u64,
        rules: [RuleDrops; EARLY_RULES],
    },
}

impl Note {
    /// Returns whether a reader may believe the wrong thing. A note on a kind of packet that is not
    /// judged only names it, unless half of the records or more are of that kind.
    pub fn is_warning(self) -> bool {
        match self {
            Note::Tagged { records, of } => is_half(records.all(), of),
            Note::Ipv6 { records, of } | Note::Tunnels { records, of } => is_half(records, of),
            _ => true,
        }
    }
}

impl Notes {
    /// Returns the notes, in their order.
    pub fn list(&self, alloc: Global) -> Result<Vec<Note>, NoMemory> {
        let mut list = Vec::new(alloc);
        self.add_streams(&mut list)?;
        self.add_packets(&mut list)?;
        self.add_kinds(&mut list)?;
        self.add_unjudged(&mut list)?;
        Ok(list)
    }

    // Adds the notes on streams.
    fn add_streams(&self, list: &mut Vec<Note>) -> Result<(), NoMemory> {
        let faults = self.streams.faults();
        let (inward, outward) = (faults.missing.inward, faults.missing.outward);
        let lost = inward > 0 || outward > 0;
        add_if(list, lost, Note::Lost { inward, outward })?;
        let (inward, outward) = (faults.filled.inward, faults.filled.outward);
        // An attacker can make gaps of the inside's octets, and not of the outside's.
        let late = inward >= 3;
        add_if(list, late || outward >= 3, Note::Order { inward, outward })?;
        let (eras, segments) = (self.tuples.middle, self.tuples.probed);
        let half = self.has_half() && !lost && !late;
        add_if(list, half, Note::Half { eras, segments })?;
        let records = self.kinds.answering;
        add_if(list, self.has_one(), Note::One { records })
    }

    // Adds the notes on packets.
    fn add_packets(&self, list: &mut Vec<Note>) -> Result<(), NoMemory> {
        let left = self.sums.to_card;
        add_if(list, self.has_card(), Note::Card { records: left })?;
        let wrong = self.sums.wrong;
        add_if(list, self.has_wrong(), Note::Wrong { records: wrong })?;
        let twice = self.twins.twice;
        let many = is_share(twice, 4, 16, self.twins.candidates);
        add_if(list, many, Note::Twice { records: twice })?;
        let foreign = self.kinds.foreign;
        add_if(list, self.has_foreign(), Note::Foreign { records: foreign })
    }

    // Adds the notes on kinds that are not judged, on tables that were full, and on records that
    // are cut.
    fn add_kinds(&self, list: &mut Vec<Note>) -> Result<(), NoMemory> {
        let of = self.records;
        let tagged = self.kinds.tagged;
        let any = tagged.all() > 0;
        add_if(
            list,
            any,
            Note::Tagged {
                records: tagged,
                of,
            },
        )?;
        let ipv6 = self.kinds.ipv6;
        add_if(list, ipv6 > 0, Note::Ipv6 { records: ipv6, of })?;
        let records = self.kinds.tunnels;
        add_if(list, records > 0, Note::Tunnels { records, of })?;
        let records = self.full();
        add_if(list, records.is_any(), Note::Full { records })?;
        let cut = self.kinds.cut;
        add_if(list, cut > 0, Note::Cut { records: cut })
    }

    // Adds the note on records that were dropped before their payload was judged: if at least half
    // were, or if the capture has no record.
    fn add_unjudged(&self, list: &mut Vec<Note>) -> Result<(), NoMemory> {
        let (records, of) = (self.early.all(), self.records);
        let rules = self.early.most_first();
        let unjudged = is_half(records, of);
        add_if(list, unjudged, Note::Unjudged { records, of, rules })
    }

    // Returns whether the capture begins in mid-connection.
    fn has_half(&self) -> bool {
        let tuples = &self.tuples;
        let share = is_share(tuples.middle, 1, 8, tuples.begun);
        let probed = is_share(tuples.probed, 4, 8, tuples.inbound);
        share || probed
    }

    // Returns whether segments go only one way.
    fn has_one(&self) -> bool {
        let answering = self.kinds.answering;
        let most = answering.inward.max(answering.outward);
        let few = answering.inward.min(answering.outward);
        is_one_sided(most, few, answering.neither)
    }

    // Returns whether many checksums are left to the card.
    fn has_card(&self) -> bool {
        self.has_side(self.sums.to_card, 2, 64)
    }

    // Returns whether most checksums are wrong for another reason.
    fn has_wrong(&self) -> bool {
        self.has_side(self.sums.wrong, 4, 2)
    }

    // Returns whether a count of a side reaches a least one, and one in `part` of its packets.
    fn has_side(&self, count: BySide, least: u64, part: u64) -> bool {
        let inward = is_share(count.inward, least, part, self.sums.carried.inward);
        let outward = is_share(count.outward, least, part, self.sums.carried.outward);
        let neither = is_share(count.neither, least, part, self.sums.packets);
        inward || outward || neither
    }

    // Returns whether most packets belong to no side.
    fn has_foreign(&self) -> bool {
        u128::from(self.sums.packets) < 2 * u128::from(self.kinds.foreign)
    }

    // Returns the records by the option whose table was full.
    fn full(&self) -> Full {
        Full {
            flows: self.kinds.full.flows.saturating_add(self.tuples.resumed),
            ..self.kinds.full
        }
    }
}

// Adds a note where a test holds.
fn add_if(list: &mut Vec<Note>, test: bool, note: Note) -> Result<(), NoMemory> {
    if test {
        list.push(note)?;
    }
    Ok(())
}

// Returns whether a count is half of all or more.
fn is_half(count: u64, all: u64) -> bool {
    is_share(count, 0, 2, all)
}

// Returns whether a count reaches a least one, and one in `part` of all.
fn is_share(count: u64, least: u64, part: u64, all: u64) -> bool {
    count >= least && u128::from(part) * u128::from(count) >= u128::from(all)
}

// Returns whether segments of one side are many, and those of the other and of neither few.
fn is_one_sided(most: u64, few: u64, neither: u64) -> bool {
    let others = u128::from(few) + u128::from(neither);
    most >= 8 && u128::from(most) >= 256 * others
}

/// Returns whether one of the notes is a warning.
pub fn has_warning(notes: &[Note]) -> bool {
    notes.iter().any(|note| note.is_warning())
}
