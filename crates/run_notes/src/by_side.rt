//! Counts by the side that an entry says.

use wire_base::Side;

/// A count of records or octets, by the side that an entry says.
#[derive(Clone, Copy, Debug, Default, PartialEq, Eq)]
pub struct BySide {
    pub inward: u64,
    pub outward: u64,
    /// The entry says no side.
    pub neither: u64,
}

impl BySide {
    /// Adds to the count of this side.
    pub(crate) fn add(&mut self, side: Option<Side>, more: u64) {
        match side {
            Some(Side::Inward) => self.inward = self.inward.saturating_add(more),
            Some(Side::Outward) => self.outward = self.outward.saturating_add(more),
            None => self.neither = self.neither.saturating_add(more),
        }
    }

    /// Counts one more on this side, where a test holds.
    pub(crate) fn add_if(&mut self, test: bool, side: Option<Side>) {
        if test {
            self.add(side, 1);
        }
    }
}
