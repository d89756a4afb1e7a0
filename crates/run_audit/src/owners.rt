//! The entry of the report that each frame belongs to.
ghost use Rattle.std.specs.Prelude.{◌≡◌, [], ◌∷◌, map, MatchOption};
ghost use Rattle.rule_book.specs.Entries.{plain};
ghost use Rattle.run_audit.specs.OwnedFrames as frames;

use rule_book::Entry;

/// The entries of the frames that are left, in order.
#[derive(Drop)]
pub(crate) struct Owners<'a> {
    entries: &'a [Entry],
    // The number of frames of the first entry that `next` has returned.
    given: u8,
}

impl<'a> Owners<'a> {
    ghost use Rattle.run_audit.specs.working.OwnedEntries.{left_of};

    /// Returns the entries of all frames.
    pub(crate) fn new(entries: &'a [Entry]) -> Owners<'a>
        ensures { left_of result ≡ frames.owners (map plain entries.now) }
    {
        Owners { entries, given: 0 }
    }

    /// Returns the entry of the next frame, or None if no frame is left.
    pub(crate) fn next(&mut self) -> Option<&'a Entry>
        ensures { MatchOption result (left_of self.old ≡ []) (λ entry. left_of self.old ≡ plain entry.now ∷ left_of self.new) }
    {
        'entries: while let [entry, rest @ ..] = self.entries {
            if self.given < entry.packets {
                self.given += 1;
                return Some(entry);
            }
            self.entries = rest;
            self.given = 0;
        }
        None
    }
}
