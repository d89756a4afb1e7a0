//! Which octet a receiver keeps if several segments bring one for the same offset.
ghost use Rattle.std.specs.Prelude.{◌≡◌};
ghost use Rattle.receiver_model.specs.Policies.{replaces, chosen};

/// Choice between a waiting octet and another that arrives for its offset (this project's profile).
#[derive(Clone, Copy, Debug, PartialEq, Eq)]
pub enum Policy {
    /// The waiting octet stays.
    First,
    /// The newer octet replaces it.
    Newest,
    /// The newer octet replaces it if its segment begins at a smaller offset.
    Left,
    /// The newer octet replaces it if its segment ends at a larger offset.
    Right,
}

/// Waiting octet, and the offsets at which the segment that brought it begins and ends, plus 2^31
/// each.
#[derive(Clone, Copy)]
pub(crate) struct Waiting {
    pub octet: u8,
    pub begin: u64,
    pub end: u64,
}

impl Policy {
    fn replaces(self, old: &Waiting, new: &Waiting) -> bool
        ensures { result ≡ replaces self old.now new.now }
    {
        match self {
            Policy::First => false,
            Policy::Newest => true,
            Policy::Left => new.begin < old.begin,
            Policy::Right => new.end > old.end,
        }
    }

    /// Returns the waiting octet after another arrived, or none did.
    pub(crate) fn choose(self, old: Option<Waiting>, new: Option<Waiting>) -> Option<Waiting>
        ensures { result ≡ chosen self old new }
    {
        match (old, new) {
            (old, None) => old,
            (None, new) => new,
            (Some(old), Some(new)) => {
                if self.replaces(&old, &new) {
                    Some(new)
                } else {
                    Some(old)
                }
            }
        }
    }
}
