//! Whether two streams agree.
ghost use Rattle.std.specs.Prelude.{◌⊎◌, ◌↔◌, IsTrue};
ghost use Rattle.receiver_model.specs.FamilyAgreement.{Agree, IsPrefixOf};

fn is_prefix(a: &[u8], b: &[u8]) -> bool
    ensures { IsTrue result ↔ IsPrefixOf a.now b.now }
{
    b.starts_with(a)
}

/// Returns whether one is a prefix of the other.
pub fn agree(a: &[u8], b: &[u8]) -> bool
    ensures { IsTrue result ↔ (IsPrefixOf a.now b.now ⊎ IsPrefixOf b.now a.now) }
{
    is_prefix(a, b) || is_prefix(b, a)
}

// Returns whether two streams agree: as `agree`, and an ended one is a prefix only of an equal one.
pub(crate) fn agree_with_ends(a: &[u8], a_ended: bool, b: &[u8], b_ended: bool) -> bool
    ensures { IsTrue result ↔ Agree a.now a_ended b.now b_ended }
{
    if a_ended && a.len() < b.len() || b_ended && b.len() < a.len() {
        return false;
    }
    agree(a, b)
}
