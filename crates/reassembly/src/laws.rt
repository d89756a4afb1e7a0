//! Laws of calls.
ghost use Rattle.reassembly.specs.WorkedCases.{WorkedRows};
ghost use Rattle.reassembly.specs.CallLaws.{AnsweredIsWithin, DatagramsAreApart, FirstRowDrops, WholeIsItsPieces, WholesAreSized};

/// Proves that a complete datagram is made of its fragments: each is at its offset, each octet is
/// of one, and one is at offset 0.
pub fn whole_is_its_pieces()
    ensures { WholeIsItsPieces }
{}

/// Proves that what is held for a datagram depends on its own fragments, on the answer to each, and
/// on time. Other datagrams affect these answers by F_MANY and F_ROOM alone.
pub fn datagrams_are_apart()
    ensures { DatagramsAreApart }
{}

/// Proves that a fragment is dropped by the first rule on fragments that applies to it.
pub fn first_row_drops()
    ensures { FirstRowDrops }
{}

/// Proves that a datagram completed by sized fragments is sized, and has at most 65,515 octets.
pub fn wholes_are_sized()
    ensures { WholesAreSized }
{}

/// Proves that the numbers of held datagrams and cells do not exceed the settings.
pub fn answered_is_within()
    ensures { AnsweredIsWithin }
{}

/// Computes the worked cases from the definitions.
pub fn worked_rows()
    ensures { WorkedRows }
{}
