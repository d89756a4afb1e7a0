//! A table of keys and values in order of recency, a list of slots, and a hash under a seed; all
//! memory is allocated at opening.
//!
//! Proved: every call of `LinkedTable` is the call on the list of its entries, least recently
//! touched first, whatever the seed and the hash. `find` splits the list at the entry found. A full
//! table returns the pair that does not fit. When a mutable borrow of a value ends, the table has
//! the value last written through it. A `SlotList` is a list of slots: it is empty at opening, a
//! slot is put last or taken out, no slot occurs twice, and the first is returned. `hash_words` is
//! the value of a polynomial over its two words, modulo a prime, at a point that the seed chooses.
//! It is not proved that words which share a bucket are hard to choose without the seed.
//!
//! Choices: the slots are one vector. A slot has its key and value, its neighbours by recency or
//! among the free slots, and its neighbours in its bucket. A look-up reads the sentinel of the
//! bucket and the slots there up to its own, nothing else. Two sentinels follow the slots, of the
//! entries and of the free slots, so linking and unlinking in these rings has no branch. The
//! sentinels of the buckets are in a separate vector, of 8 octets each, one more than slots, so
//! never none. A bucket is picked by products, which are faster than a division. The slot freed
//! last is filled first, so that few live entries touch little memory.
#![tactic(auto)]

mod hash;
mod list;
mod node;
mod table;

pub use hash::{Hashed, Key, hash_words};
pub use list::SlotList;
pub use table::{LinkedTable, Slot};
