//! norm over frames as they arrive, one after another, with no end in sight.
//!
//! Proved: a `Live` represents a history of records. `Live::step` returns the entry and the frames
//! that the next record has after it, as a finished run would write them, with `--mtu` too. At
//! every moment the history is lawful, and all that was written so far keeps what a finished run
//! promises (`IsNormal`). In each era all receivers agree and read parts of one stream, and a
//! monitor misses nothing. Nothing is invented, each clash that is named is real, clean records
//! keep their payload, each frame written inwards is plain, except ARP, and nothing exceeds the
//! settings. The lines are those of the report of such a run.
#![tactic(auto)]

mod cut;
pub mod laws;
pub mod live;

pub use live::Live;
