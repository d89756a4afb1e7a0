//! The engine: the entry and the frames of each record, after all records before it.
//!
//! Proved: `Engine::step` of an engine that represents a history returns exactly the entry and the
//! frames that its next record has after that history. The engine then represents the history with
//! that item. `flows`, `held`, `datagrams` and `frag_cells` return the numbers of live eras, of
//! cells with octets, of held datagrams, and of cells with octets of fragments. None exceeds its
//! setting.
//!
//! Laws: records have one lawful trace, whatever the seed. The calls of a lawful trace are those
//! that the rules make of its segments. In it each clean record has exactly one frame with its
//! payload, octet for octet if the verdict is pass. At each history nothing exceeds the settings,
//! and with cells for the quota of each era T_ROOM drops nothing. In each era all receivers agree,
//! also across reassembly, and read parts of one stream, from whichever offset each starts. Nothing
//! is invented: each octet of an era's stream, and its end, was brought by the very record that
//! added it. An entry names T_CLASH exactly if its record is written, has neither SYN nor RST, and
//! has, at an offset at or past Acked, an octet that differs from the one written first there. It
//! names F_CLASH exactly if its record carries a fragment, which no rule tested before drops, with
//! an octet that differs from a held one. Packets that norm passed unchanged were read as they were
//! recorded, in all or between one pair of addresses, and two eras are read as one if the second
//! goes on where the first ended. The laws on traces assume records of octets and at most 254
//! routers; `bridge_run` proves both of each run.
//!
//! What is written of a trace with an MTU is the trace with its long frames cut or dropped, and
//! with its entries changed accordingly; `written::tell_cut` changes an entry so. Without an MTU it
//! is the trace itself. Laws on what is written of a lawful trace: clean records keep their
//! payload, in one frame or in segments, unless a frame is too long and cannot be cut. Receivers
//! agree, and read parts of one stream, which records brought. At each history a monitor has missed
//! nothing. No frame is too long for the MTU or for a capture, and each frame written inwards is
//! plain, except ARP. T_CLASH and F_CLASH are as exact in the lines that are written.
#![tactic(auto)]

pub mod engine;
mod judge;
pub mod laws;
mod send;
pub mod written;

pub use engine::{Engine, blank_entry};
