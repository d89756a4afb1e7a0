//! The engine between two ports: what becomes of a frame, by the port at which it arrived, before
//! the engine judges it, and by which port each frame leaves.
//!
//! Proved: `fate_of` returns exactly what the definitions say of a frame: judged, forged, crosses,
//! unjudged, too long or truncated. A `Gate` represents a history of frames, newest first.
//! `Gate::step` returns what the next frame has after it: its fate, the records that the engine
//! judged for it, the frames that are written and the port of each. At every moment all that was
//! written keeps what a finished run promises of receivers (`IsNormal` in live_norm). Laws: no
//! record of the engine was forged at its port; and each frame that leaves by the inside port is
//! one of an inbound record, or ARP that crossed from outside.
#![tactic(auto)]

mod arp;
mod arrival;
mod fate;
pub mod gate;
pub mod laws;

pub use arrival::{Arrival, Frames, Port};
pub use fate::{Fate, fate_of};
pub use gate::{Answer, Gate};
