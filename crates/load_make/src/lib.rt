//! A load for measurements: records made from a seed.
//!
//! Proved: `Load::next` returns exactly the records that the seed and the count define, one per
//! call, and none after the last.
#![tactic(auto)]

pub mod flow;
pub mod load;
mod packet;
mod sequence;

pub use load::{Load, MAX_RECORD};
