//! norm for C: the engine between two ports, in C's hands from call to call.
//!
//! Proved: a handle owns one gate or none. The words that open it are read exactly by the grammar
//! of the command line. Each frame given to `norm_step` has its one event after the history that
//! the gate represents. The other calls write the frames and the lines of that event, and leave the
//! gate as it was. After a result other than `DONE` nothing is written.
#![tactic(auto)]

pub mod calls;
mod handle;
mod numbers;
mod opening;
pub mod plain;

pub use handle::Handle;
