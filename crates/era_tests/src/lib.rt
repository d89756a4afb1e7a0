//! Tests of the state of an era, of the segments that begin one, and of resets and probes.
#![tactic(auto)]

#[cfg(test)]
mod cold;
#[cfg(test)]
mod eras;
#[cfg(test)]
mod resets;
