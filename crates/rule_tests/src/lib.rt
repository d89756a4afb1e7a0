//! Tests of the rules on one packet, of frames that are cut, of the receivers, and of the records
//! of a load; and worked packets that show which premises a monitor needs.
#![tactic(auto)]

#[cfg(test)]
mod cuts;
#[cfg(test)]
mod datagrams;
#[cfg(test)]
mod ip;
pub mod laws;
#[cfg(test)]
mod loads;
#[cfg(test)]
mod receivers;
