//! Tests of one record by an engine, of two engines in sequence, and of the relay that writes the
//! output.
#![tactic(auto)]

#[cfg(test)]
mod both;
#[cfg(test)]
mod engine;
#[cfg(test)]
mod packets;
#[cfg(test)]
mod relay;
#[cfg(test)]
mod settings;
