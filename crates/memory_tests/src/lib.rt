//! Tests of pools of cells, of stores of octets, of tables in order of recency, and of datagrams
//! made of fragments.
#![tactic(auto)]

#[cfg(test)]
mod cells;
#[cfg(test)]
mod fragments;
#[cfg(test)]
mod stores;
#[cfg(test)]
mod table;
