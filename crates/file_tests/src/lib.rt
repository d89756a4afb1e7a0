//! Tests of the audit and of the view of a finished run.
#![tactic(auto)]

#[cfg(test)]
mod audits;
#[cfg(test)]
mod changes;
#[cfg(test)]
mod counts;
#[cfg(test)]
mod firsts;
#[cfg(test)]
mod keys;
#[cfg(test)]
mod lines;
#[cfg(test)]
mod notes;
#[cfg(test)]
mod view_stops;
#[cfg(test)]
mod views;
