//! Tests of the objects that move octets, of numbers, checksums, frames and prefixes, and of
//! capture files of both kinds.
#![tactic(auto)]

#[cfg(test)]
mod ahead;
#[cfg(test)]
mod captures;
#[cfg(test)]
mod ends;
#[cfg(test)]
mod formats;
#[cfg(test)]
mod pcap;
#[cfg(test)]
mod pcapng;
