//! Tests of the headers of packets: IPv4, UDP, ICMP and TCP, parsed and written.
#![tactic(auto)]

#[cfg(test)]
mod icmp;
#[cfg(test)]
mod ipv4;
#[cfg(test)]
mod tcp;
#[cfg(test)]
mod udp;
