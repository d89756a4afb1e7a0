//! Laws of what a finished run wrote: its capture is read back, its audit answers yes, and it is
//! viewed.
//!
//! Proved, of the contract that `bridge_run::run` has at status 0: what the run wrote to its
//! capture is read back as the head and one record for each frame. A record has the time of its
//! input record and the length of the frame; with `--mtu` and `--both` too. An audit, with as many
//! routers, of the capture and the report of a run without these two options answers only `yes`, if
//! the report is not longer than an audit reads. The run read a classic or a pcapng file. So
//! `audit` returns 0, or 8 if memory could not be allocated, unless a count of faults rose. The
//! capture that a run read and the two files that it wrote, under whatever options, are those of
//! one list of items. So `view` returns 0, 10, 11 or 8 of them in the same way. A run of more than
//! 2^31 - 1 records or of more than 2^32 - 1 frames is not covered. Of a run by one engine without
//! an MTU, a view with `--evidence` that ends with 0 shows that recorded hosts read what receivers
//! of the written capture read. Any two receivers of what a run wrote inwards in an era have the
//! same octet wherever both have read, from whichever offsets they start.
//!
//! No program uses this crate.
#![tactic(auto)]

pub mod laws;
