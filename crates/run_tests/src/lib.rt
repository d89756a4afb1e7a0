//! Tests of whole runs: evasions, fragments, each status, what is written when a call of an object
//! fails, words, sections of a pcapng file, forms of a capture, files, and loads. The cases are
//! written in a text notation: packets, captures of them, and the outputs of a run over a capture.
#![tactic(auto)]

#[cfg(test)]
mod cases;
#[cfg(test)]
mod notation;
#[cfg(test)]
mod packets;
#[cfg(test)]
mod runs;
#[cfg(test)]
mod tests;
